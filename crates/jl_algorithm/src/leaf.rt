//! Expressions whose value is there at once: literals, `this`, and names that need no call (11.1.1 to 11.1.3).
ghost use Rattle.std.specs.Prelude.{◌≡◌, ◌-◌, ◌<◌, IfOk, IfSome, Some};
ghost use Rattle.jl_ast.specs.View.{view_expression};
ghost use Rattle.jl_meaning.specs.Expressions.{evaluate};
ghost use Rattle.jl_state.specs.Steps.{Supplies, Took};
ghost use Rattle.jl_state.specs.Trees.{plain};
ghost use Rattle.jl_state.specs.Words.{context_of, table_of};
ghost use Rattle.jl_state.specs.declared.state.State.{State as Machine};
ghost use Rattle.jl_algorithm.specs.inner.Leaves.{this_in, value_at_once, value_of_name};

use crate::hooks::is_hooks;
use jl_ast::{Expr, ExprKind};
use jl_state::{Calls, Here, State};
use jl_text::{NoMemory, Text};
use jl_value::{ObjId, Value, share};
use std::alloc::Global;

/// The value of a literal, of `this` or of a name that is bound in an environment or by a data property. Whatever waits
/// for it takes a step (`State::take_step`) and goes on with it, and needs no frame. `None` where the expression is
/// another one, where its value takes a call or an exception, and where no step is left.
pub fn leaf_value(state: &State<'_>, e: &Expr, here: Here) -> Result<Option<Value>, NoMemory>
    ensures left { IfOk result (λ r. IfSome r (λ _. 0 < state.now.left)) }
    ensures supplies { IfOk result (λ r. IfSome r (λ v. (t : Machine) → Took state.now t
        → t ≡ record state.now { left = state.now.left - 1 } → Supplies state.now (evaluate (table_of
        state.now.functions) (plain (view_expression e.now)) (context_of state.now.calls here)) v t)) }
{
    if state.left == 0 {
        return Ok(None);
    }
    value_at_once(state, e, here)
}

/// The value of such an expression.
#[tactic(auto, using(jl_ast::proofs::Views::nodes))]
fn value_at_once(state: &State<'_>, e: &Expr, here: Here) -> Result<Option<Value>, NoMemory>
    ensures { IfOk result (λ r. IfSome r (λ v. value_at_once state.now.store (context_of state.now.calls here) (plain
        (view_expression e.now)) ≡ Some v)) }
{
    let alloc = state.alloc();
    match &e.kind {
        ExprKind::Name(name) => value_of_name(state, here.env, name),
        ExprKind::Num(number) => Ok(Some(Value::Num(*number))),
        ExprKind::Str(text) => Ok(Some(Value::Text(text.share(alloc)?))),
        ExprKind::Bool(truth) => Ok(Some(Value::Bool(*truth))),
        ExprKind::Null => Ok(Some(Value::Null)),
        ExprKind::This => Ok(Some(this_value(alloc, &state.calls)?)),
        _ => Ok(None),
    }
}

/// What `this` is (10.3, 11.1.1): in global code the global object.
fn this_value(alloc: Global, calls: &Calls) -> Result<Value, NoMemory>
    ensures { IfOk result (λ v. v ≡ this_in calls.now) }
{
    match calls.innermost() {
        Some(call) => share(alloc, &call.this),
        None => Ok(Value::Obj(ObjId::GLOBAL)),
    }
}

/// The value of a name that is bound in an environment, or by a data property of the global object.
fn value_of_name(state: &State<'_>, env: usize, name: &Text) -> Result<Option<Value>, NoMemory>
    ensures { IfOk result (λ r. r ≡ value_of_name state.now.store env name.now) }
{
    if is_hooks(name) {
        return Ok(None);
    }
    state.store.value_of_name(env, name)
}
