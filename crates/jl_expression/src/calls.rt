//! Calls (11.2.2, 11.2.3), and calls of hooks.
ghost use Rattle.std.specs.Prelude.{◌≡◌, ◌≤◌, length, true, IfOk};
ghost use Rattle.std.specs.Option.{option_map};
ghost use Rattle.jl_ast.specs.Tree as tree;
ghost use Rattle.jl_ast.specs.View.{view_expression, view_expressions};
ghost use Rattle.jl_value.specs.declared.value.Value.TheVariants as value;
ghost use Rattle.jl_meaning.specs.Expressions.{evaluate};
ghost use Rattle.jl_meaning.specs.Noting.{performs};
ghost use Rattle.jl_meaning.specs.Parts.{◌>>=◌ as ◌then◌};
ghost use Rattle.jl_meaning.specs.forms.Calls.{call_member, call_value, invoke};
ghost use Rattle.jl_meaning.specs.forms.HookCalls.{form_of};
ghost use Rattle.jl_meaning.specs.forms.Hooks.{call_by_form, call_hook, call_of_call, call_opener, call_pair};
ghost use Rattle.jl_state.specs.Trees.{plain, plain_forest};
ghost use Rattle.jl_state.specs.Words.{context_of, table_of};
ghost use Rattle.jl_expression.specs.inner.Begun.{arguments, call_expression, pair_begun};
ghost use Rattle.jl_hook.specs.HookForms.{form_seen, hook_call_seen, opener_call_seen, opener_shape};
ghost use Rattle.jl_state.specs.Clauses.{Evaluates};

use crate::boxes::evaluate_boxed;
use crate::operands::{begin_callee, begin_method};
use jl_ast::{Expr, ExprKind};
use jl_call::start_arguments;
use jl_hook::{
    CalleeForm, HookCall, OpenerCall, OpenerShape, form_of, form_of_member, hook_call, opener_call,
    takes_arguments,
};
use jl_state::{Act, ArgumentUse, Here, State, ValueFrame};
use jl_text::{List, NoMemory, Text};
use jl_value::Fault;

/// A call (11.2.3), by what stands as its callee. One that looks like a call of a hook is one.
pub(crate) fn begin_call<'p>(
    state: &mut State<'p>,
    callee: &'p Expr,
    args: &'p List<Expr>,
    here: Here,
) -> Result<Act<'p>, NoMemory>
    ensures refines { Evaluates state.old (call_expression (table_of state.old.functions) (plain (view_expression
        callee.now)) (plain_forest (view_expressions args.now)) (context_of state.old.calls here)) result state.new }
    ensures left { IfOk result (λ _. state.new.left ≤ state.old.left) }
{
    match &callee.kind {
        ExprKind::Dot(object, key) => call_member(state, object, key, args, here),
        ExprKind::Index(object, key) => {
            let frame = ValueFrame::CalleeIndexBase { key, args, here };
            evaluate_boxed(state, frame, object, here)
        }
        ExprKind::Call(inner, first) => { call_of_call(state, callee, inner, first, args, here) }
        _ => call_value(state, callee, args, here),
    }
}

/// A construction (11.2.2).
pub(crate) fn begin_new<'p>(
    state: &mut State<'p>,
    constructor: &'p Box<Expr>,
    args: &'p List<Expr>,
    here: Here,
) -> Result<Act<'p>, NoMemory>
    ensures refines { Evaluates state.old (evaluate (table_of state.old.functions) (plain (view_expression
        constructor.now.value)) (context_of state.old.calls here) then λ f. arguments (table_of state.old.functions)
        (plain_forest (view_expressions args.now)) (context_of state.old.calls here) 0 then λ vs. invoke (table_of
        state.old.functions) performs 0 f value.Undefined vs true) result state.new }
    ensures left { IfOk result (λ _. state.new.left ≤ state.old.left) }
{
    begin_callee(state, constructor, true, args, here)
}

/// A call of what is no member: it is evaluated first.
fn call_value<'p>(
    state: &mut State<'p>,
    callee: &'p Expr,
    args: &'p List<Expr>,
    here: Here,
) -> Result<Act<'p>, NoMemory>
    ensures refines { Evaluates state.old (call_value (table_of state.old.functions) 0 (evaluate (table_of
        state.old.functions) (plain (view_expression callee.now)) (context_of state.old.calls here)) (arguments
        (table_of state.old.functions) (plain_forest (view_expressions args.now)) (context_of state.old.calls here)
        0)) result state.new }
    ensures left { IfOk result (λ _. state.new.left ≤ state.old.left) }
{
    begin_callee(state, callee, false, args, here)
}

/// A call of `o.k`, by what that member is.
fn call_member<'p>(
    state: &mut State<'p>,
    object: &'p Box<Expr>,
    key: &'p Text,
    args: &'p List<Expr>,
    here: Here,
) -> Result<Act<'p>, NoMemory>
    ensures refines { Evaluates state.old (call_expression (table_of state.old.functions) (tree.dot (plain
        (view_expression object.now.value)) key.now 0) (plain_forest (view_expressions args.now)) (context_of
        state.old.calls here)) result state.new }
    ensures left { IfOk result (λ _. state.new.left ≤ state.old.left) }
{
    let form = form_of_member(object, key);
    call_by_form(state, form, object, key, args, here)
}

/// The same of a member that is a hook, begins a pair of calls, or is neither.
fn call_by_form<'p>(
    state: &mut State<'p>,
    form: CalleeForm,
    object: &'p Box<Expr>,
    key: &'p Text,
    args: &'p List<Expr>,
    here: Here,
) -> Result<Act<'p>, NoMemory>
    ensures refines { Evaluates state.old (call_by_form (form_seen form) (plain_forest (view_expressions args.now))
        (context_of state.old.calls here) (arguments (table_of state.old.functions) (plain_forest (view_expressions
        args.now)) (context_of state.old.calls here)) (evaluate (table_of state.old.functions) (plain
        (view_expression object.now.value)) (context_of state.old.calls here) then λ base. call_member (table_of
        state.old.functions) 0 0 base (value.Text key.now) (arguments (table_of state.old.functions) (plain_forest
        (view_expressions args.now)) (context_of state.old.calls here) 0))) result state.new }
    ensures left { IfOk result (λ _. state.new.left ≤ state.old.left) }
{
    let alloc = state.alloc();
    match form {
        CalleeForm::Hook(shape) => {
            let call = hook_call(alloc, shape, args)?;
            call_hook(state, call, args, here)
        }
        CalleeForm::Opener(_) => Ok(Act::Fault(Fault::Misuse)),
        CalleeForm::NoHook => begin_method(state, object, key, args, here),
    }
}

/// A call of a hook: its arguments are evaluated but for the literals that stand first.
fn call_hook<'p>(
    state: &mut State<'p>,
    call: Option<HookCall>,
    args: &'p List<Expr>,
    here: Here,
) -> Result<Act<'p>, NoMemory>
    ensures refines { Evaluates state.old (call_hook (context_of state.old.calls here) (option_map hook_call_seen
        call) (arguments (table_of state.old.functions) (plain_forest (view_expressions args.now)) (context_of
        state.old.calls here))) result state.new }
    ensures left { IfOk result (λ _. state.new.left ≤ state.old.left) }
{
    match call {
        None => Ok(Act::Fault(Fault::Misuse)),
        Some(HookCall { id, hook, literals }) => {
            let purpose = ArgumentUse::Hook { id, hook };
            start_arguments(state, purpose, args, literals, here)
        }
    }
}

/// A call of the call of `inner` with the arguments `first`: the second of a pair of calls of a hook, if that call
/// begins one.
fn call_of_call<'p>(
    state: &mut State<'p>,
    callee: &'p Expr,
    inner: &'p Box<Expr>,
    first: &'p List<Expr>,
    args: &'p List<Expr>,
    here: Here,
) -> Result<Act<'p>, NoMemory>
    ensures refines { Evaluates state.old (call_of_call (table_of state.old.functions) (context_of state.old.calls
        here) (form_of (plain (view_expression inner.now.value))) (plain_forest (view_expressions first.now))
        (arguments (table_of state.old.functions) (plain_forest (view_expressions first.now)) (context_of
        state.old.calls here)) (length args.now) (arguments (table_of state.old.functions) (plain_forest
        (view_expressions args.now)) (context_of state.old.calls here) 0) (call_value (table_of state.old.functions)
        0 (evaluate (table_of state.old.functions) (plain (view_expression callee.now)) (context_of state.old.calls
        here)) (arguments (table_of state.old.functions) (plain_forest (view_expressions args.now)) (context_of
        state.old.calls here) 0))) result state.new }
    ensures left { IfOk result (λ _. state.new.left ≤ state.old.left) }
{
    match form_of(inner) {
        CalleeForm::Opener(shape) => call_opener(state, shape, first, args, here),
        CalleeForm::Hook(_) => call_value(state, callee, args, here),
        CalleeForm::NoHook => call_value(state, callee, args, here),
    }
}

/// A pair of calls that looks so, where the second may have as many arguments.
fn call_opener<'p>(
    state: &mut State<'p>,
    shape: OpenerShape,
    first: &'p List<Expr>,
    second: &'p List<Expr>,
    here: Here,
) -> Result<Act<'p>, NoMemory>
    ensures refines { Evaluates state.old (call_opener (table_of state.old.functions) (context_of state.old.calls
        here) (opener_shape shape) (plain_forest (view_expressions first.now)) (arguments (table_of
        state.old.functions) (plain_forest (view_expressions first.now)) (context_of state.old.calls here)) (length
        second.now) (arguments (table_of state.old.functions) (plain_forest (view_expressions second.now))
        (context_of state.old.calls here) 0)) result state.new }
    ensures left { IfOk result (λ _. state.new.left ≤ state.old.left) }
{
    if !takes_arguments(shape, second.len()) {
        return Ok(Act::Fault(Fault::Misuse));
    }
    let call = opener_call(shape, first);
    call_pair(state, call, first, second, here)
}

/// A pair of calls takes a step, and begins.
fn call_pair<'p>(
    state: &mut State<'p>,
    call: Option<OpenerCall>,
    first: &'p List<Expr>,
    second: &'p List<Expr>,
    here: Here,
) -> Result<Act<'p>, NoMemory>
    ensures refines { Evaluates state.old (call_pair (table_of state.old.functions) (context_of state.old.calls here)
        (option_map opener_call_seen call) (arguments (table_of state.old.functions) (plain_forest (view_expressions
        first.now)) (context_of state.old.calls here)) (arguments (table_of state.old.functions) (plain_forest
        (view_expressions second.now)) (context_of state.old.calls here) 0)) result state.new }
    ensures left { IfOk result (λ _. state.new.left ≤ state.old.left) }
{
    if !state.spend() {
        return Ok(Act::Spent);
    }
    begin_pair(state, call, first, second, here)
}

/// The arguments of the first call of a pair are evaluated but for the literals that stand first.
fn begin_pair<'p>(
    state: &mut State<'p>,
    call: Option<OpenerCall>,
    first: &'p List<Expr>,
    second: &'p List<Expr>,
    here: Here,
) -> Result<Act<'p>, NoMemory>
    ensures refines { Evaluates state.old (pair_begun (table_of state.old.functions) (context_of state.old.calls here)
        (option_map opener_call_seen call) (arguments (table_of state.old.functions) (plain_forest (view_expressions
        first.now)) (context_of state.old.calls here)) (arguments (table_of state.old.functions) (plain_forest
        (view_expressions second.now)) (context_of state.old.calls here) 0)) result state.new }
    ensures left { IfOk result (λ _. state.new.left ≤ state.old.left) }
{
    match call {
        None => Ok(Act::Fault(Fault::Misuse)),
        Some(
            OpenerCall {
                id,
                opener,
                literals,
            },
        ) => {
            let purpose = ArgumentUse::Opener { id, opener, second };
            start_arguments(state, purpose, first, literals, here)
        }
    }
}
