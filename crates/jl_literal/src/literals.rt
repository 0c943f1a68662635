//! Literals of primitive values and of functions, and what literals have made (7.8, clause 13).
ghost use Rattle.std.specs.Prelude.{◌≡◌, ◌≤◌, IfOk};
ghost use Rattle.jl_ast.specs.View.{view_function};
ghost use Rattle.jl_value.specs.declared.value.Value.TheVariants as value;
ghost use Rattle.jl_meaning.specs.FunctionObjects.{make_function_expression};
ghost use Rattle.jl_meaning.specs.Noting.{performs};
ghost use Rattle.jl_meaning.specs.Parts.{lift, ◌>>=◌ as ◌then◌};
ghost use Rattle.jl_meaning.specs.forms.Literals.{literal, literal_of, of_array, of_function, of_object};
ghost use Rattle.jl_state.specs.Clauses.{Evaluates};
ghost use Rattle.jl_state.specs.Rank.{rank_act};
ghost use Rattle.jl_state.specs.Rest.{RefinesExpression};
ghost use Rattle.jl_state.specs.Trees.{plain};
ghost use Rattle.jl_state.specs.declared.state.State.{State as Machine};

use jl_ast::Function;
use jl_num::Num;
use jl_state::{Act, Here, State};
use jl_store::{Store, script_number};
use jl_text::{NoMemory, Text};
use jl_value::{Class, Fault, ObjId, Value};
use std::alloc::Global;

/// A literal of a number (7.8.3).
#[tactic(auto, using(crate::proofs::Made::primitives))]
pub fn give_number<'p>(number: Num) -> Act<'p>
    ensures refines { (s : Machine) → RefinesExpression s (literal performs 0 (value.Num number)) s result }
{
    Act::Give(Value::Num(number))
}

/// A literal of a string (7.8.4).
#[tactic(auto, using(crate::proofs::Made::primitives))]
pub fn give_text<'p>(alloc: Global, text: &Text) -> Result<Act<'p>, NoMemory>
    ensures refines { IfOk result (λ act. (s : Machine) → RefinesExpression s (literal performs 0 (value.Text text.now)) s act) }
{
    Ok(Act::Give(Value::Text(text.share(alloc)?)))
}

/// `true` or `false` (7.8.2).
#[tactic(auto, using(crate::proofs::Made::primitives))]
pub fn give_boolean<'p>(truth: bool) -> Act<'p>
    ensures refines { (s : Machine) → RefinesExpression s (literal performs 0 (value.Bool truth)) s result }
{
    Act::Give(Value::Bool(truth))
}

/// `null` (7.8.1).
#[tactic(auto, using(crate::proofs::Made::primitives))]
pub fn give_null<'p>() -> Act<'p>
    ensures refines { (s : Machine) → RefinesExpression s (literal performs 0 value.Null) s result }
{
    Act::Give(Value::Null)
}

/// A function expression (clause 13).
pub fn begin_function<'p>(
    state: &mut State<'p>,
    function: &'p Function,
    here: Here,
) -> Result<Act<'p>, NoMemory>
    ensures refines { Evaluates state.old (lift (make_function_expression here.strict here.env (plain (view_function
        function.now))) then λ object. literal_of of_function 0 (value.Obj object)) result state.new }
    ensures left { IfOk result (λ _. state.new.left ≤ state.old.left) }
{
    let object = state
        .store
        .make_function_expression(here.strict, here.env, function)?;
    Ok(give_function(&state.store, object))
}

/// What an array literal has made is given. It is an array.
#[tactic(auto, using(crate::proofs::Made::arrays))]
pub(crate) fn give_array<'p>(store: &Store, object: ObjId) -> Act<'p>
    ensures refines { (s : Machine) → s.store ≡ store.now → RefinesExpression s (literal_of of_array 0 (value.Obj object)) s result }
    ensures low { rank_act result ≤ 2 }
{
    match store.class_of(object) {
        Class::Array => Act::Give(Value::Obj(object)),
        _ => Act::Fault(Fault::Misuse),
    }
}

/// What an object literal has made is given. It is neither an array nor a function.
#[tactic(auto, using(crate::proofs::Made::objects))]
pub(crate) fn give_object<'p>(store: &Store, object: ObjId) -> Act<'p>
    ensures refines { (s : Machine) → s.store ≡ store.now → RefinesExpression s (literal_of of_object 0 (value.Obj object)) s result }
    ensures low { rank_act result ≤ 2 }
{
    match store.class_of(object) {
        Class::Array => Act::Fault(Fault::Misuse),
        Class::Function => Act::Fault(Fault::Misuse),
        _ => Act::Give(Value::Obj(object)),
    }
}

/// What a function expression has made is given. It is a function of the script.
#[tactic(auto, using(crate::proofs::Made::functions))]
fn give_function<'p>(store: &Store, object: ObjId) -> Act<'p>
    ensures refines { (s : Machine) → s.store ≡ store.now
        → RefinesExpression s (literal_of of_function 0 (value.Obj object)) s result }
{
    match store.class_of(object) {
        Class::Function => match script_number(store.inner_of(object)) {
            Some(_) => Act::Give(Value::Obj(object)),
            None => Act::Fault(Fault::Misuse),
        },
        _ => Act::Fault(Fault::Misuse),
    }
}
