//! What is called, and what operations tell of it (8.6.2, 11.2.2, 11.2.3).
ghost use Rattle.std.specs.Prelude.{◌≡◌, map, slice_get, IfOk, Some};
ghost use Rattle.jl_heap.specs.Describe.{seen_of};
ghost use Rattle.jl_meaning.specs.FunctionObjects.{callee_of, script_callee};
ghost use Rattle.jl_meaning.specs.forms.Calls.{can_be_called, no_function};
ghost use Rattle.jl_state.specs.Words.{function_of, table_of};
ghost use Rattle.jl_call.specs.inner.Invoked.{function_found};

use jl_heap::Inner;
use jl_op::Callee;
use jl_state::ScriptFunction;
use jl_store::{Store, has_call, has_construct};
use jl_text::{List, NoMemory};
use jl_value::{Builtin, ObjId, Seen, Value};
use std::alloc::Global;

/// Whether an object with this inner part can be called, or with `new` can construct.
fn can_be_called(by_new: bool, inner: &Inner) -> bool
    ensures { result ≡ can_be_called by_new inner.now }
{
    if by_new {
        has_construct(inner)
    } else {
        has_call(inner)
    }
}

/// The function that a callee is, if it is one (11.2.2, steps 4 and 5; 11.2.3, steps 4 and 5).
pub(crate) fn function_of(store: &Store, callee: &Value, by_new: bool) -> Option<ObjId>
    ensures { result ≡ function_found by_new store.now.heap callee.now }
{
    match callee {
        Value::Obj(id) => {
            if can_be_called(by_new, store.inner_of(*id)) {
                Some(*id)
            } else {
                None
            }
        }
        _ => None,
    }
}

/// The message of the error where it is none.
pub(crate) fn no_function(by_new: bool) -> &'static str
    ensures { result.now ≡ no_function by_new }
{
    if by_new {
        "not a constructor"
    } else {
        "not a function"
    }
}

/// What operations tell of a function with this inner part.
#[tactic(auto, unfolding(jl_meaning::specs::FunctionObjects::callee_of))]
pub(crate) fn target_of(
    functions: &List<ScriptFunction<'_>>,
    inner: &Inner,
) -> Result<Callee, NoMemory>
    ensures { IfOk result (λ target. target ≡ callee_of (table_of functions.now) inner.now) }
{
    match inner {
        Inner::Script { function, .. } => script_target(functions, *function),
        Inner::Native(builtin) => Ok(Callee::Native(*builtin)),
        _ => Ok(Callee::Native(Builtin::BOUND)),
    }
}

/// What they tell of the function of the script with this number.
fn script_target(functions: &List<ScriptFunction<'_>>, function: u32) -> Result<Callee, NoMemory>
    ensures { IfOk result (λ target. target ≡ script_callee function (slice_get (table_of functions.now) function)) }
{
    match functions.items().get(function as usize) {
        Some(called) => describe_script(function, called),
        None => Ok(Callee::Script {
            function,
            params: 0,
            mentions: false,
        }),
    }
}

/// The number of parameters of a function, and whether its body mentions `arguments`. No memory holds more parameters
/// than a number here counts.
fn describe_script(function: u32, called: &ScriptFunction<'_>) -> Result<Callee, NoMemory>
    ensures { IfOk result (λ target. target ≡ script_callee function (Some (function_of called.now))) }
{
    match u32::try_from(called.function.params.len()) {
        Ok(params) => Ok(Callee::Script {
            function,
            params,
            mentions: called.declared.mentions_arguments,
        }),
        Err(_) => Err(NoMemory),
    }
}

/// Values with the classes that they have now.
pub(crate) fn seen_values(
    alloc: Global,
    store: &Store,
    values: &List<Value>,
) -> Result<List<Seen>, NoMemory>
    ensures { IfOk result (λ seen. seen ≡ map (seen_of store.now.heap) values.now) }
{
    let mut seen = List::new(alloc);
    let items = values.items();
    for value in items {
        seen.push(store.seen(value)?)?;
    }
    Ok(seen)
}
