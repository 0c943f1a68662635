//! `Function.prototype.toString` (15.3.4.2).
ghost use Rattle.std.specs.Option.{option_map};
ghost use Rattle.std.specs.Prelude.{◌≡◌, ◌++◌, IfOk};
ghost use Rattle.jl_lib_object.specs.inner.Calls.{function_text, script_name};
ghost use Rattle.jl_meaning.specs.builtins.Function.{function_to_string, inner_of_function, name_inside, names_of};
ghost use Rattle.jl_state.specs.Clauses.{Computes, RankAtMost};
ghost use Rattle.jl_state.specs.Words.{call_of, table_of};

use jl_algorithm::throw_native;
use jl_builtin::{give_text, with_units};
use jl_heap::Inner;
use jl_state::{Act, Invocation, ScriptFunction, State};
use jl_store::last_part;
use jl_text::{List, NoMemory, Text, word};
use jl_value::{Builtin, Class, ErrorKind, Value};
use std::alloc::Global;

/// The name of a function of the script with this number, which is empty where it has none.
fn script_name<'p>(
    alloc: Global,
    functions: &[ScriptFunction<'p>],
    number: usize,
) -> Result<Text, NoMemory>
    ensures { IfOk result (λ name. name ≡ script_name (names_of (table_of functions.now)) number) }
{
    let Some(f) = functions.get(number) else {
        return word(alloc, "");
    };
    match &f.function.name {
        Some(ident) => ident.text.share(alloc),
        None => word(alloc, ""),
    }
}

/// The name of a function with this inner part: that of a builtin is the last part of its path.
fn name_inside<'p>(
    alloc: Global,
    functions: &[ScriptFunction<'p>],
    inner: &Inner,
) -> Result<Text, NoMemory>
    ensures { IfOk result (λ name. name ≡ name_inside (names_of (table_of functions.now)) inner.now) }
{
    match inner {
        Inner::Script { function, .. } => script_name(alloc, functions, *function as usize),
        Inner::Native(builtin) => word(alloc, last_part(builtin.name())),
        Inner::Bound { .. } => word(alloc, last_part(Builtin::BOUND.name())),
        _ => word(alloc, ""),
    }
}

/// The name of a value that is a function.
fn name_of_function<'p>(state: &State<'p>, v: &Value) -> Result<Option<Text>, NoMemory>
    ensures { IfOk result (λ name. name ≡ option_map (name_inside (names_of (table_of state.now.functions)))
        (inner_of_function state.now.store.heap v.now)) }
{
    let alloc = state.alloc();
    let Value::Obj(id) = v else {
        return Ok(None);
    };
    if state.store.class_of(*id) != Class::Function {
        return Ok(None);
    }
    let name = name_inside(alloc, state.functions.items(), state.store.inner_of(*id))?;
    Ok(Some(name))
}

/// A word of ASCII characters after the units of a list.
fn with_word(alloc: Global, list: List<u16>, characters: &str) -> Result<List<u16>, NoMemory>
    ensures { IfOk result (λ longer. longer ≡ list ++ characters.now) }
{
    let text = word(alloc, characters)?;
    with_units(list, text.units())
}

/// The text of a function of a name.
fn function_text(alloc: Global, name: &Text) -> Result<List<u16>, NoMemory>
    ensures { IfOk result (λ text. text ≡ function_text name.now) }
{
    let begun = with_word(alloc, List::new(alloc), "function ")?;
    let named = with_units(begun, name.units())?;
    with_word(alloc, named, "() { [code] }")
}

/// `Function.prototype.toString()` (15.3.4.2).
pub(crate) fn function_to_string<'p>(
    state: &mut State<'p>,
    call: &Invocation,
) -> Result<Act<'p>, NoMemory>
    ensures refines { Computes state.old (function_to_string (names_of (table_of state.old.functions)) (call_of
        call.now)) result state.new }
    ensures bounded { RankAtMost state.old 3 result state.new }
{
    let alloc = state.alloc();
    let Some(name) = name_of_function(state, &call.this)? else {
        return throw_native(state, ErrorKind::TypeError, "wrong receiver");
    };
    let text = function_text(alloc, &name)?;
    give_text(alloc, text.items())
}
