//! The names of the own properties of objects; `Object.getOwnPropertyNames`, `Object.keys` (15.2.3.4, 15.2.3.14).
ghost use Rattle.std.specs.List.{range_with_len};
ghost use Rattle.std.specs.Prelude.{◌≡◌, ◌++◌, ◌∷◌, [], drop, filter, map, IfOk, MatchOption};
ghost use Rattle.jl_lib_object.specs.inner.Names.{name_of_entry, text_value};
ghost use Rattle.jl_meaning.specs.builtins.Descriptors.{enumerable_names, has_enumerable, own_names};
ghost use Rattle.jl_meaning.specs.builtins.Object.{array_of_names, object_get_own_property_names, object_keys};
ghost use Rattle.jl_meaning.specs.forms.Literals.{index_name};
ghost use Rattle.jl_state.specs.Clauses.{Computes, RankAtMost};
ghost use Rattle.jl_state.specs.Words.{call_of};

use crate::waiting::first_object;
use jl_builtin::fill_array;
use jl_state::{Act, Invocation, State};
use jl_store::{Answer, Store, index_name};
use jl_text::{List, NoMemory, Text};
use jl_value::{Completion, ObjId, Value};
use std::alloc::Global;

/// The names of so many units.
fn unit_names(alloc: Global, count: usize) -> Result<List<Text>, NoMemory>
    ensures { IfOk result (λ names. names ≡ map index_name (range_with_len 0 count)) }
{
    let mut names = List::new(alloc);
    for index in 0..count {
        let name = index_name(alloc, index)?;
        names.push(name)?;
    }
    Ok(names)
}

/// The names of properties after those of a list.
fn with_stored(
    alloc: Global,
    mut names: List<Text>,
    stored: &[(Text, u64)],
) -> Result<List<Text>, NoMemory>
    ensures { IfOk result (λ longer. longer ≡ names ++ map name_of_entry stored.now) }
{
    for entry in stored {
        let name = entry.0.share(alloc)?;
        names.push(name)?;
    }
    Ok(names)
}

/// The names of an object's own properties: the units of a String object, and then the stored ones by creation.
pub(crate) fn own_names(alloc: Global, store: &Store, id: ObjId) -> Result<List<Text>, NoMemory>
    ensures { IfOk result (λ names. names ≡ own_names store.now id.0) }
{
    let stored = store.heap().names(id)?;
    let units = unit_names(alloc, store.unit_count(id))?;
    let all = with_stored(alloc, units, stored.items())?;
    Ok(all)
}

/// Whether an object has an own property of a name that is enumerable.
pub(crate) fn has_enumerable(store: &Store, id: ObjId, name: &Text) -> bool
    ensures { result ≡ has_enumerable store.now id.0 name.now }
{
    match store.get_own_property(id, name) {
        Some(found) => found.is_enumerable(),
        None => false,
    }
}

/// Those of the names whose own properties are enumerable.
fn enumerable_among(
    alloc: Global,
    store: &Store,
    id: ObjId,
    all: &[Text],
) -> Result<List<Text>, NoMemory>
    ensures { IfOk result (λ names. names ≡ filter (has_enumerable store.now id.0) all.now) }
{
    let mut names = List::new(alloc);
    for name in all {
        if !has_enumerable(store, id, name) {
            continue;
        }
        let copy = name.share(alloc)?;
        names.push(copy)?;
    }
    Ok(names)
}

/// The names of an object's own properties that are enumerable.
pub(crate) fn enumerable_names(
    alloc: Global,
    store: &Store,
    id: ObjId,
) -> Result<List<Text>, NoMemory>
    ensures { IfOk result (λ names. names ≡ enumerable_names store.now id.0) }
{
    let all = own_names(alloc, store, id)?;
    let names = enumerable_among(alloc, store, id, all.items())?;
    Ok(names)
}

/// The name at an index and the next index, if there is one.
pub(crate) fn name_from(
    alloc: Global,
    names: &[Text],
    at: usize,
) -> Result<Option<(Text, usize)>, NoMemory>
    ensures { IfOk result (λ found. MatchOption found (drop at names.now ≡ [])
        (λ r. drop at names.now ≡ r.0 ∷ drop r.1 names.now)) }
{
    match names.get(at) {
        None => Ok(None),
        Some(name) => Ok(Some((name.share(alloc)?, at + 1))),
    }
}

/// Names as values.
fn text_values(alloc: Global, names: &[Text]) -> Result<List<Value>, NoMemory>
    ensures { IfOk result (λ values. values ≡ map text_value names.now) }
{
    let mut values = List::new(alloc);
    for name in names {
        let copy = name.share(alloc)?;
        values.push(Value::Text(copy))?;
    }
    Ok(values)
}

/// An array of names, which is filled one a turn.
fn array_of_names<'p>(state: &mut State<'p>, names: &[Text]) -> Result<Act<'p>, NoMemory>
    ensures refines { Computes state.old (array_of_names names.now) result state.new }
    ensures bounded { RankAtMost state.old 6 result state.new }
{
    let alloc = state.alloc();
    let values = text_values(alloc, names)?;
    let array = state.store.new_array()?;
    fill_array(state, array, values, 0)
}

/// An array of the names of all own properties of an object.
fn list_names<'p>(state: &mut State<'p>, id: ObjId) -> Result<Act<'p>, NoMemory>
    ensures refines { Computes state.old (array_of_names (own_names state.old.store id.0)) result state.new }
    ensures bounded { RankAtMost state.old 6 result state.new }
{
    let alloc = state.alloc();
    let names = own_names(alloc, &state.store, id)?;
    array_of_names(state, names.items())
}

/// An array of the names of those that are enumerable.
fn list_keys<'p>(state: &mut State<'p>, id: ObjId) -> Result<Act<'p>, NoMemory>
    ensures refines { Computes state.old (array_of_names (enumerable_names state.old.store id.0)) result state.new }
    ensures bounded { RankAtMost state.old 6 result state.new }
{
    let alloc = state.alloc();
    let names = enumerable_names(alloc, &state.store, id)?;
    array_of_names(state, names.items())
}

/// `Object.getOwnPropertyNames(O)` (15.2.3.4).
pub(crate) fn object_get_own_property_names<'p>(
    state: &mut State<'p>,
    call: &Invocation,
) -> Result<Act<'p>, NoMemory>
    ensures refines { Computes state.old (object_get_own_property_names (call_of call.now)) result state.new }
    ensures bounded { RankAtMost state.old 6 result state.new }
{
    let alloc = state.alloc();
    match first_object(alloc, &mut state.store, call)? {
        Answer::Throws(thrown) => Ok(Act::Complete(Completion::Throw(thrown))),
        Answer::Gives(id) => list_names(state, id),
    }
}

/// `Object.keys(O)` (15.2.3.14).
pub(crate) fn object_keys<'p>(state: &mut State<'p>, call: &Invocation) -> Result<Act<'p>, NoMemory>
    ensures refines { Computes state.old (object_keys (call_of call.now)) result state.new }
    ensures bounded { RankAtMost state.old 6 result state.new }
{
    let alloc = state.alloc();
    match first_object(alloc, &mut state.store, call)? {
        Answer::Throws(thrown) => Ok(Act::Complete(Completion::Throw(thrown))),
        Answer::Gives(id) => list_keys(state, id),
    }
}
