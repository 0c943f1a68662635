//! What a `for-in` visits (12.6.4).
ghost use Rattle.std.specs.List.{range_with_len};
ghost use Rattle.std.specs.Prelude.{◌≡◌, ◌++◌, [], drop, map, IfOk, OnOk};
ghost use Rattle.jl_meaning.specs.forms.Loops.{first_of_each_name, is_still_there, own_visits};
ghost use Rattle.jl_meaning.specs.forms.Loops.{visits_left, visits_of, visits_within};
ghost use Rattle.jl_state.specs.Turns.{visits_seen};
ghost use Rattle.jl_state.specs.Words.{visit_of};
ghost use Rattle.jl_statement.specs.inner.Visited.{all_seen, property_visit, unit_visit, IsNext};

use crate::stored::has_entry;
use jl_heap::Heap;
use jl_scope::NameSet;
use jl_state::{Visit, Visits};
use jl_store::{Store, index_name};
use jl_text::{List, NoMemory, Text};
use jl_value::ObjId;
use std::alloc::Global;

/// Adds the units of a String object.
fn add_units(
    alloc: Global,
    holder: usize,
    count: usize,
    visits: &mut List<Visit>,
) -> Result<(), NoMemory>
    ensures { OnOk result (all_seen visits.new
        ≡ all_seen visits.old ++ map (unit_visit holder) (range_with_len 0 count)) }
{
    for index in 0..count {
        let name = index_name(alloc, index)?;
        visits.push(Visit {
            holder,
            name,
            serial: None,
        })?;
    }
    Ok(())
}

/// Adds the properties of these names and serials.
fn add_properties(
    alloc: Global,
    holder: usize,
    names: &[(Text, u64)],
    visits: &mut List<Visit>,
) -> Result<(), NoMemory>
    ensures { OnOk result (all_seen visits.new ≡ all_seen visits.old ++ map (property_visit holder) names.now) }
{
    for named in names {
        let name = named.0.share(alloc)?;
        visits.push(Visit {
            holder,
            name,
            serial: Some(named.1),
        })?;
    }
    Ok(())
}

/// Adds what may be visited of the own properties of an object.
fn add_own(
    alloc: Global,
    store: &Store,
    id: ObjId,
    visits: &mut List<Visit>,
) -> Result<(), NoMemory>
    ensures { OnOk result (all_seen visits.new ≡ all_seen visits.old ++ own_visits store.now.heap id.0) }
{
    let names = store.heap().names(id)?;
    add_units(alloc, id.0, store.unit_count(id), visits)?;
    add_properties(alloc, id.0, names.items(), visits)?;
    Ok(())
}

/// What may be visited of an object and its prototypes, the nearest first. A name may be there more than once.
fn visits_along(alloc: Global, store: &Store, id: ObjId) -> Result<List<Visit>, NoMemory>
    ensures { IfOk result (λ visits. all_seen visits ≡ visits_within id.0 store.now.heap id.0) }
{
    let mut visits = List::new(alloc);
    let mut at = id;
    loop {
        let proto = store.proto_of(at);
        add_own(alloc, store, at, &mut visits)?;
        match proto {
            Some(next) => at = next,
            None => return Ok(visits),
        }
    }
}

/// The same visit once more.
fn copy_visit(alloc: Global, visit: &Visit) -> Result<Visit, NoMemory>
    ensures { IfOk result (λ copy. visit_of copy ≡ visit_of visit.now) }
{
    Ok(Visit {
        holder: visit.holder,
        name: visit.name.share(alloc)?,
        serial: visit.serial,
    })
}

/// Of each name the first. It takes the logarithm of their number for each.
fn first_of_each_name(alloc: Global, all: &[Visit]) -> Result<List<Visit>, NoMemory>
    ensures { IfOk result (λ first. all_seen first ≡ first_of_each_name [] (all_seen all.now)) }
{
    let mut before = NameSet::new(alloc);
    let mut first = List::new(alloc);
    for visit in all {
        if !before.insert(visit.name.units())? {
            continue;
        }
        first.push(copy_visit(alloc, visit)?)?;
    }
    Ok(first)
}

/// What a `for-in` over an object may visit.
pub(crate) fn visits_of(alloc: Global, store: &Store, id: ObjId) -> Result<List<Visit>, NoMemory>
    ensures { IfOk result (λ visits. all_seen visits ≡ visits_of store.now.heap id.0) }
{
    let all = visits_along(alloc, store, id)?;
    let first = first_of_each_name(alloc, all.items())?;
    Ok(first)
}

/// Whether a property is still there, and enumerable; a unit always is.
fn is_still_there(heap: &Heap, visit: &Visit) -> bool
    ensures { result ≡ is_still_there heap.now (visit_of visit.now) visit.now.serial }
{
    match visit.serial {
        None => true,
        Some(serial) => has_entry(heap, ObjId(visit.holder), &visit.name, serial),
    }
}

/// The index from which on there is something left to visit.
fn first_left(heap: &Heap, visits: &[Visit], from: usize) -> usize
    ensures { visits_left heap.now (all_seen (drop from visits.now)) ≡ all_seen (drop result visits.now) }
{
    let mut at = from;
    while let Some(visit) = visits.get(at) {
        if is_still_there(heap, visit) {
            return at;
        }
        at += 1;
    }
    at
}

/// The name of the next property that is still there, if there is one; the visits go on after it.
pub(crate) fn next_visit(
    alloc: Global,
    store: &Store,
    visits: &mut Visits,
) -> Result<Option<Text>, NoMemory>
    ensures { IfOk result (λ next. IsNext (visits_left store.now.heap (visits_seen visits.old)) next visits.new) }
{
    let at = first_left(store.heap(), visits.visits.items(), visits.from);
    let name = match visits.visits.items().get(at) {
        None => return Ok(None),
        Some(visit) => visit.name.share(alloc)?,
    };
    visits.from = at + 1;
    Ok(Some(name))
}
