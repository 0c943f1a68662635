//! The order in which `sort` puts elements (15.4.4.11).
ghost use Rattle.std.specs.Prelude.{◌≡◌, ◌++◌, map, OnOk, IfOk};
ghost use Rattle.std.specs.Ordering.{is_lt};
ghost use Rattle.jl_meaning.specs.builtins.ArrayChanges.{comes_before, sort_by_keys, KeyedValue};

use jl_text::{List, NoMemory, Text};
use jl_value::{Value, share};
use std::alloc::Global;
use std::cmp::Ordering;

/// The order of two elements, each with the string that it is compared by: those without one, which are undefined, come
/// last.
fn order_of(a: &(Option<Text>, Value), b: &(Option<Text>, Value)) -> Ordering
    ensures { is_lt result ≡ comes_before a.now.0 b.now.0 }
{
    match &a.0 {
        None => match &b.0 {
            None => Ordering::Equal,
            Some(_) => Ordering::Greater,
        },
        Some(x) => match &b.0 {
            None => Ordering::Less,
            Some(y) => x.cmp(y),
        },
    }
}

/// The elements in order; those with equal strings stay in the order in which they stand.
pub(crate) fn in_order(
    alloc: Global,
    mut elements: List<(Option<Text>, Value)>,
) -> Result<List<(Option<Text>, Value)>, NoMemory>
    ensures { IfOk result (λ sorted. sorted ≡ sort_by_keys elements) }
{
    sort_elements(alloc, elements.items_mut())?;
    Ok(elements)
}

/// Elements are put in order.
fn sort_elements(alloc: Global, elements: &mut [(Option<Text>, Value)]) -> Result<(), NoMemory>
    ensures { OnOk result (elements.new ≡ sort_by_keys elements.old) }
{
    elements.sort_by(alloc, |a, b| order_of(a, b))?;
    Ok(())
}

/// The elements without their strings.
pub(crate) fn values_of(
    alloc: Global,
    elements: &[(Option<Text>, Value)],
) -> Result<List<Value>, NoMemory>
    ensures { IfOk result (λ values. values ≡ map (λ (x : KeyedValue). x.1) elements.now) }
{
    let mut values = List::new(alloc);
    for element in elements {
        values.push(share(alloc, &element.1)?)?;
    }
    Ok(values)
}
