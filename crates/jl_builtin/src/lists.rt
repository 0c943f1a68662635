//! Lists of values and of units.
ghost use Rattle.std.specs.Prelude.{◌≡◌, ◌+◌, ◌++◌, ◌∷◌, [], drop, IfOk, IfSome, MatchOption};

use jl_text::{List, NoMemory};
use jl_value::{Value, share};
use std::alloc::Global;

/// The same values, after those of a list.
pub fn with_values(
    alloc: Global,
    mut list: List<Value>,
    values: &[Value],
) -> Result<List<Value>, NoMemory>
    ensures { IfOk result (λ longer. longer ≡ list ++ values.now) }
{
    for v in values {
        list.push(share(alloc, v)?)?;
    }
    Ok(list)
}

/// The same values.
pub fn copy_of(alloc: Global, values: &[Value]) -> Result<List<Value>, NoMemory>
    ensures { IfOk result (λ copy. copy ≡ values.now) }
{
    with_values(alloc, List::new(alloc), values)
}

/// The values from an index on.
pub fn continuation_of(
    alloc: Global,
    values: &[Value],
    from: usize,
) -> Result<List<Value>, NoMemory>
    ensures { IfOk result (λ rest. rest ≡ drop from values.now) }
{
    match values.get(from..) {
        Some(rest) => copy_of(alloc, rest),
        None => Ok(List::new(alloc)),
    }
}

/// The value at an index and the next index, if there is one.
pub fn value_from(
    alloc: Global,
    values: &[Value],
    at: usize,
) -> Result<Option<(Value, usize)>, NoMemory>
    ensures found { IfOk result (λ found. MatchOption found (drop at values.now ≡ [])
        (λ r. drop at values.now ≡ r.0 ∷ drop r.1 values.now)) }
    ensures next { IfOk result (λ found. IfSome found (λ r. r.1 ≡ at + 1)) }
{
    match values.get(at) {
        None => Ok(None),
        Some(value) => Ok(Some((share(alloc, value)?, at + 1))),
    }
}

/// Units after those of a list.
pub fn with_units(mut list: List<u16>, units: &[u16]) -> Result<List<u16>, NoMemory>
    ensures { IfOk result (λ longer. longer ≡ list ++ units.now) }
{
    for unit in units {
        list.push(*unit)?;
    }
    Ok(list)
}
