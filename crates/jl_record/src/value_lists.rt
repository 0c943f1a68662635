// Lists of values at the front of units, as a stored run writes them.
ghost use Rattle.std.specs.Prelude.{◌≡◌, true, length, IfOk, MatchOption};
ghost use Rattle.std.specs.List.{AllByRecursion};
ghost use Rattle.jl_record.specs.Facts.{IsSeen, seen_marks, some_values};
ghost use Rattle.jl_record.specs.Parts.{is_at_end};
ghost use Rattle.jl_record.specs.Reading.{IsFirst, NoneIsFirst, Takes, Fails};

use crate::cuts::after_space;
use crate::line_facts::number_front;
use crate::values::value_front;
use jl_text::List;
use jl_value::Seen;
use std::alloc::{AllocError, Global};

pub(crate) fn values_front(
    alloc: Global,
    units: &[u16],
) -> Result<Option<(List<Seen>, &[u16])>, AllocError>
    ensures { IfOk result (λ found. MatchOption found (Fails some_values units.now)
        (λ x. Takes some_values units.now x.0 x.1.now)) }
{
    let Some((count, rest)) = number_front(units) else {
        return Ok(None);
    };
    counted_values(alloc, count, rest)
}

/// A number of values, each after a space.
fn counted_values(
    alloc: Global,
    count: u64,
    units: &[u16],
) -> Result<Option<(List<Seen>, &[u16])>, AllocError>
    requires { is_at_end units.now ≡ true }
    ensures { IfOk result (λ found. MatchOption found
        (NoneIsFirst (λ seen. (length seen ≡ count) × AllByRecursion IsSeen seen) seen_marks units.now)
        (λ x. IsFirst (λ seen. (length seen ≡ count) × AllByRecursion IsSeen seen) seen_marks units.now x.0 x.1.now)) }
{
    let mut values = List::new(alloc);
    let mut rest = units;
    for i in 0..count {
        let Some(front) = after_space(rest) else {
            return Ok(None);
        };
        let Some((value, after)) = value_front(alloc, front)? else {
            return Ok(None);
        };
        values.push(value)?;
        rest = after;
    }
    Ok(Some((values, rest)))
}
