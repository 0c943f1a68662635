// Facts of operations as they are written.
ghost use Rattle.std.specs.Prelude.{◌≡◌, ◌<◌, ◌^◌, ◌++◌, OnOk, length};
ghost use Rattle.std.specs.Fmt.{decimal};
ghost use Rattle.std.specs.List.{AllByRecursion};
ghost use Rattle.jl_num.specs.Digits.{number_text};
ghost use Rattle.jl_num.specs.Number.{IsNumber};
ghost use Rattle.jl_text.specs.Quoted.{quote};
ghost use Rattle.jl_record.specs.Bounded.{Appends};
ghost use Rattle.jl_record.specs.Facts.{truth_mark, seen_mark, seen_marks, callee_mark, AreSeen, IsCallee, IsSeen};
ghost use Rattle.jl_record.specs.Storing.{HasItsClass};

use crate::bounded::Bounded;
use crate::named::Named;
use jl_num::Num;
use jl_op::Callee;
use jl_value::{Seen, Value};
use std::alloc::{AllocError, Global};

pub(crate) fn write_truth(text: &mut Bounded, truth: bool) -> Result<(), AllocError>
    ensures limit { text.new.limit ≡ text.old.limit }
    ensures holds { OnOk result (Appends text.old text.new (truth_mark truth)) }
{
    if truth {
        text.word("t")
    } else {
        text.word("f")
    }
}

/// A name between quotes.
pub(crate) fn write_name(alloc: Global, text: &mut Bounded, name: &str) -> Result<(), AllocError>
    ensures limit { text.new.limit ≡ text.old.limit }
    ensures holds { OnOk result (Appends text.old text.new (quote name.now)) }
{
    let name = jl_text::word(alloc, name)?;
    text.quoted(alloc, name.units())
}

#[tactic(auto, using(crate::proofs::Holding::appends_both))]
fn write_number(text: &mut Bounded, number: Num) -> Result<(), AllocError>
    ensures limit { text.new.limit ≡ text.old.limit }
    ensures holds { OnOk result (Appends text.old text.new (number_text number 10)) }
    ensures number { IsNumber number }
{
    let Some(whole) = number.value() else {
        return text.word("NaN");
    };
    if whole < 0 {
        text.word("-")?;
        return text.number(whole.unsigned_abs());
    }
    text.number(whole.unsigned_abs())
}

// A number that is passed is known to fit its type, where one within an enum is not.
fn write_place(text: &mut Bounded, place: usize) -> Result<(), AllocError>
    ensures limit { text.new.limit ≡ text.old.limit }
    ensures holds { OnOk result (Appends text.old text.new (decimal place)) }
    ensures fits { place < 2 ^ 64 }
{
    text.number(place as u64)
}

fn write_small(text: &mut Bounded, number: u32) -> Result<(), AllocError>
    ensures limit { text.new.limit ≡ text.old.limit }
    ensures holds { OnOk result (Appends text.old text.new (decimal number)) }
    ensures fits { number < 2 ^ 32 }
{
    text.number(u64::from(number))
}

#[tactic(auto, using(crate::proofs::Holding::appends_both))]
pub(crate) fn write_value(alloc: Global, text: &mut Bounded, seen: &Seen) -> Result<(), AllocError>
    ensures limit { text.new.limit ≡ text.old.limit }
    ensures holds { OnOk result (Appends text.old text.new (seen_mark seen.now)) }
    ensures fact { OnOk result (HasItsClass seen.now → IsSeen seen.now) }
{
    match &seen.value {
        Value::Undefined => text.word("u"),
        Value::Null => text.word("z"),
        Value::Bool(truth) => write_truth(text, *truth),
        Value::Num(number) => {
            text.word("n")?;
            write_number(text, *number)
        }
        Value::Text(units) => text.quoted(alloc, units.units()),
        Value::Obj(place) => {
            text.word("o")?;
            write_place(text, place.0)?;
            text.word(":")?;
            text.word(seen.class.spelling())
        }
    }
}

#[tactic(auto, using(crate::proofs::Holding::appends_both))]
pub(crate) fn write_callee(
    alloc: Global,
    text: &mut Bounded,
    callee: Callee,
) -> Result<(), AllocError>
    ensures limit { text.new.limit ≡ text.old.limit }
    ensures holds { OnOk result (Appends text.old text.new (callee_mark callee)) }
    ensures fact { OnOk result (IsCallee callee) }
{
    match callee {
        Callee::Script {
            function,
            params,
            mentions,
        } => {
            text.word("s ")?;
            write_small(text, function)?;
            text.word(" ")?;
            write_small(text, params)?;
            text.word(" ")?;
            write_truth(text, mentions)
        }
        Callee::Native(builtin) => {
            text.word("b ")?;
            write_name(alloc, text, builtin.name())
        }
    }
}

pub(crate) fn write_values(
    alloc: Global,
    text: &mut Bounded,
    values: &[Seen],
) -> Result<(), AllocError>
    ensures limit { text.new.limit ≡ text.old.limit }
    ensures holds { OnOk result (Appends text.old text.new (decimal (length values.now) ++ seen_marks values.now)) }
    ensures fact { OnOk result (AllByRecursion HasItsClass values.now → AreSeen values.now) }
{
    text.number(values.len() as u64)?;
    for value in values {
        text.word(" ")?;
        write_value(alloc, text, value)?;
    }
    Ok(())
}
