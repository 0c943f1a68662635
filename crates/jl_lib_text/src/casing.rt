//! `toLowerCase` and `toUpperCase` (15.5.4.16, 15.5.4.18).
ghost use Rattle.std.specs.List.{list_any};
ghost use Rattle.std.specs.Prelude.{◌≡◌, ◌≤◌, map, IfOk};
ghost use Rattle.jl_lib_text.specs.inner.Letters.{letter_in, method_of_case, string_in_case};
ghost use Rattle.jl_meaning.specs.builtins.String.{is_past_ascii};
ghost use Rattle.jl_state.specs.Rank.{rank_act};
ghost use Rattle.jl_state.specs.Rest.{RefinesAlgorithm};
ghost use Rattle.jl_state.specs.declared.state.State.{State as Machine};

use crate::texts::text_of_units;
use jl_builtin::unsupported;
use jl_state::Act;
use jl_text::{List, NoMemory, Text};
use jl_value::{Builtin, StringMethod, Value};
use std::alloc::Global;

/// The case that a string is given in (15.5.4.16, 15.5.4.18).
#[derive(Clone, Copy)]
pub(crate) enum LetterCase {
    Lower,
    Upper,
}

const LAST_OF_ASCII: u16 = 127;

/// A letter of ASCII in a case, and any other unit as it is.
fn letter_in(case: LetterCase, unit: u16) -> u16
    ensures { result ≡ letter_in case unit }
{
    match case {
        LetterCase::Lower if 65 <= unit && unit <= 90 => unit + 32,
        LetterCase::Upper if 97 <= unit && unit <= 122 => unit - 32,
        _ => unit,
    }
}

/// Units in a case.
fn letters_in(alloc: Global, case: LetterCase, units: &[u16]) -> Result<List<u16>, NoMemory>
    ensures { IfOk result (λ list. list ≡ map (letter_in case) units.now) }
{
    let mut list = List::new(alloc);
    for unit in units {
        list.push(letter_in(case, *unit))?;
    }
    Ok(list)
}

/// Whether a unit is past ASCII.
fn leaves_ascii(units: &[u16]) -> bool
    ensures { result ≡ list_any is_past_ascii units.now }
{
    units.iter().any(|unit| *unit > LAST_OF_ASCII)
}

/// The method that gives this case.
fn method_of_case(case: LetterCase) -> StringMethod
    ensures { result ≡ method_of_case case }
{
    match case {
        LetterCase::Lower => StringMethod::ToLowerCase,
        LetterCase::Upper => StringMethod::ToUpperCase,
    }
}

/// A string is given in a case, where all units are in ASCII.
pub(crate) fn give_in_case<'p>(
    alloc: Global,
    case: LetterCase,
    units: &Text,
) -> Result<Act<'p>, NoMemory>
    ensures refines { IfOk result (λ act. (s : Machine) → RefinesAlgorithm s (string_in_case case units.now) s act) }
    ensures low { IfOk result (λ act. rank_act act ≤ 2) }
{
    if leaves_ascii(units.units()) {
        return Ok(unsupported(Builtin::StringMethod(method_of_case(case))));
    }
    let letters = letters_in(alloc, case, units.units())?;
    Ok(Act::Give(Value::Text(text_of_units(alloc, letters.items())?)))
}
