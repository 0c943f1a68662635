//! Strings as numbers (9.3.1), in a time that grows with their length alone, whatever their exponent.
ghost use Rattle.std.specs.Prelude.{◌≡◌, ◌==◌, ◌||◌};
ghost use Rattle.std.specs.Result.{result_ok};
ghost use Rattle.jl_conv.specs.Numerals.{literal_number, text_number};

use crate::decimal::{decimal, hexadecimal};
use crate::spaces::{without_end, without_front};
use jl_num::{Num, NumberOutside};

const PLUS: u16 = 0x2b;

const MINUS: u16 = 0x2d;

const ZERO: u16 = 0x30;

/// The number that a text converts to (9.3.1): 0 where it is empty or has spaces only, and NaN where it is no numeral.
/// Refused exactly where it is a numeral whose value is infinite, has a fraction or is of more than 2^53 - 1 in size.
/// It looks at each unit a few times.
#[tactic(auto, unfolding(crate::specs::Numerals::text_number))]
pub fn text_to_num(units: &[u16]) -> Result<Num, NumberOutside>
    ensures { result_ok result ≡ text_number units.now }
{
    literal(without_end(without_front(units)))
}

fn literal(units: &[u16]) -> Result<Num, NumberOutside>
    ensures { result_ok result ≡ literal_number units.now }
{
    if units.len() == 0 {
        return Num::new(0);
    }
    let first = units[0];
    if first == PLUS {
        decimal(false, &units[1..])
    } else if first == MINUS {
        decimal(true, &units[1..])
    } else if first == ZERO && units.len() > 1 && is_hexadecimal_letter(units[1]) {
        hexadecimal(&units[2..])
    } else {
        decimal(false, units)
    }
}

fn is_hexadecimal_letter(unit: u16) -> bool
    ensures { result ≡ (unit == 120 || unit == 88) }
{
    unit == 0x78 || unit == 0x58
}
