ghost use Rattle.std.specs.Prelude.{◌≡◌, ◌≤◌, IfOk, ℕ, ◌%◌, ◌<◌, ◌++◌};
ghost use Rattle.jl_num.specs.Digits.{digit_code, number_text};

use crate::num::Num;
use std::alloc::{AllocError, Global};

/// The text of a number in a radix of 2 to 36 (9.8.1, 15.7.4.2): `NaN`, or its digits in lower case, after a `-` where
/// it is below zero.
pub fn digits(alloc: Global, a: Num, radix: u32) -> Result<Vec<u8>, AllocError>
    requires low { 2 ≤ radix }
    requires high { radix ≤ 36 }
    ensures { IfOk result (λ text. text.items ≡ number_text a radix) }
{
    let Some(n) = a.value() else {
        return Vec::from_slice(alloc, b"NaN");
    };
    let negative = n < 0;
    let radix = u64::from(radix);
    let mut text = Vec::new(alloc);
    let mut rest = n.unsigned_abs();
    while rest >= radix {
        text.push(digit(rest % radix))?;
        rest /= radix;
    }
    text.push(digit(rest))?;
    if negative {
        text.push(b'-')?;
    }
    text.reverse();
    Ok(text)
}

// The character of a digit.
fn digit(d: u64) -> u8
    requires { d < 36 }
    ensures { result ≡ digit_code d }
{
    if d < 10 {
        b'0' + d as u8
    } else {
        b'a' + (d - 10) as u8
    }
}
