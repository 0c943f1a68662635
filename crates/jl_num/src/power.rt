ghost use Rattle.std.specs.Prelude.{◌≡◌, ◌<◌, ◌≤◌, unsigned_abs};
ghost use Rattle.std.specs.Int.{int_pow};
ghost use Rattle.std.specs.Result.{result_ok};
ghost use Rattle.jl_num.specs.Arithmetic.{number_of};
ghost use Rattle.jl_num.specs.Power.{inverse_power_of, power_of};

use crate::num::{Num, NumberOutside};

/// The power (15.8.2.13): 1 where b is 0, else NaN where a number is NaN, and refused exactly where it is infinite, has
/// a fraction or is of more than 2^53 - 1 in size. An exponent above 63 takes no multiplication.
pub fn pow(a: Num, b: Num) -> Result<Num, NumberOutside>
    ensures { result_ok result ≡ power_of a b }
{
    let Some(exponent) = b.value() else {
        return Ok(Num::NAN);
    };
    if exponent == 0 {
        return Ok(Num::within(1));
    }
    let Some(base) = a.value() else {
        return Ok(Num::NAN);
    };
    let size = exponent.unsigned_abs();
    if exponent < 0 {
        inverse_power(base, size)
    } else {
        positive_power(base, size)
    }
}

// The power whose exponent is this much below 0.
fn inverse_power(base: i64, exponent: u64) -> Result<Num, NumberOutside>
    requires { 0 < exponent }
    ensures { result_ok result ≡ inverse_power_of base exponent }
{
    match base {
        1 | -1 => positive_power(base, exponent),
        _ => Err(NumberOutside),
    }
}

// The power whose exponent is this much above 0.
fn positive_power(base: i64, exponent: u64) -> Result<Num, NumberOutside>
    requires { 0 < exponent }
    ensures { result_ok result ≡ number_of (int_pow base exponent) }
{
    match base {
        0 => Ok(Num::within(0)),
        1 => Ok(Num::within(1)),
        -1 if exponent % 2 == 0 => Ok(Num::within(1)),
        -1 => Ok(Num::within(-1)),
        _ => large_power(base, exponent),
    }
}

// The power of a base of 2 or more in size, which leaves the `i64` after 63 factors.
fn large_power(base: i64, exponent: u64) -> Result<Num, NumberOutside>
    requires { 2 ≤ unsigned_abs base }
    ensures { result_ok result ≡ number_of (int_pow base exponent) }
{
    if exponent > 63 {
        return Err(NumberOutside);
    }
    match base.checked_pow(exponent as u32) {
        Some(power) => Num::new(power),
        None => Err(NumberOutside),
    }
}
