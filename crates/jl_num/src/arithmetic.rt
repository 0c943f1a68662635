ghost use Rattle.std.specs.Prelude.{◌≡◌};
ghost use Rattle.std.specs.Result.{result_ok};
ghost use Rattle.jl_num.specs.Arithmetic.{sum_of, difference_of, product_of, quotient_of, remainder_of, negative_of};

use crate::num::{Num, NumberOutside};

/// The sum (11.6.3): NaN where a number is NaN, and refused exactly where the sum is no number of a script.
pub fn add(a: Num, b: Num) -> Result<Num, NumberOutside>
    ensures { result_ok result ≡ sum_of a b }
{
    match (a.value(), b.value()) {
        (Some(x), Some(y)) => Num::new(x + y),
        _ => Ok(Num::NAN),
    }
}

/// The difference (11.6.3): NaN where a number is NaN, and refused exactly where it is no number of a script.
pub fn sub(a: Num, b: Num) -> Result<Num, NumberOutside>
    ensures { result_ok result ≡ difference_of a b }
{
    match (a.value(), b.value()) {
        (Some(x), Some(y)) => Num::new(x - y),
        _ => Ok(Num::NAN),
    }
}

/// The product (11.5.1): NaN where a number is NaN, and refused exactly where it is no number of a script.
pub fn mul(a: Num, b: Num) -> Result<Num, NumberOutside>
    ensures { result_ok result ≡ product_of a b }
{
    match (a.value(), b.value()) {
        (Some(x), Some(y)) => match x.checked_mul(y) {
            Some(product) => Num::new(product),
            None => Err(NumberOutside),
        },
        _ => Ok(Num::NAN),
    }
}

/// The quotient (11.5.2): NaN where a number is NaN or both are 0, and refused exactly where it is infinite, has a
/// fraction or is of more than 2^53 - 1 in size.
pub fn div(a: Num, b: Num) -> Result<Num, NumberOutside>
    ensures { result_ok result ≡ quotient_of a b }
{
    match (a.value(), b.value()) {
        (Some(x), Some(y)) => {
            if y == 0 {
                if x == 0 {
                    Ok(Num::NAN)
                } else {
                    Err(NumberOutside)
                }
            } else {
                let rest = x % y;
                if rest == 0 {
                    Num::new(x / y)
                } else {
                    Err(NumberOutside)
                }
            }
        }
        _ => Ok(Num::NAN),
    }
}

/// The remainder (11.5.3), which has the sign of the dividend: NaN where a number is NaN or the divisor is 0.
pub fn rem(a: Num, b: Num) -> Num
    ensures { result ≡ remainder_of a b }
{
    match (a.value(), b.value()) {
        (Some(x), Some(y)) => { if y == 0 { Num::NAN } else { Num::within(x % y) } }
        _ => Num::NAN,
    }
}

/// The number with the other sign (11.4.7), and NaN for NaN.
pub fn neg(a: Num) -> Num
    ensures { result ≡ negative_of a }
{
    match a.value() {
        Some(x) => Num::within(-x),
        None => Num::NAN,
    }
}
