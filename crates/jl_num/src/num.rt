ghost use Rattle.std.specs.Prelude.{◌≡◌, ◌↔◌, IfOk, IsOk, Some};
ghost use Rattle.std.specs.Result.{result_ok};
ghost use Rattle.jl_num.specs.Number.{IsNumber};
ghost use Rattle.jl_num.specs.Arithmetic.{number_of};

use std::marker::Model;
use thiserror::Error;

/// The largest number: 2^53 - 1.
pub const LARGEST: i64 = 9_007_199_254_740_991;

/// The same, where sizes are counted that have no sign.
pub const LARGEST_SIZE: u64 = 9_007_199_254_740_991;

/// A number of a script (8.5, in whole numbers): NaN, or a whole number of at most 2^53 - 1 in size. There is one zero.
/// Contracts see it as an optional whole number, where none is NaN. `==` compares two values of this type, and so NaN
/// with NaN as equal; it is not the `==` of a script.
#[derive(Clone, Copy, PartialEq, Eq, Debug)]
pub struct Num {
    whole: Option<i64>,
}

impl Model for Num {
    ghost use Rattle.std.specs.Prelude.{Option, ℤ};
    ghost use Rattle.jl_num.specs.Number.{IsNumber};

    ghost Value = { Option ℤ };

    ghost view = { λ n. n.whole };

    ghost invariant = { λ n. IsNumber n.whole };

    ghost inverse = { λ n. record { whole = n } };
}

/// The exact result is no number of a script.
#[derive(Clone, Copy, PartialEq, Eq, Debug, Error)]
#[error("the result is neither NaN nor a whole number of at most 2^53 - 1 in size")]
pub struct NumberOutside;

impl Num {
    /// NaN (8.5).
    pub const NAN: Num = Num { whole: None };

    /// The whole number n; refused exactly where it is of more than 2^53 - 1 in size.
    pub fn new(n: i64) -> Result<Num, NumberOutside>
        ensures made { IfOk result (λ r. r ≡ Some n) }
        ensures inside { IsOk result ↔ IsNumber (Some n) }
        ensures exact { result_ok result ≡ number_of n }
    {
        if -LARGEST <= n && n <= LARGEST {
            Ok(Num { whole: Some(n) })
        } else {
            Err(NumberOutside)
        }
    }

    /// The whole number n, which is of at most 2^53 - 1 in size.
    pub(crate) fn within(n: i64) -> Num
        requires { IsNumber (Some n) }
        ensures { result ≡ Some n }
    {
        Num { whole: Some(n) }
    }

    /// The whole number, or None for NaN.
    pub fn value(self) -> Option<i64>
        ensures same { result ≡ self }
        ensures inside { IsNumber self }
    {
        self.whole
    }
}
