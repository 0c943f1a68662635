ghost use Rattle.std.specs.Prelude.{◌≡◌};
ghost use Rattle.jl_num.specs.Order.{order_of};

use crate::num::Num;
use std::cmp::Ordering;

/// How a stands to b (11.8.5), or None where one of them is NaN.
pub fn compare(a: Num, b: Num) -> Option<Ordering>
    ensures { result ≡ order_of a b }
{
    match (a.value(), b.value()) {
        (Some(x), Some(y)) => Some(x.cmp(&y)),
        _ => None,
    }
}
