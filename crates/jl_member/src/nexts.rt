//! The numbers of `++` and `--` (11.3, 11.4.4, 11.4.5).
ghost use Rattle.std.specs.Prelude.{◌≡◌, if◌then◌else◌};
ghost use Rattle.std.specs.Result.{result_ok};
ghost use Rattle.jl_value.specs.declared.value.Value.TheVariants as value;
ghost use Rattle.jl_op.specs.UnaryKinds.{update_kind};
ghost use Rattle.jl_member.specs.inner.Nexts.{next_of};

use jl_num::{Num, NumberOutside};
use jl_op::update_kind;
use jl_operator::{next_number, number_of};
use jl_value::Value;

/// A primitive value as a number, and the number after or before it. Refused exactly where one of them is none of a
/// script.
pub(crate) fn next_of(up: bool, p: &Value) -> Result<(Num, Num), NumberOutside>
    ensures { result_ok result ≡ next_of (update_kind up) p.now }
{
    let n = number_of(p)?;
    let next = next_number(update_kind(up), n)?;
    Ok((n, next))
}

/// The value of an update: the new one with the operator before the operand, or the number that it was.
pub(crate) fn value_of_update(prefix: bool, n: Num, next: Num) -> Value
    ensures { result ≡ (if prefix then value.Num next else value.Num n) }
{
    if prefix {
        Value::Num(next)
    } else {
        Value::Num(n)
    }
}
