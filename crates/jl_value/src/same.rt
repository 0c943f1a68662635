ghost use Rattle.std.specs.Prelude.{◌≡◌};
ghost use Rattle.jl_value.specs.Same.{same_value};

use crate::value::Value;

/// Whether two values are the same (9.12): NaN is the same as NaN, and there is one zero. Of texts all units are
/// compared.
pub fn same_value(a: &Value, b: &Value) -> bool
    ensures { result ≡ same_value a.now b.now }
{
    match (a, b) {
        (Value::Undefined, Value::Undefined) | (Value::Null, Value::Null) => true,
        (Value::Bool(x), Value::Bool(y)) => x == y,
        (Value::Num(x), Value::Num(y)) => x == y,
        (Value::Text(x), Value::Text(y)) => x.units() == y.units(),
        (Value::Obj(x), Value::Obj(y)) => x == y,
        _ => false,
    }
}
