//! What objects are by their inner parts (8.6.2, table 9).
ghost use Rattle.std.specs.Prelude.{◌≡◌};
ghost use Rattle.jl_meaning.specs.FunctionObjects.{has_construct, script_number};
ghost use Rattle.jl_meaning.specs.Getting.{has_call};

use jl_heap::Inner;

/// Whether an object with this inner part has [[Call]] (8.6.2).
pub fn has_call(inner: &Inner) -> bool
    ensures { result ≡ has_call inner.now }
{
    match inner {
        Inner::Script { .. } | Inner::Native(_) | Inner::Bound { .. } => true,
        _ => false,
    }
}

/// Whether an object with this inner part has [[Construct]] (8.6.2).
pub fn has_construct(inner: &Inner) -> bool
    ensures { result ≡ has_construct inner.now }
{
    match inner {
        Inner::Script { .. } | Inner::Bound { .. } => true,
        Inner::Native(builtin) => builtin.prototype().is_some(),
        _ => false,
    }
}

/// The number of the function of the script that an object with this inner part is, if it is one.
pub fn script_number(inner: &Inner) -> Option<u32>
    ensures { result ≡ script_number inner.now }
{
    match inner {
        Inner::Script { function, .. } => Some(*function),
        _ => None,
    }
}
