// What the rules on a function's `prototype` share.
ghost use Rattle.std.specs.Prelude.{◌≡◌};
ghost use Rattle.jl_analysis.specs.UseRules.{is_prototype_of_function};

use jl_text::{Text, is_spelled};
use jl_value::{Class, Seen};

/// Whether it is the property `prototype` of a function.
pub fn is_prototype_of_function(base: &Seen, name: &Text) -> bool
    ensures { result ≡ is_prototype_of_function base.now name.now }
{
    matches!(base.class, Class::Function) && is_spelled(name.units(), b"prototype")
}
