//! The name of the object with the hooks.
ghost use Rattle.std.specs.Prelude.{◌≡◌};
ghost use Rattle.jl_meaning.specs.forms.Names.{is_hooks};

use jl_text::Text;

/// The units of the name `J$`.
const HOOKS: [u16; 2] = [0x4A, 0x24];

/// Whether a name is that of the object with the hooks.
#[tactic(auto, unfolding(jl_scope::specs::Names::hooks_name))]
pub fn is_hooks(name: &Text) -> bool
    ensures { result ≡ is_hooks name.now }
{
    name.units() == HOOKS.as_slice()
}
