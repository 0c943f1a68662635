//! Laws over the definitions; each is the contract of a function that does nothing.
ghost use Rattle.std.specs.Prelude.{◌≡◌, ℕ};
ghost use Rattle.jl_ast.specs.Tree.{Program};
ghost use Rattle.jl_op.specs.Chosen.{Kinds};
ghost use Rattle.jl_quiet.specs.QuietMean.{quiet_mean};
ghost use Rattle.jl_machine.specs.Runs.{hooked_mean};

/// A run of the machine is what the program means, as that looks from its hooks.
#[tactic(auto, unfolding(crate::specs::Runs::hooked_mean))]
pub fn runs_are_meant<S>()
    ensures { (chosen : Kinds) (p : Program S) (n : ℕ) → quiet_mean chosen p n ≡ hooked_mean chosen p n }
{}
