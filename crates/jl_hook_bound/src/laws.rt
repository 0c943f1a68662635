//! Laws over the definitions; each is the contract of a function that does nothing.
ghost use Rattle.std.specs.Prelude.{◌≤◌, ℕ, length};
ghost use Rattle.jl_ast.specs.Tree.{Program};
ghost use Rattle.jl_effects.specs.Running.{state_of, steps_taken};
ghost use Rattle.jl_meaning.specs.Mean.{mean};
ghost use Rattle.jl_op.specs.Chosen.{Kinds};
ghost use Rattle.jl_quiet.specs.QuietMean.{quiet_mean};

/// No run emits more operations by hooks than it takes steps, be it of any program, woven or not, for any kinds, and
/// with however many steps; nor does what is seen of it from its hooks. No smaller share of the steps would do:
/// `J$.I(3, "++", o, k)` emits three operations by two steps of its own, that of the call and that of entering the
/// hook, and one more step is left of each of `o` and `k`, which may be such calls themselves.
pub fn hooks_take_steps<S>()
    ensures meant { (chosen : Kinds) (p : Program S) (n : ℕ)
        → length (state_of (mean chosen p n)).hooks ≤ steps_taken n (mean chosen p n) }
    ensures quietly { (chosen : Kinds) (p : Program S) (n : ℕ)
        → length (state_of (quiet_mean chosen p n)).hooks ≤ steps_taken n (quiet_mean chosen p n) }
{}
