//! Laws over the definitions; each is the contract of a function that does nothing.
ghost use Rattle.std.specs.Prelude.{◌≡◌, ◌<◌, [], ℕ, List, length};
ghost use Rattle.jl_text.specs.declared.span.Span.{Span};
ghost use Rattle.jl_token.specs.declared.token.Token.{Token};
ghost use Rattle.jl_ast.specs.Tree.{Program};
ghost use Rattle.jl_grammar.specs.Program.{Reads};
ghost use Rattle.jl_effects.specs.Keeping.{FailsAllowed};
ghost use Rattle.jl_meaning.specs.Mean.{IsNoMisuse, mean};
ghost use Rattle.jl_op.specs.Chosen.{Kinds};
ghost use Rattle.jl_quiet.specs.QuietMean.{quiet_mean};
ghost use Rattle.jl_safety.specs.Ends.{EndsOrThrows};
ghost use Rattle.jl_scope.specs.EarlyErrors.{early_errors_of};
ghost use Rattle.jl_simulation.specs.Weaving.{woven_program};

use jl_simulation::laws::accepted_scripts_simulate;

/// No run of a script without early errors ends by the fault Misuse, with however many steps: none of its jumps leaves
/// its function or the program (12.7 to 12.9), and it doesn't name the object with the hooks.
pub fn accepted_never_misuses()
    ensures { (chosen : Kinds) (p : Program Span) → early_errors_of p ≡ [] → (n : ℕ)
        → FailsAllowed IsNoMisuse (mean chosen p n) }
{}

/// Nor does what is seen of it from its hooks.
pub fn quietly_never_misuses()
    ensures { (chosen : Kinds) (p : Program Span) → early_errors_of p ≡ [] → (n : ℕ)
        → FailsAllowed IsNoMisuse (quiet_mean chosen p n) }
{}

/// Nor does a run of its woven script, for any set of kinds, where the script is read of fewer than 2^30 - 1 tokens.
pub fn woven_never_misuses()
    ensures meant { (chosen : Kinds) (ts : List Token) (limit : ℕ) (p : Program Span) → Reads ts limit p
        → early_errors_of p ≡ [] → length ts < 1073741823 → (n : ℕ)
        → FailsAllowed IsNoMisuse (mean chosen (woven_program chosen p) n) }
    ensures quietly { (chosen : Kinds) (ts : List Token) (limit : ℕ) (p : Program Span) → Reads ts limit p
        → early_errors_of p ≡ [] → length ts < 1073741823 → (n : ℕ)
        → FailsAllowed IsNoMisuse (quiet_mean chosen (woven_program chosen p) n) }
{
    accepted_scripts_simulate();
}

/// A run that has come to the end of its program, be it any, completed normally or threw (clause 14): what completes
/// otherwise ends by the fault Misuse.
pub fn programs_end_or_throw<S>()
    ensures meant { (chosen : Kinds) (p : Program S) (n : ℕ) → EndsOrThrows (mean chosen p n) }
    ensures quietly { (chosen : Kinds) (p : Program S) (n : ℕ) → EndsOrThrows (quiet_mean chosen p n) }
{}
