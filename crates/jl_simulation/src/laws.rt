//! Laws over the definitions; each is the contract of a function that does nothing.
ghost use Rattle.std.specs.Prelude.{◌≡◌, ◌+◌, ◌*◌, ◌<◌, ◌≤◌, [], ℕ, List, length};
ghost use Rattle.jl_text.specs.declared.span.Span.{Span};
ghost use Rattle.jl_token.specs.declared.token.Token.{Token};
ghost use Rattle.jl_ast.specs.Tree.{Program};
ghost use Rattle.jl_grammar.specs.Program.{Reads};
ghost use Rattle.jl_op.specs.Chosen.{Kinds};
ghost use Rattle.jl_op.specs.IdMap.{id_map};
ghost use Rattle.jl_scope.specs.EarlyErrors.{early_errors_of};
ghost use Rattle.jl_simulation.specs.CompoundAssignments.{AssignsByOperators};
ghost use Rattle.jl_simulation.specs.Plain.{HasFewIds, IsPlain};
ghost use Rattle.jl_simulation.specs.Simulation.{WovenSimulates};

/// For every set of kinds the woven script simulates the script, be it any script that is plain and has few ids. Where
/// the script's run is over within n steps, the run of the woven script is over within 32 n + 64, in the same way, with
/// the same store and output, and its hooks have emitted the operations of the chosen kinds that the script performs,
/// in order. Where the run of the woven script is over, so is the script's, in no more steps. Where it is spent, what
/// it has printed and emitted are prefixes of what the script has printed and performed with as many steps.
pub fn woven_scripts_simulate<S>()
    ensures { (chosen : Kinds) (p : Program S) → IsPlain p.body → HasFewIds p → WovenSimulates chosen p }
{}

/// The map of a program that is read has at most four entries for each token, and two.
pub fn few_ids()
    ensures { (ts : List Token) (limit : ℕ) (p : Program Span) → Reads ts limit p
        → length (id_map p) ≤ 4 * length ts + 2 }
{}

/// A script without early errors is plain, where its compound assignments have operators of 11.13: it doesn't name
/// `J$`.
pub fn scripts_without_early_errors_are_plain()
    ensures { (p : Program Span) → early_errors_of p ≡ [] → AssignsByOperators p.body → IsPlain p.body }
{}

/// For every set of kinds the woven script simulates the script, be it any program that is read of fewer than 2^30 - 1
/// tokens and has no early errors: it is plain and has few ids, and nothing more is asked of it.
pub fn accepted_scripts_simulate()
    ensures { (chosen : Kinds) (ts : List Token) (limit : ℕ) (p : Program Span) → Reads ts limit p
        → early_errors_of p ≡ [] → length ts < 1073741823 → WovenSimulates chosen p }
{}
