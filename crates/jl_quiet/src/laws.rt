//! Laws over the definitions; each is the contract of a function that does nothing.
ghost use Rattle.std.specs.Prelude.{ℕ};
ghost use Rattle.jl_ast.specs.Tree.{Program};
ghost use Rattle.jl_op.specs.Chosen.{Kinds};
ghost use Rattle.jl_quiet.specs.QuietMean.{IdsDoNotMatter, QuietMeans};

/// Programs that are the same but for their places have the same quiet runs, with as many steps and from the same
/// start: what hooks emit, the output, the store, the end and the steps that are left don't depend on ids. The id that
/// a hook is called with is a number in the text, and no place.
pub fn ids_do_not_matter()
    ensures { (chosen : Kinds) (p q : Program ℕ) → IdsDoNotMatter chosen p q }
{}

/// What a program means, but for what the script itself performs, is the quiet run of the program with no ids.
pub fn quiet_means<S>()
    ensures { (chosen : Kinds) (p : Program S) → QuietMeans chosen p }
{}
