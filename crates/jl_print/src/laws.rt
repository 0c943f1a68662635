//! The laws of the canonical text: each is the contract of a function.
ghost use Rattle.std.specs.Prelude.{◌≡◌};
ghost use Rattle.jl_ast.specs.Spans.{without_spans};
ghost use Rattle.jl_ast.specs.Tree.{Program};
ghost use Rattle.jl_print.specs.Layout.{text_of};
ghost use Rattle.jl_print.specs.Laws.{PrintedReadsBack, ReadIsWellFormed, TextIsPaired};

/// The canonical text of a well formed program reads back as that program, but for places, within every limit on
/// nesting that the program keeps.
pub fn printed_reads_back()
    ensures { PrintedReadsBack }
{}

/// Every program that is read of a text is well formed.
pub fn read_is_well_formed()
    ensures { ReadIsWellFormed }
{}

/// Each surrogate in the canonical text of a well formed program has its partner, so that the text comes back from its
/// UTF-8.
pub fn text_is_paired()
    ensures { TextIsPaired }
{}

/// The canonical text of a program doesn't depend on where its nodes stand.
#[tactic(auto, using(crate::proofs::WithoutPlaces::same_text))]
pub fn places_do_not_show<S>()
    ensures { (p : Program S) → text_of (without_spans p) ≡ text_of p }
{}
