//! The laws of the grammar: each is the contract of a function.
ghost use Rattle.jl_grammar.specs.Accepted.{OneAccepted};
ghost use Rattle.jl_grammar.specs.Laws.{DirectivesAreAlone, FewNodes, FunctionsAreNodes, LimitsAgree, OneReading};
ghost use Rattle.jl_grammar.specs.Laws.{ReaderTells};

/// A list of tokens reads as one program at most, within any limit.
pub fn one_reading()
    ensures { OneReading }
{}

/// Two limits give the same program, where both give one.
pub fn limits_agree()
    ensures { LimitsAgree }
{}

/// The reader of the definitions gives a program exactly where the tokens read as it.
pub fn reader_tells()
    ensures { ReaderTells }
{}

/// The test for a directive of the definitions tells the statements that are one string token (14.1).
pub fn directives_are_alone()
    ensures { DirectivesAreAlone }
{}

/// Bytes are accepted as one program at most, whatever further test of programs there is.
pub fn one_accepted()
    ensures { OneAccepted }
{}

/// A program that is read has no more nodes than tokens.
pub fn few_nodes()
    ensures { FewNodes }
{}

/// A program has no more functions than nodes.
pub fn functions_are_nodes()
    ensures { FunctionsAreNodes }
{}
