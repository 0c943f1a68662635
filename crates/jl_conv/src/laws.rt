ghost use Rattle.jl_conv.specs.Laws.{TextsReadBack, LiteralsHaveTheirValue, OnlyLiteralsHaveOne};

/// The text of a number (9.8.1) converts to that number (9.3.1), NaN too.
pub fn texts_read_back()
    ensures { TextsReadBack }
{}

/// What is a literal by the productions of the standard converts to its value, also between spaces (9.3.1).
pub fn literals_have_their_value()
    ensures { LiteralsHaveTheirValue }
{}

/// What converts to another number than NaN is a literal by the productions of the standard, or has no units but spaces
/// (9.3.1).
pub fn only_literals_have_one()
    ensures { OnlyLiteralsHaveOne }
{}
