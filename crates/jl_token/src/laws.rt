//! What holds of the tokens and the comments of each text.
#![tactic(auto)]

ghost use Rattle.jl_token.specs.Tokens.{TokensAreUnique, BadPlaceIsUnique, TokensOrBad, NeverBoth, SpansAreInOrder};
ghost use Rattle.jl_token.specs.Tokens.{FewTokens};
ghost use Rattle.jl_token.specs.Tokens.{CommentsAreUnique, CommentsWhereTokens, CommentsAreInOrder};

/// A text has one list of tokens at most.
pub fn tokens_are_unique()
    ensures { TokensAreUnique }
{}

/// A text has one place at most at which the first input element that can't be formed stands, and one cause for it.
pub fn bad_place_is_unique()
    ensures { BadPlaceIsUnique }
{}

/// Each text has tokens, or a first input element that can't be formed.
pub fn tokens_or_bad()
    ensures { TokensOrBad }
{}

/// No text has both.
pub fn never_both()
    ensures { NeverBoth }
{}

/// The spans of the tokens rise, don't overlap, hold a unit at least, and lie in the text.
pub fn spans_are_in_order()
    ensures { SpansAreInOrder }
{}

/// A text has no more tokens than units.
pub fn few_tokens()
    ensures { FewTokens }
{}

/// A text has one list of comments at most.
pub fn comments_are_unique()
    ensures { CommentsAreUnique }
{}

/// A text has a list of comments, which may be empty, exactly where it has one of tokens.
pub fn comments_where_tokens()
    ensures { CommentsWhereTokens }
{}

/// The spans of the comments rise, don't overlap, hold two units at least, and lie in the text.
pub fn comments_are_in_order()
    ensures { CommentsAreInOrder }
{}
