//! The comments of a text (7.4).
ghost use Rattle.std.specs.Prelude.{◌≡◌, ◌<◌, ◌^◌, ◌⊎◌, ◌∷◌, ◌++◌, ℕ, List as Items, length, IfOk, IfErr, OnOk};
ghost use Rattle.std.specs.Prelude.{MatchResult};
ghost use Rattle.jl_token.specs.Tokens.{Piece, piece, comments_among, Comments, BadAt};
ghost use Rattle.jl_token.specs.declared.token.Comment.{Comment as OneComment};
ghost use Rattle.jl_token.specs.declared.token.BadKind.{BadKind as Kind};
ghost use Rattle.jl_lex.specs.inner.Answers.{element_of};
ghost use Rattle.jl_lex.specs.Refusals.{IsRefusal};

use crate::characters::unit_at;
use crate::element::Element;
use crate::lexer::{LexRefusal, element_at, refusal};
use jl_text::Span;
use jl_token::Comment;
use std::alloc::{AllocError, Global};

// Adds the comment that an element from one place to another is, if it is one.
fn add_comment(
    comments: &mut Vec<Comment>,
    element: Element,
    from: usize,
    to: usize,
) -> Result<(), AllocError>
    requires from { from < 2 ^ 32 }
    requires to { to < 2 ^ 32 }
    ensures { OnOk result ((ps : Items Piece) → comments.new.items ++ comments_among ps
        ≡ comments.old.items ++ comments_among (piece (element_of element) from to ∷ ps)) }
{
    let to_line_end = match element {
        Element::LineComment => true,
        Element::BlockComment(_) => false,
        Element::White | Element::LineEnd | Element::Word(_) => return Ok(()),
    };
    let span = Span {
        from: from as u32,
        to: to as u32,
    };
    comments.push(Comment { span, to_line_end })?;
    Ok(())
}

fn comments_of(alloc: Global, units: &[u16]) -> Result<Vec<Comment>, LexRefusal>
    requires { length units.now < 2 ^ 32 }
    ensures comments { IfOk result (λ found. Comments units.now found.items) }
    ensures refused { IfErr result (λ e. IsRefusal units.now e) }
{
    let mut comments = Vec::new(alloc);
    let mut at = 0;
    while let Some(unit) = unit_at(units, at) {
        match element_at(alloc, units, at, unit) {
            Ok((element, end)) => {
                add_comment(&mut comments, element, at, end)?;
                at = end;
            }
            Err(stop) => return Err(refusal(stop, at)),
        }
    }
    Ok(comments)
}

/// The comments of a text (7.4), in their order. A text in which an input element can't be formed is refused, at the
/// first such place, exactly as `lex` refuses it. One pass.
pub fn comments(alloc: Global, units: &[u16]) -> Result<Vec<Comment>, LexRefusal>
    requires { length units.now < 2 ^ 32 }
    ensures comments { IfOk result (λ found. Comments units.now found.items) }
    ensures refused { IfErr result (λ e. IsRefusal units.now e) }
    ensures only_these { (cs : Items OneComment) → Comments units.now cs
        → MatchResult result (λ found. found.items ≡ cs) (λ e. e ≡ LexRefusal.NoMemory) }
    ensures only_there { (i : ℕ) (k : Kind) → BadAt units.now i k
        → MatchResult result (λ _. ⊥) (λ e. (e ≡ LexRefusal.BadInput i k) ⊎ (e ≡ LexRefusal.NoMemory)) }
{
    comments_of(alloc, units)
}
