//! Whole programs (clause 14), the limits on them, and where a refusal points.
ghost use Rattle.std.specs.Prelude.{◌≡◌, ◌<◌, ◌^◌, is_some, length, not, IfErr, IfOk, MatchResult};
ghost use Rattle.jl_ast.specs.Numbering.{functions_in, with_numbers};
ghost use Rattle.jl_ast.specs.Tree.{Program as Tree};
ghost use Rattle.jl_ast.specs.View.{view};
ghost use Rattle.jl_grammar.specs.Program.{Reads};
ghost use Rattle.jl_grammar.specs.ReaderLevels.{is_shallow, program_at};
ghost use Rattle.jl_parse.specs.Refusals.{IsPlaced};
ghost use Rattle.jl_parse.specs.inner.Steps.{Gives};
ghost use Rattle.jl_parse.specs.declared.refusal.ParseRefusal.TheVariants.{NoMemory};
ghost use Rattle.jl_text.specs.declared.span.Span.{Span as Place};

use crate::depth::Depth;
use crate::functions::body;
use crate::refusal::{ParseRefusal, Stop};
use crate::tokens::{Tokens, bracket};
use jl_ast::Program;
use jl_numbering::number;
use jl_text::Span;
use jl_token::Token;
use std::alloc::Global;

// The first bracket before which more than `most` are open, itself among them, if there is one. One pass.
#[tactic(auto, using(crate::proofs::Limits::shallow))]
fn deep_bracket(tokens: &Tokens, most: u64) -> Option<usize>
    requires { most < 2 ^ 62 }
    ensures { is_some result ≡ not (is_shallow tokens.now most (length tokens.now)) }
{
    let mut opened = 0;
    for at in 0..tokens.len() {
        opened = bracket(tokens.terminal(at), opened);
        if opened > most {
            return Some(at);
        }
    }
    None
}

// The program that the tokens are within the limit, with all functions numbered 0. It is refused where it is stuck: at
// a bracket inside too many others; at the first token that can't stand there, or past the last one; and at the token
// after a part that is too high, or before one for which no levels are left.
#[tactic(auto, using(crate::proofs::Limits::whole_program))]
fn program(alloc: Global, tokens: &Tokens, limit: u32) -> Result<Program, Stop>
    requires { length tokens.now < 2 ^ 32 }
    ensures is { Gives (λ p. with_numbers (view p)) result (program_at tokens.now limit) }
    ensures few { IfOk result (λ p. functions_in (view p).body < 2 ^ 32) }
{
    let most = u64::from(limit);
    if let Some(at) = deep_bracket(tokens, 2 * most) {
        return Err(Stop::At(at));
    }
    let depth = Depth {
        levels: 3 * most,
        brackets: 2 * most,
    };
    let (body, end) = body(alloc, tokens, depth, 0)?;
    if end != tokens.len() {
        return Err(Stop::At(end));
    }
    let span = Span {
        from: 0,
        to: tokens.last_end(),
    };
    if body.height() > most {
        return Err(Stop::At(end));
    }
    let body = body.into_node();
    Ok(Program { body, span })
}

// The refusal where nothing can be read at the token with index `at`, or past the last one.
fn unreadable(tokens: &Tokens, at: usize) -> ParseRefusal
    ensures { IsPlaced tokens.now result }
{
    if at < tokens.len() {
        ParseRefusal::Unreadable {
            at: tokens.start(at),
        }
    } else {
        ParseRefusal::Unreadable {
            at: tokens.last_end(),
        }
    }
}

/// The program (clause 14) that the tokens are, if its height is at most `limit` and at no place more than twice as
/// many brackets are open. Semicolons are inserted where edition 5.1 allows it (7.9). Any other list of tokens is
/// refused with a place: the first bracket inside too many others; else the first token that can't stand where it does,
/// or the end of the last one; the token after a part that is too high, or the one at which the levels run out. Such a
/// part is refused before it is made, so that no tree is ever higher than the limit and one. Three passes over the
/// tokens and one over the tree; it recurses as deep as brackets are open and as the limit on height allows.
pub fn parse(alloc: Global, tokens: &[Token], limit: u32) -> Result<Program, ParseRefusal>
    requires { length tokens.now < 2 ^ 32 }
    ensures found { IfOk result (λ p. Reads tokens.now limit (view p)) }
    ensures only { (p : Tree Place) → Reads tokens.now limit p → MatchResult result (λ r. view r ≡ p)
        (λ e. e ≡ NoMemory) }
    ensures place { IfErr result (IsPlaced tokens.now) }
{
    let tokens = Tokens::new(alloc, tokens)?;
    match program(alloc, &tokens, limit) {
        Ok(mut program) => {
            number(&mut program);
            Ok(program)
        }
        Err(Stop::At(at)) => Err(unreadable(&tokens, at)),
        Err(Stop::NoMemory) => Err(ParseRefusal::NoMemory),
    }
}
