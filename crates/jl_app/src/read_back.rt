//! The program that is read from the text that a shelf lends.
ghost use Rattle.std.specs.Prelude.{◌≡◌, ◌≤◌, ◌<◌, ◌^◌, ℕ, List as Items, true, length, IfOk, OnOk, MatchResult};
ghost use Rattle.jl_ast.specs.Tree.{Program as Tree};
ghost use Rattle.jl_ast.specs.View.{view};
ghost use Rattle.jl_grammar.specs.Program.{Reads};
ghost use Rattle.jl_scope.specs.EarlyError.{first_early_error};
ghost use Rattle.jl_text.specs.declared.span.Span.{Span};
ghost use Rattle.jl_token.specs.Tokens.{Tokens};
ghost use Rattle.jl_token.specs.declared.token.Token.{Token as OneToken};
ghost use Rattle.jl_app.specs.ReadBack.{IsReadBack, may_run, most_woven_levels, most_woven_units};
ghost use Rattle.jl_app.specs.declared.read_back.Unread.TheVariants.{NoMemory};

use crate::form::{MOST_WOVEN_BYTES, MOST_WOVEN_LEVELS};
use jl_ast::Program;
use jl_lex::{LexRefusal, lex};
use jl_parse::{ParseRefusal, parse};
use jl_scope::{ScopeRefusal, check};
use jl_text::List;
use jl_token::Token;
use std::alloc::Global;

/// Why no program is read from a text.
#[derive(Drop)]
pub(crate) enum Unread {
    /// The text is too long, has no tokens, reads as no program of at most 1,000 levels, or as one that is no woven
    /// program.
    NoProgram,
    NoMemory,
}

/// The tokens of a text.
fn lex_text(alloc: Global, text: &[u16]) -> Result<List<Token>, Unread>
    requires { length text.now ≤ most_woven_units }
    ensures tokens { IfOk result (λ ts. Tokens text.now ts) }
    ensures only { (ts : Items OneToken) → Tokens text.now ts
        → MatchResult result (λ us. us ≡ ts) (λ e. e ≡ NoMemory) }
{
    match lex(alloc, text) {
        Ok(tokens) => Ok(tokens),
        Err(LexRefusal::BadInput { .. }) => Err(Unread::NoProgram),
        Err(LexRefusal::NoMemory) => Err(Unread::NoMemory),
    }
}

/// The program that they read as.
fn parse_tokens(alloc: Global, tokens: &[Token]) -> Result<Program, Unread>
    requires { length tokens.now < 2 ^ 32 }
    ensures read { IfOk result (λ p. Reads tokens.now most_woven_levels (view p)) }
    ensures only { (p : Tree Span) → Reads tokens.now most_woven_levels p
        → MatchResult result (λ r. view r ≡ p) (λ e. e ≡ NoMemory) }
{
    match parse(alloc, tokens, MOST_WOVEN_LEVELS) {
        Ok(program) => Ok(program),
        Err(ParseRefusal::Unreadable { .. }) => Err(Unread::NoProgram),
        Err(ParseRefusal::NoMemory) => Err(Unread::NoMemory),
    }
}

/// Whether it breaks no early rule and uses no left-out name. That it names the hooks is passed over.
fn check_early_errors(alloc: Global, program: &Program) -> Result<(), Unread>
    ensures sound { OnOk result (may_run (first_early_error (view program.now)) ≡ true) }
    ensures only { may_run (first_early_error (view program.now)) ≡ true
        → MatchResult result (λ _. Unit {0}) (λ e. e ≡ NoMemory) }
{
    match check(alloc, program) {
        Ok(()) => Ok(()),
        Err(ScopeRefusal::ReservedName { .. }) => Ok(()),
        Err(ScopeRefusal::Early { .. }) => Err(Unread::NoProgram),
        Err(ScopeRefusal::LeftOut { .. }) => Err(Unread::NoProgram),
        Err(ScopeRefusal::NoMemory) => Err(Unread::NoMemory),
    }
}

/// The program of tokens, if it may run.
fn program_of(alloc: Global, tokens: &[Token]) -> Result<Program, Unread>
    requires { length tokens.now < 2 ^ 32 }
    ensures read { IfOk result (λ p. Reads tokens.now most_woven_levels (view p)) }
    ensures sound { IfOk result (λ p. may_run (first_early_error (view p)) ≡ true) }
    ensures only { (p : Tree Span) → Reads tokens.now most_woven_levels p → may_run (first_early_error p) ≡ true
        → MatchResult result (λ r. view r ≡ p) (λ e. e ≡ NoMemory) }
{
    let program = parse_tokens(alloc, tokens)?;
    check_early_errors(alloc, &program)?;
    Ok(program)
}

/// The program that a text is read as, with at most 1,000 levels, in which no early rule is broken and no left-out name
/// is used. Its cost is that of the lexer, the parser and the check of names together.
pub(crate) fn read_back(alloc: Global, text: &[u16]) -> Result<Program, Unread>
    ensures read { IfOk result (λ p. IsReadBack text.now (view p)) }
    ensures only { (p : Tree Span) → IsReadBack text.now p
        → MatchResult result (λ r. view r ≡ p) (λ e. e ≡ NoMemory) }
{
    if text.len() > MOST_WOVEN_BYTES {
        return Err(Unread::NoProgram);
    }
    let tokens = lex_text(alloc, text)?;
    program_of(alloc, tokens.items())
}
