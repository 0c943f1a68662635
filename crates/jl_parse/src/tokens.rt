//! The tokens at the places of a list, counted from 0.
ghost use Rattle.std.specs.Prelude.{◌≡◌, ◌≤◌, ◌<◌, ◌^◌, [], ◌∷◌, length, nat_le, suc, false, true, option_map};
ghost use Rattle.std.specs.Prelude.{IfErr, IfOk, OnErr, OnOk};
ghost use Rattle.jl_ast.specs.View.{view_ident};
ghost use Rattle.jl_grammar.specs.Tokens.{terminal_at, line_at, text_at, number_at, key_at, strict_at, from_at};
ghost use Rattle.jl_grammar.specs.Tokens.{to_at, span, ident_at, key_ident_at};
ghost use Rattle.jl_grammar.specs.Program.{last_end};
ghost use Rattle.jl_grammar.specs.Next.{continues_at, is_directive};
ghost use Rattle.jl_grammar.specs.Operators.{infix_operator, binary_operator, assign_operator};
ghost use Rattle.jl_grammar.specs.Brackets.{bracket, open_brackets};
ghost use Rattle.jl_parse.specs.declared.refusal.Stop.TheVariants.{At};
ghost use Rattle.jl_parse.specs.inner.Steps.{is_end, infix_operator_of, within};

use crate::depth::Depth;
use crate::operators::{InfixOperator, continues_left, update_op};
use crate::refusal::Stop;
use crate::terminals::{is_comma, is_in, is_question};
use jl_ast::{BinOp, Ident};
use jl_grammar::{Terminal, assign_op, binary_op, has_spelling, terminal_of};
use jl_num::{Num, digits};
use jl_text::{Span, Text, TextFault};
use jl_token::{Punct, Token, TokenKind};
use std::alloc::{AllocError, Global};
use std::marker::Model;

/// A list of tokens, with what the grammar sees of each, and how many brackets are open before each and in the end.
/// Contracts see it as the list.
#[derive(Drop)]
pub struct Tokens<'a> {
    tokens: &'a [Token],
    terminals: Vec<Terminal>,
    brackets: Vec<u64>,
    brackets_in_the_end: u64,
}

impl<'a> Model for Tokens<'a> {
    ghost use Rattle.std.specs.Prelude.{◌≡◌, List, map};
    ghost use Rattle.jl_grammar.specs.Terminals.{terminal_of};
    ghost use Rattle.jl_parse.specs.inner.Steps.{AreCounts};
    ghost use Rattle.jl_token.specs.declared.token.Token.{Token};

    ghost Value = { List Token };

    ghost view = { λ it. it.tokens.now };

    ghost invariant = { λ it. (it.terminals.items ≡ map (λ t. terminal_of t.kind) it.tokens.now)
        × AreCounts it.tokens.now it.brackets.items it.brackets_in_the_end };
}

impl<'a> Tokens<'a> {
    /// The list with these tokens.
    pub fn new(alloc: Global, tokens: &'a [Token]) -> Result<Tokens<'a>, AllocError>
        ensures { IfOk result (λ r. r ≡ tokens.now) }
    {
        let mut terminals = Vec::with_capacity(alloc, tokens.len())?;
        let mut brackets = Vec::with_capacity(alloc, tokens.len())?;
        let mut before = 0;
        for token in tokens {
            let terminal = terminal_of(&token.kind);
            terminals.push(terminal)?;
            brackets.push(before)?;
            before = bracket(terminal, before);
        }
        Ok(Tokens {
            tokens,
            terminals,
            brackets,
            brackets_in_the_end: before,
        })
    }

    /// How many tokens there are.
    pub fn len(&self) -> usize
        ensures { result ≡ length self.now }
    {
        self.tokens.len()
    }

    /// What the token there is; past the last one the end.
    pub fn terminal(&self, at: usize) -> Terminal
        ensures { result ≡ terminal_at self.now at }
    {
        match self.terminals.get(at) {
            Some(terminal) => *terminal,
            None => Terminal::End,
        }
    }

    /// How many brackets are open before the token there.
    fn open_brackets(&self, at: usize) -> u64
        ensures { result ≡ open_brackets self.now at }
    {
        match self.brackets.get(at) {
            Some(opened) => *opened,
            None => self.brackets_in_the_end,
        }
    }

    /// How high the parts of a node that begins there may be: the levels that are left but those for brackets that may
    /// still open.
    #[tactic(auto, using(jl_grammar::proofs::Levels::room_is))]
    pub fn room(&self, depth: Depth, at: usize) -> u64
        ensures is { result ≡ (within self.now depth).room at }
        ensures few { result < 2 ^ 63 }
    {
        let brackets = depth.brackets.saturating_sub(self.open_brackets(at));
        depth.levels.saturating_sub(brackets)
    }

    /// How high a node from `at` to `end` is, of which the highest part is so high. Where that is more than its place
    /// allows, nothing can be read on at `end`.
    pub fn node_height(
        &self,
        depth: Depth,
        at: usize,
        end: usize,
        highest: u64,
    ) -> Result<u64, Stop>
        ensures is { IfOk result (λ height. height ≡ suc highest) }
        ensures low { OnOk result (highest ≤ (within self.now depth).room at) }
        ensures high { OnErr result ((within self.now depth).room at < highest) }
        ensures place { IfErr result (λ stop. stop ≡ At end) }
    {
        if highest > self.room(depth, at) {
            return Err(Stop::At(end));
        }
        Ok(highest + 1)
    }

    /// Whether a node that begins there may have parts.
    #[tactic(auto, using(jl_grammar::proofs::Levels::room_is))]
    pub fn has_room(&self, depth: Depth, at: usize) -> bool
        ensures is { result ≡ nat_le 1 ((within self.now depth).room at) }
        ensures there { result ≡ true → 0 < depth.levels }
    {
        self.room(depth, at) >= 1
    }

    /// The place after a token that is there.
    pub fn after(&self, at: usize) -> usize
        requires { is_end (terminal_at self.now at) ≡ false }
        ensures { result ≡ suc at }
    {
        let _length = self.tokens.len();
        at + 1
    }

    /// Whether a line ends before the token there.
    pub fn line_before(&self, at: usize) -> bool
        ensures { result ≡ line_at self.now at }
    {
        match self.tokens.get(at) {
            Some(token) => token.line_before,
            None => true,
        }
    }

    /// Where the token there begins.
    pub fn start(&self, at: usize) -> u32
        ensures { result ≡ from_at self.now at }
    {
        match self.tokens.get(at) {
            Some(token) => token.span.from,
            None => 0,
        }
    }

    /// Where the token there ends.
    pub fn end(&self, at: usize) -> u32
        ensures { result ≡ to_at self.now at }
    {
        match self.tokens.get(at) {
            Some(token) => token.span.to,
            None => 0,
        }
    }

    /// The end of the last token, and 0 where there is none.
    #[tactic(auto, using(crate::proofs::Places::end_is_last, crate::proofs::Places::none_is_last))]
    pub fn last_end(&self) -> u32
        ensures { result ≡ last_end self.now }
    {
        match self.tokens.len() {
            0 => 0,
            count => self.end(count - 1),
        }
    }

    /// From the token at one place to the end of the last one before another.
    pub fn span(&self, from: usize, to: usize) -> Span
        ensures { result ≡ span self.now from to }
    {
        let start = self.start(from);
        if to == 0 {
            Span { from: start, to: 0 }
        } else {
            Span {
                from: start,
                to: self.end(to - 1),
            }
        }
    }

    /// The text of the token there, which is a name or a string; of any other the empty text.
    pub fn text(&self, alloc: Global, at: usize) -> Result<Text, AllocError>
        ensures { IfOk result (λ t. t ≡ text_at self.now at) }
    {
        match self.tokens.get(at) {
            Some(token) => text_of(alloc, token),
            None => short_text(alloc, &[]),
        }
    }

    /// The number of the token there; of one that is no number NaN.
    pub fn number(&self, at: usize) -> Num
        ensures { result ≡ number_at self.now at }
    {
        match self.tokens.get(at) {
            Some(token) => number_of(token),
            None => Num::NAN,
        }
    }

    /// The name that the token there is.
    pub fn ident(&self, alloc: Global, at: usize) -> Result<Ident, AllocError>
        requires { is_end (terminal_at self.now at) ≡ false }
        ensures { IfOk result (λ x. view_ident x ≡ ident_at self.now at) }
    {
        let span = self.span(at, self.after(at));
        Ok(Ident {
            text: self.text(alloc, at)?,
            span,
        })
    }

    /// The key that the token there is (11.1.5): a number stands for its digits.
    pub fn key(&self, alloc: Global, at: usize) -> Result<Ident, AllocError>
        requires { is_end (terminal_at self.now at) ≡ false }
        ensures { IfOk result (λ x. view_ident x ≡ key_ident_at self.now at) }
    {
        let span = self.span(at, self.after(at));
        Ok(Ident {
            text: self.key_text(alloc, at)?,
            span,
        })
    }

    fn key_text(&self, alloc: Global, at: usize) -> Result<Text, AllocError>
        ensures { IfOk result (λ t. t ≡ key_at self.now at) }
    {
        match self.tokens.get(at) {
            Some(token) => key_of(alloc, token),
            None => short_text(alloc, &[]),
        }
    }

    /// Whether the token there is the directive of strict code (14.1).
    pub fn is_strict(&self, at: usize) -> bool
        ensures { result ≡ strict_at self.now at }
    {
        match self.tokens.get(at) {
            Some(token) => is_use_strict(token),
            None => false,
        }
    }

    /// What the token there is between two operands; `in` is nothing where the grammar says NoIn (11.8).
    pub fn infix_operator(&self, at: usize, no_in: bool) -> Option<InfixOperator>
        ensures { option_map infix_operator_of result ≡ infix_operator no_in (terminal_at self.now at) }
    {
        let terminal = self.terminal(at);
        if no_in && is_in(terminal) {
            return None;
        }
        match terminal {
            Terminal::Punct(Punct::AndAnd) => Some(InfixOperator::And),
            Terminal::Punct(Punct::OrOr) => Some(InfixOperator::Or),
            _ => self.binary_op(at).map(InfixOperator::Plain),
        }
    }

    /// The operator between two operands that the token there is.
    fn binary_op(&self, at: usize) -> Option<BinOp>
        ensures { result ≡ binary_operator (terminal_at self.now at) }
    {
        match self.tokens.get(at) {
            Some(token) => binary_op(&token.kind),
            None => None,
        }
    }

    /// The assignment operator that the token there is.
    pub fn assign_op(&self, at: usize) -> Option<Option<BinOp>>
        ensures { result ≡ assign_operator (terminal_at self.now at) }
    {
        match self.tokens.get(at) {
            Some(token) => assign_op(&token.kind),
            None => None,
        }
    }

    // Whether the token there continues an expression that is one token.
    fn continues(&self, at: usize) -> bool
        ensures { result ≡ continues_at self.now at }
    {
        let terminal = self.terminal(at);
        continues_left(terminal, true)
            || (update_op(terminal).is_some() && !self.line_before(at))
            || self.infix_operator(at, false).is_some()
            || is_question(terminal)
            || self.assign_op(at).is_some()
            || is_comma(terminal)
    }

    /// Whether a directive (14.1) begins there.
    pub fn is_directive(&self, at: usize) -> bool
        ensures is { result ≡ is_directive self.now at }
        ensures there { result ≡ true → is_end (terminal_at self.now at) ≡ false }
    {
        match self.terminal(at) {
            Terminal::Str => !self.continues(self.after(at)),
            _ => false,
        }
    }
}

// The text of these few units: none, or the characters of a number. So few are never too many for a text.
fn short_text(alloc: Global, units: &[u16]) -> Result<Text, AllocError>
    ensures { IfOk result (λ t. t ≡ units.now) }
{
    match Text::from_units(alloc, units) {
        Ok(text) => Ok(text),
        Err(TextFault::NoMemory | TextFault::TooLong) => Err(AllocError),
    }
}

fn text_of(alloc: Global, token: &Token) -> Result<Text, AllocError>
    ensures { IfOk result (λ t. t ≡ text_at (token.now ∷ []) 0) }
{
    match &token.kind {
        TokenKind::Name { text, .. } | TokenKind::Str { text, .. } => text.share(alloc),
        _ => short_text(alloc, &[]),
    }
}

fn number_of(token: &Token) -> Num
    ensures { result ≡ number_at (token.now ∷ []) 0 }
{
    match &token.kind {
        TokenKind::Number(number) => *number,
        _ => Num::NAN,
    }
}

fn key_of(alloc: Global, token: &Token) -> Result<Text, AllocError>
    ensures { IfOk result (λ t. t ≡ key_at (token.now ∷ []) 0) }
{
    match &token.kind {
        TokenKind::Number(number) => {
            let digits = digits(alloc, *number, 10)?;
            let mut units = Vec::with_capacity(alloc, digits.len())?;
            for digit in &digits {
                units.push(u16::from(*digit))?;
            }
            short_text(alloc, units.as_slice())
        }
        _ => text_of(alloc, token),
    }
}

fn is_use_strict(token: &Token) -> bool
    ensures { result ≡ strict_at (token.now ∷ []) 0 }
{
    match &token.kind {
        TokenKind::Str { text, plain } => *plain && has_spelling(text.units(), b"use strict"),
        _ => false,
    }
}

/// How many brackets are open after a token, before which there are so many.
pub fn bracket(terminal: Terminal, before: u64) -> u64
    requires { suc before < 2 ^ 64 }
    ensures { result ≡ bracket terminal before }
{
    match terminal {
        Terminal::Punct(Punct::LeftParen | Punct::LeftBracket | Punct::LeftBrace) => before + 1,
        Terminal::Punct(Punct::RightParen | Punct::RightBracket | Punct::RightBrace) => {
            before.saturating_sub(1)
        }
        _ => before,
    }
}
