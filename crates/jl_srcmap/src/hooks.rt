//! The segments of a rewritten script.
ghost use Rattle.std.specs.Prelude.{◌≡◌, ◌<◌, ◌≤◌, ℕ, ◌+◌, ◌++◌, All, IfOk, OnOk, drop, length};
ghost use Rattle.jl_op.specs.Map.{BeginsIn};
ghost use Rattle.jl_token.specs.Tokens.{InOrder};
ghost use Rattle.jl_srcmap.specs.Hooks.{begin_of, call_segment, hook_calls, hook_number, is_dot, is_hooks_name};
ghost use Rattle.jl_srcmap.specs.Hooks.{is_name};
ghost use Rattle.jl_srcmap.specs.Hooks.{is_open, number_in, segments_of};
ghost use Rattle.jl_srcmap.specs.Segments.{AreInOrder};

use crate::segment::{Origin, Segment};
use jl_op::{OpId, OpMap};
use jl_text::{Lines, is_spelled};
use jl_token::{Punct, Token, TokenKind};
use std::alloc::{AllocError, Global};

/// A segment for each call of a hook among the tokens of a rewritten script, in order: from the place of its `J$` to
/// the place at which the part of the script begins that does the operation with the hook's number. `woven` are the
/// lines of the rewritten script, and `lines` those of the script. One pass over the tokens; a place is looked up in a
/// number of steps in the order of the logarithm of the number of lines. A number that no row of the map has is told as
/// the beginning of the script.
pub fn origins(
    alloc: Global,
    tokens: &[Token],
    woven: &Lines,
    map: &OpMap,
    lines: &Lines,
) -> Result<Vec<Segment>, AllocError>
    requires tokens { All (λ t. t.span.from ≤ woven.now.end) tokens.now }
    requires rows { All (BeginsIn lines.now) map.now }
    ensures are { IfOk result (λ ss. ss.items ≡ segments_of woven.now map.now lines.now tokens.now) }
    ensures in_order { (i j : ℕ) → InOrder i j tokens.now → IfOk result (λ ss. AreInOrder 0 ss.items) }
{
    let mut segments = Vec::new(alloc);
    for at in 0..tokens.len() {
        add_call(&mut segments, tokens, at, woven, map, lines)?;
    }
    Ok(segments)
}

/// Adds the segment of the call of a hook that begins at a place among tokens, if there is one.
fn add_call(
    segments: &mut Vec<Segment>,
    tokens: &[Token],
    at: usize,
    woven: &Lines,
    map: &OpMap,
    lines: &Lines,
) -> Result<(), AllocError>
    requires at { at < length tokens.now }
    requires tokens { All (λ t. t.span.from ≤ woven.now.end) tokens.now }
    requires rows { All (BeginsIn lines.now) map.now }
    ensures { OnOk result
        (segments.new.items ++ segments_of woven.now map.now lines.now (drop (at + 1) tokens.now)
        ≡ segments.old.items ++ segments_of woven.now map.now lines.now (drop at tokens.now)) }
{
    let Some(number) = hook_number(tokens, at) else {
        return Ok(());
    };
    let place = tokens[at].span.from;
    segments.push(call_segment(place, number, woven, map, lines))?;
    Ok(())
}

/// The segment of a call that begins at a place of the rewritten script, of the hook with a number.
fn call_segment(place: u32, number: u64, woven: &Lines, map: &OpMap, lines: &Lines) -> Segment
    requires place { place ≤ woven.now.end }
    requires rows { All (BeginsIn lines.now) map.now }
    ensures { result ≡ call_segment woven.now map.now lines.now (record { at = place; number = number }) }
{
    let (line, column) = woven.line_col(place);
    let (original_line, original_column) = lines.line_col(begin_of(map, lines, number));
    Segment {
        line: line.saturating_sub(1),
        column: column.saturating_sub(1),
        origin: Some(Origin {
            source: 0,
            line: original_line.saturating_sub(1),
            column: original_column.saturating_sub(1),
            name: None,
        }),
    }
}

/// Where the part of the script begins that does the operation with a number, and 0 where there is none.
fn begin_of(map: &OpMap, lines: &Lines, number: u64) -> u32
    requires { All (BeginsIn lines.now) map.now }
    ensures value { result ≡ begin_of map.now number }
    ensures within { result ≤ lines.now.end }
{
    let index = number.saturating_sub(1);
    if index < u64::from(map.len()) {
        map.place_of(OpId(index as u32 + 1)).from
    } else {
        0
    }
}

/// The number of the hook whose call begins at a place among tokens.
fn hook_number(tokens: &[Token], at: usize) -> Option<u64>
    requires { at ≤ length tokens.now }
    ensures { result ≡ hook_number (drop at tokens.now) }
{
    hook_in_front(&tokens[at..])
}

/// The number of the hook whose call these tokens begin.
fn hook_in_front(tokens: &[Token]) -> Option<u64>
    ensures { result ≡ hook_number tokens.now }
{
    let [object, dot, name, open, number, ..] = tokens else {
        return None;
    };
    if is_hooks_name(&object.kind)
        && is_dot(&dot.kind)
        && is_name(&name.kind)
        && is_open(&open.kind)
    {
        number_in(&number.kind)
    } else {
        None
    }
}

fn is_hooks_name(kind: &TokenKind) -> bool
    ensures { result ≡ is_hooks_name kind.now }
{
    match kind {
        TokenKind::Name { text, .. } => is_spelled(text.units(), b"J$"),
        _ => false,
    }
}

fn is_dot(kind: &TokenKind) -> bool
    ensures { result ≡ is_dot kind.now }
{
    matches!(kind, TokenKind::Punct(Punct::Dot))
}

fn is_name(kind: &TokenKind) -> bool
    ensures { result ≡ is_name kind.now }
{
    matches!(kind, TokenKind::Name { .. })
}

fn is_open(kind: &TokenKind) -> bool
    ensures { result ≡ is_open kind.now }
{
    matches!(kind, TokenKind::Punct(Punct::LeftParen))
}

/// The whole number that a token is, unless it is below 0.
fn number_in(kind: &TokenKind) -> Option<u64>
    ensures { result ≡ number_in kind.now }
{
    match kind {
        TokenKind::Number(number) => u64::try_from(number.value()?).ok(),
        _ => None,
    }
}
