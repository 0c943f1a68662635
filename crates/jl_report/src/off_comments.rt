//! Comments that switch rules off for a line.
ghost use Rattle.std.specs.Prelude.{◌≡◌, ◌+◌, ◌^◌, ◌<◌, ◌≤◌, ◌==◌, [], ◌∷◌, IfOk, OnOk, IfSome, MatchOption};
ghost use Rattle.std.specs.Prelude.{length, option_map, position};
ghost use Rattle.std.specs.List.{slice_split};
ghost use Rattle.std.specs.Option.{option_copied};
ghost use Rattle.std.specs.BTreeSet.{insert_key};
ghost use Rattle.std.specs.Str.{bytes_eq};
ghost use Rattle.jl_text.specs.Places.{line_table, position_of};
ghost use Rattle.jl_token.specs.Tokens.{Comments};
ghost use Rattle.jl_analysis.specs.Rules.{rule_with};
ghost use Rattle.jl_report.specs.Off.{by_line, without_last_spaces, rules_in, after, pairs_with, pairs_of_text};
ghost use Rattle.jl_report.specs.Off.{with_pairs, pairs_named, pairs_of, off_by};

use crate::off_list::Off;
use jl_analysis::{RULE_COUNT, rule_name};
use jl_lex::Comment;
use jl_text::{Lines, is_spelled};
use std::alloc::{AllocError, Global};
use std::collections::BTreeSet;

const SPACE: u16 = 0x20;

const COMMA: u16 = 0x2C;

/// What the comments of a source switch off. `// jlint-off NAMES` switches rules off for the line on which the
/// comment begins, and `// jlint-off-next NAMES` for the line after it, where NAMES are names of rules with commas
/// between them, and spaces may follow. Any other comment switches nothing off.
///
/// `comments` and `lines` are those of the source, whose units are given.
pub fn off(
    alloc: Global,
    units: &[u16],
    comments: &[Comment],
    lines: &Lines,
) -> Result<Off, AllocError>
    requires short { length units.now < 4294967295 }
    requires comments { Comments units.now comments.now }
    requires lines { lines.now ≡ line_table units.now }
    ensures { IfOk result (λ off. off ≡ off_by units.now comments.now) }
{
    let mut pairs = BTreeSet::new(alloc);
    for comment in comments {
        add_comment(alloc, &mut pairs, units, comment, lines)?;
    }
    Off::of_set(alloc, &pairs)
}

/// Adds what a comment switches off.
fn add_comment(
    alloc: Global,
    pairs: &mut BTreeSet<(u32, u32)>,
    units: &[u16],
    comment: &Comment,
    lines: &Lines,
) -> Result<(), AllocError>
    requires short { length units.now < 4294967295 }
    requires begins { comment.now.span.from + 2 ≤ comment.now.span.to }
    requires ends { comment.now.span.to ≤ length units.now }
    requires lines { lines.now ≡ line_table units.now }
    ensures { OnOk result (pairs.new.keys ≡ with_pairs pairs.old.keys (pairs_of units.now comment.now)) }
{
    if !comment.to_line_end {
        return Ok(());
    }
    let (line, _) = lines.line_col(comment.span.from);
    let text = &units[comment.span.from as usize + 2..comment.span.to as usize];
    add_text(alloc, pairs, line, text)
}

/// Adds what a comment with this text after its `//` switches off, which begins on a line.
fn add_text(
    alloc: Global,
    pairs: &mut BTreeSet<(u32, u32)>,
    line: u32,
    text: &[u16],
) -> Result<(), AllocError>
    requires { line + 1 < 2 ^ 32 }
    ensures { OnOk result (pairs.new.keys ≡ with_pairs pairs.old.keys (pairs_of_text line text.now)) }
{
    if let Some(names) = text_after(text, " jlint-off ") {
        add_rules(alloc, pairs, line, names)?;
    }
    if let Some(names) = text_after(text, " jlint-off-next ") {
        add_rules(alloc, pairs, line + 1, names)?;
    }
    Ok(())
}

/// Switches the rules off for a line that a text names, if it names rules and nothing else.
fn add_rules(
    alloc: Global,
    pairs: &mut BTreeSet<(u32, u32)>,
    line: u32,
    text: &[u16],
) -> Result<(), AllocError>
    ensures { OnOk result (pairs.new.keys ≡ with_pairs pairs.old.keys (pairs_with line (rules_in text.now))) }
{
    if let Some(rules) = rules_in(alloc, text)? {
        for rule in &rules {
            add(pairs, line, *rule)?;
        }
    }
    Ok(())
}

fn add(pairs: &mut BTreeSet<(u32, u32)>, line: u32, rule: u32) -> Result<(), AllocError>
    ensures { OnOk result (pairs.new.keys ≡ insert_key by_line pairs.old.keys (line, rule)) }
{
    pairs.insert((line, rule))?;
    Ok(())
}

/// The numbers of the rules that a text names, if it names rules and nothing else.
fn rules_in(alloc: Global, text: &[u16]) -> Result<Option<Vec<u32>>, AllocError>
    ensures { IfOk result (λ found. option_map (λ rules. rules.items) found ≡ rules_in text.now) }
{
    let mut rules = Vec::new(alloc);
    let mut rest = without_last_spaces(text);
    while let Some((name, others)) = split_at_comma(rest) {
        let Some(rule) = rule_with(name) else {
            return Ok(None);
        };
        rules.push(rule)?;
        rest = others;
    }
    let Some(last) = rule_with(rest) else {
        return Ok(None);
    };
    rules.push(last)?;
    Ok(Some(rules))
}

/// What stands before the first comma of a text, and what follows it.
fn split_at_comma(text: &[u16]) -> Option<(&[u16], &[u16])>
    ensures parts { MatchOption result (slice_split (λ u. u == 44) text.now ≡ text.now ∷ [])
        (λ two. slice_split (λ u. u == 44) text.now ≡ two.0.now ∷ slice_split (λ u. u == 44) two.1.now) }
    ensures shorter { IfSome result (λ two. length two.1.now < length text.now) }
{
    match first_comma(text) {
        Some(end) => Some((&text[..end], &text[end + 1..])),
        None => None,
    }
}

fn first_comma(text: &[u16]) -> Option<usize>
    ensures within { IfSome result (λ at. at < length text.now) }
    ensures value { result ≡ position (λ u. u == 44) text.now }
{
    text.iter().position(|unit| *unit == COMMA)
}

/// The number of the rule with this name.
fn rule_with(name: &[u16]) -> Option<u32>
    ensures { result ≡ rule_with name.now }
{
    for rule in 1..=RULE_COUNT {
        if is_spelled(name, rule_name(rule).as_bytes()) {
            return Some(rule);
        }
    }
    None
}

/// A text without the spaces at its end.
fn without_last_spaces(text: &[u16]) -> &[u16]
    ensures { result.now ≡ without_last_spaces text.now }
{
    let mut end = text.len();
    while end > 0 {
        if text[end - 1] != SPACE {
            return &text[..end];
        }
        end -= 1;
    }
    &text[..end]
}

/// What follows a word of ASCII characters, where a text begins with it.
fn text_after<'a>(text: &'a [u16], word: &str) -> Option<&'a [u16]>
    ensures { option_copied result ≡ after word.now text.now }
{
    let mut rest = text;
    let mut bytes = word.as_bytes();
    while let [byte, more_bytes @ ..] = bytes {
        let [unit, more_units @ ..] = rest else {
            return None;
        };
        if *unit != u16::from(*byte) {
            return None;
        }
        rest = more_units;
        bytes = more_bytes;
    }
    Some(rest)
}
