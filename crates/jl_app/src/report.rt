ghost use Rattle.std.specs.Prelude.{◌≡◌, ◌<◌, ◌^◌, ℕ, List as Items, All, length, IfOk};
ghost use Rattle.jl_analysis.specs.Rules.{IsRule, all_rules};
ghost use Rattle.jl_command.specs.Meant.{IsChoice};
ghost use Rattle.jl_op.specs.Map.{BeginsIn};
ghost use Rattle.jl_op.specs.Operations.{Operation};
ghost use Rattle.jl_report.specs.Off.{off_by};
ghost use Rattle.jl_text.specs.Places.{line_table};
ghost use Rattle.jl_token.specs.Tokens.{Tokens, Comments};
ghost use Rattle.jl_token.specs.declared.token.Comment.{Comment as OneComment};
ghost use Rattle.jl_token.specs.declared.token.Token.{Token as OneToken};
ghost use Rattle.jl_app.specs.Reporting.{IsReport, lines_text};

use crate::source::Source;
use jl_analysis::{Crowd, Findings, RuleSet};
use jl_lex::{LexRefusal, comments};
use jl_op::{Observer, OpMap};
use jl_report::{Line, Off, line_text, off, report};
use std::alloc::{AllocError, Global};

/// The report of what the checkers of the chosen rules found at the parts of a source that a map shows, but for what
/// the comments of the source switch off.
pub(crate) fn report_in(
    alloc: Global,
    source: &Source,
    map: &OpMap,
    rules: RuleSet,
    crowd: &Crowd,
) -> Result<Vec<Line>, AllocError>
    requires lexed { (tokens : Items OneToken) × Tokens source.now tokens }
    requires places { All (BeginsIn (line_table source.now)) map.now }
    requires rules { ⟦<Crowd as Findings>⟧.rules crowd.now ≡ all_rules }
    ensures report { (chosen : Items ℕ) → IsChoice rules chosen → IfOk result (λ lines. (told : Items Operation)
        → ⟦<Crowd as Observer>⟧.stands_for crowd.now told → length told < 2 ^ 64
        → IsReport source.now map.now chosen told lines.items) }
    ensures rules { IfOk result (λ lines. All (λ x. IsRule x.rule) lines.items) }
{
    let off = switched_off(alloc, source)?;
    report(alloc, crowd, map, source.lines(), rules, &off)
}

/// What the comments of a source switch off.
pub(crate) fn switched_off(alloc: Global, source: &Source) -> Result<Off, AllocError>
    requires lexed { (tokens : Items OneToken) × Tokens source.now tokens }
    ensures { IfOk result (λ off. (found : Items OneComment) × Comments source.now found
        × (off ≡ off_by source.now found)) }
{
    match comments(alloc, source.units()) {
        Ok(found) => off(alloc, source.units(), &found, source.lines()),
        Err(LexRefusal::BadInput { .. }) => unreachable!(),
        Err(LexRefusal::NoMemory) => Err(AllocError),
    }
}

/// The text of a report, with LF after each line.
pub(crate) fn text(alloc: Global, lines: &[Line]) -> Result<Vec<u8>, AllocError>
    requires { All (λ x. IsRule x.rule) lines.now }
    ensures { IfOk result (λ text. text.items ≡ lines_text lines.now) }
{
    let mut text = Vec::new(alloc);
    for line in lines {
        text.extend_from_slice(&line_text(alloc, line)?)?;
        text.push(b'\n')?;
    }
    Ok(text)
}
