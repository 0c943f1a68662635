ghost use Rattle.std.specs.Prelude.{◌≡◌, IfOk};
ghost use Rattle.jl_analysis.specs.Rules.{IsRule};
ghost use Rattle.jl_report.specs.Texts.{line_bytes};

use jl_analysis::rule_name;
use std::alloc::{AllocError, Global};

/// A line of a report: how often a rule hit at a place. Lines and columns count from 1, and columns in UTF-16 units.
#[derive(Clone, Copy, PartialEq, Eq, Debug)]
pub struct Line {
    pub line: u32,
    pub column: u32,
    pub rule: u32,
    pub count: u64,
}

/// The text of a line, `LINE:COLUMN RULE COUNT`, without a line terminator.
pub fn line_text(alloc: Global, line: &Line) -> Result<Vec<u8>, AllocError>
    requires { IsRule line.now.rule }
    ensures { IfOk result (λ text. text.items ≡ line_bytes line.now) }
{
    let place = line.line;
    let column = line.column;
    let rule = rule_name(line.rule);
    let count = line.count;
    let text = format!(in alloc; "{place}:{column} {rule} {count}")?;
    Ok(text.into_bytes())
}
