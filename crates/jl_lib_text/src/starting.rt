//! The builtins of strings, and how each goes on.
ghost use Rattle.std.specs.Prelude.{◌+◌};
ghost use Rattle.jl_meaning.specs.builtins.String.{string_algorithm};
ghost use Rattle.jl_progress.specs.Strings.{rank_string, string_after};
ghost use Rattle.jl_state.specs.Clauses.{Computes, RankAtMost};
ghost use Rattle.jl_state.specs.Words.{call_of};

use crate::codes::{resume_char_code, string_from_char_code};
use crate::constructing::{resume_given, string_constructor, string_value};
use crate::cutting::{resume_end, resume_start};
use crate::joining::resume_joined;
use crate::methods::resume_this;
use crate::places::{resume_part, resume_place};
use crate::positions::resume_position;
use crate::splitting::{resume_limit, resume_separator};
use jl_progress::StringProgress;
use jl_state::{Act, Invocation, State};
use jl_text::NoMemory;
use jl_value::{StringBuiltin, Value};

/// Begins a builtin with a call that it borrows.
fn begin<'p>(
    state: &mut State<'p>,
    builtin: StringBuiltin,
    call: &Invocation,
) -> Result<Act<'p>, NoMemory>
    ensures refines { Computes state.old (string_algorithm builtin (call_of call.now)) result state.new }
    ensures bounded { RankAtMost state.old 76 result state.new }
{
    match builtin {
        StringBuiltin::Constructor => string_constructor(state, call),
        StringBuiltin::FromCharCode => string_from_char_code(state, call),
        StringBuiltin::ToString => string_value(state, call),
        StringBuiltin::ValueOf => string_value(state, call),
    }
}

/// Begins `String`, or a function of it or of its prototype that is no method of a string (15.5).
pub fn start<'p>(
    state: &mut State<'p>,
    builtin: StringBuiltin,
    call: Invocation,
) -> Result<Act<'p>, NoMemory>
    ensures refines { Computes state.old (string_algorithm builtin (call_of call)) result state.new }
    ensures bounded { RankAtMost state.old 400 result state.new }
{
    begin(state, builtin, &call)
}

/// Goes on with the value that a builtin of this crate waited for.
pub fn resume<'p>(
    state: &mut State<'p>,
    progress: StringProgress,
    v: Value,
) -> Result<Act<'p>, NoMemory>
    ensures refines { Computes state.old (string_after progress v) result state.new }
    ensures bounded { RankAtMost state.old (rank_string progress + 2) result state.new }
{
    match progress {
        StringProgress::Given { by_new } => resume_given(state, by_new, &v),
        StringProgress::CharCode { units, args, from } => {
            resume_char_code(state, units, args, from, &v)
        }
        StringProgress::This { method, args } => resume_this(state, method, &args, &v),
        StringProgress::Position { form, units } => { resume_position(state, form, units, &v) }
        StringProgress::Joined { units, args, from } => {
            resume_joined(state, units, args, from, &v)
        }
        StringProgress::Part {
            search,
            units,
            position,
        } => resume_part(state, search, units, position, &v),
        StringProgress::Place {
            search,
            units,
            part,
        } => resume_place(state, search, &units, &part, &v),
        StringProgress::Start { cut, units, end } => { resume_start(state, cut, units, end, &v) }
        StringProgress::End { cut, units, start } => { resume_end(state, cut, &units, start, &v) }
        StringProgress::Limit {
            units,
            array,
            separator,
        } => resume_limit(state, units, array, separator, &v),
        StringProgress::Separator {
            units,
            array,
            limit,
        } => resume_separator(state, &units, array, limit, &v),
    }
}
