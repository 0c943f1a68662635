//! `print` and `console.log`.
ghost use Rattle.std.specs.Prelude.{◌≡◌, ◌∷◌, ◌++◌, ◌+◌, [], drop, nat_le, IfOk, OnOk};
ghost use Rattle.jl_conv.specs.Conversions.{text_of_value};
ghost use Rattle.jl_effects.specs.Effects.{Step};
ghost use Rattle.jl_meaning.specs.Conversions.{to_string};
ghost use Rattle.jl_meaning.specs.Parts.{◌>>=◌ as ◌then◌};
ghost use Rattle.jl_meaning.specs.builtins.Global.{print_all, print_line, print_others};
ghost use Rattle.jl_progress.specs.Globals.{line_with};
ghost use Rattle.jl_state.specs.Clauses.{Computes, RankAtMost};

use jl_builtin::{copy_of, value_from, wait_for_string, with_units};
use jl_operator::text_of;
use jl_progress::{GlobalProgress, Progress};
use jl_state::{Act, State};
use jl_text::{List, NoMemory, to_utf8};
use jl_value::{Fault, Value};
use std::alloc::Global;

/// The most bytes that a run prints.
const OUTPUT_LIMIT: usize = 16_777_216;

/// Whether a line of so many bytes, and its end, has room after so many.
fn has_room(printed: usize, line: usize) -> bool
    ensures { result ≡ nat_le (printed + (line + 1)) 16777216 }
{
    printed < OUTPUT_LIMIT && line < OUTPUT_LIMIT - printed
}

/// A line comes last in the output.
fn append_line(output: &mut List<u8>, line: &[u8]) -> Result<(), NoMemory>
    ensures { OnOk result (output.new ≡ output.old ++ line.now ++ 10 ∷ []) }
{
    for byte in line {
        output.push(*byte)?;
    }
    output.push(b'\n')?;
    Ok(())
}

/// A line is printed in UTF-8, where there is room for it.
fn print_line<'p>(state: &mut State<'p>, units: &[u16]) -> Result<Act<'p>, NoMemory>
    ensures refines { Computes state.old (print_line units.now) result state.new }
    ensures bounded { RankAtMost state.old 3 result state.new }
{
    let alloc = state.alloc();
    let bytes = to_utf8(alloc, units)?;
    let line = bytes.as_slice();
    if !has_room(state.output.len(), line.len()) {
        return Ok(Act::Fault(Fault::OutputTooLong));
    }
    append_line(&mut state.output, line)?;
    Ok(Act::Give(Value::Undefined))
}

/// The line with one more argument, after a space if it isn't the first.
fn line_with(
    alloc: Global,
    line: List<u16>,
    is_first: bool,
    units: &[u16],
) -> Result<List<u16>, NoMemory>
    ensures { IfOk result (λ longer. longer ≡ line_with line is_first units.now) }
{
    if is_first {
        return with_units(List::new(alloc), units);
    }
    let spaced = with_units(line, &[32])?;
    with_units(spaced, units)
}

/// An argument takes a step, and is converted; those from an index on wait.
fn print_argument<'p>(
    state: &mut State<'p>,
    line: List<u16>,
    is_first: bool,
    v: Value,
    args: List<Value>,
    from: usize,
) -> Result<Act<'p>, NoMemory>
    ensures refines { Computes state.old (Step (to_string v then λ units. print_others (line_with line is_first units)
        (drop from args))) result state.new }
    ensures bounded { RankAtMost state.old 1 result state.new }
{
    if !state.spend() {
        return Ok(Act::Spent);
    }
    let progress = Progress::Global(GlobalProgress::Print {
        line,
        is_first,
        args,
        from,
    });
    wait_for_string(state, progress, v)
}

/// The arguments from an index on, after those that the line has, or the end of the line.
fn print_others<'p>(
    state: &mut State<'p>,
    line: List<u16>,
    args: List<Value>,
    from: usize,
) -> Result<Act<'p>, NoMemory>
    ensures refines { Computes state.old (print_others line (drop from args)) result state.new }
    ensures bounded { RankAtMost state.old 3 result state.new }
{
    let alloc = state.alloc();
    match value_from(alloc, args.items(), from)? {
        None => print_line(state, line.items()),
        Some((v, next)) => print_argument(state, line, false, v, args, next),
    }
}

/// `print(..)` and `console.log(..)`: the arguments as strings, with a space between each two.
pub(crate) fn print<'p>(state: &mut State<'p>, args: &[Value]) -> Result<Act<'p>, NoMemory>
    ensures refines { Computes state.old (print_all args.now) result state.new }
    ensures bounded { RankAtMost state.old 3 result state.new }
{
    let alloc = state.alloc();
    let line = List::new(alloc);
    let args = copy_of(alloc, args)?;
    match value_from(alloc, args.items(), 0)? {
        None => print_line(state, line.items()),
        Some((v, next)) => print_argument(state, line, true, v, args, next),
    }
}

/// Goes on with an argument that has been converted.
pub(crate) fn resume_print<'p>(
    state: &mut State<'p>,
    line: List<u16>,
    is_first: bool,
    args: List<Value>,
    from: usize,
    p: &Value,
) -> Result<Act<'p>, NoMemory>
    ensures refines { Computes state.old (print_others (line_with line is_first (text_of_value p.now)) (drop from
        args)) result state.new }
    ensures bounded { RankAtMost state.old 3 result state.new }
{
    let alloc = state.alloc();
    let text = text_of(alloc, p)?;
    let line = line_with(alloc, line, is_first, text.units())?;
    print_others(state, line, args, from)
}
