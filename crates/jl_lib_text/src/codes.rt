//! `String.fromCharCode` (15.5.3.2).
ghost use Rattle.std.specs.Prelude.{◌∷◌, drop};
ghost use Rattle.jl_meaning.specs.builtins.String.{string_from_char_code};
ghost use Rattle.jl_progress.specs.Strings.{string_after};
ghost use Rattle.jl_progress.specs.declared.string.StringProgress.TheVariants as progress;
ghost use Rattle.jl_lib_text.specs.inner.Turns.{string_of_codes};
ghost use Rattle.jl_state.specs.Clauses.{Computes, RankAtMost};
ghost use Rattle.jl_state.specs.Words.{call_of};

use jl_builtin::{copy_of, give_text, value_from, wait_for_number, with_units};
use jl_num::{NumberOutside, to_uint16};
use jl_operator::number_of;
use jl_progress::{Progress, StringProgress};
use jl_state::{Act, Invocation, State};
use jl_text::{List, NoMemory};
use jl_value::{Fault, Value};

/// The arguments from an index on as units after those so far, one a turn, and then the string of all.
fn string_of_codes<'p>(
    state: &mut State<'p>,
    units: List<u16>,
    args: List<Value>,
    from: usize,
) -> Result<Act<'p>, NoMemory>
    ensures refines { Computes state.old (string_of_codes units (drop from args)) result state.new }
    ensures bounded { RankAtMost state.old 3 result state.new }
{
    let alloc = state.alloc();
    match value_from(alloc, args.items(), from)? {
        None => give_text(alloc, units.items()),
        Some((v, next)) => convert_code(state, units, v, args, next),
    }
}

/// An argument takes a step, and is converted; those from an index on wait.
fn convert_code<'p>(
    state: &mut State<'p>,
    units: List<u16>,
    v: Value,
    args: List<Value>,
    from: usize,
) -> Result<Act<'p>, NoMemory>
    ensures refines { Computes state.old (string_of_codes units (v ∷ drop from args)) result state.new }
    ensures bounded { RankAtMost state.old 1 result state.new }
{
    if !state.spend() {
        return Ok(Act::Spent);
    }
    let progress = Progress::String(StringProgress::CharCode { units, args, from });
    wait_for_number(state, progress, v)
}

/// `String.fromCharCode(char0, ..)` (15.5.3.2).
pub(crate) fn string_from_char_code<'p>(
    state: &mut State<'p>,
    call: &Invocation,
) -> Result<Act<'p>, NoMemory>
    ensures refines { Computes state.old (string_from_char_code (call_of call.now)) result state.new }
    ensures bounded { RankAtMost state.old 3 result state.new }
{
    let alloc = state.alloc();
    let units = List::new(alloc);
    let args = copy_of(alloc, call.args.items())?;
    string_of_codes(state, units, args, 0)
}

/// Goes on with an argument that has been converted.
pub(crate) fn resume_char_code<'p>(
    state: &mut State<'p>,
    units: List<u16>,
    args: List<Value>,
    from: usize,
    p: &Value,
) -> Result<Act<'p>, NoMemory>
    ensures refines { Computes state.old (string_after (progress.CharCode units args from) p.now) result state.new }
    ensures bounded { RankAtMost state.old 3 result state.new }
{
    match number_of(p) {
        Ok(n) => {
            let units = with_units(units, &[to_uint16(n)])?;
            string_of_codes(state, units, args, from)
        }
        Err(NumberOutside) => Ok(Act::Fault(Fault::NumberOutside)),
    }
}
