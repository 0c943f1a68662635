//! `Math.max` and `Math.min` (15.8.2.11, 15.8.2.12).
ghost use Rattle.std.specs.Prelude.{◌≡◌, ◌≤◌, ◌∷◌, drop, Option};
ghost use Rattle.jl_lib_misc.specs.inner.Extremes.{next_extreme};
ghost use Rattle.jl_meaning.specs.Operators.{give_number};
ghost use Rattle.jl_meaning.specs.builtins.Math.{one_of, one_of_all};
ghost use Rattle.jl_progress.specs.Numbers.{number_after, pick_of};
ghost use Rattle.jl_progress.specs.declared.number.NumberProgress.TheVariants as progress;
ghost use Rattle.jl_state.specs.Clauses.{Computes, RankAtMost};
ghost use Rattle.jl_state.specs.Rank.{rank_act};
ghost use Rattle.jl_state.specs.Rest.{RefinesAlgorithm};
ghost use Rattle.jl_state.specs.declared.state.State.{State as Machine};

use jl_builtin::{copy_of, value_from, wait_for_number};
use jl_num::{Num, NumberOutside};
use jl_operator::number_of;
use jl_progress::{Extreme, NumberProgress, Progress};
use jl_state::{Act, State};
use jl_text::{List, NoMemory};
use jl_value::{Fault, Value};

/// One of two numbers; NaN where one is NaN.
fn one_of(extreme: Extreme, m: Num, n: Num) -> Num
    ensures { result ≡ one_of (pick_of extreme) m n }
{
    match (m.value(), n.value()) {
        (Some(a), Some(b)) => {
            let is_first = match extreme {
                Extreme::Greatest => a >= b,
                Extreme::Least => a <= b,
            };
            if is_first { m } else { n }
        }
        _ => Num::NAN,
    }
}

/// The number so far, when there is one more.
fn next_extreme(extreme: Extreme, so_far: Option<Num>, n: Num) -> Num
    ensures { result ≡ next_extreme extreme so_far n }
{
    match so_far {
        Some(m) => one_of(extreme, m, n),
        None => n,
    }
}

/// The number so far is given; without an argument it would be an infinity.
fn give_extreme<'p>(so_far: Option<Num>) -> Act<'p>
    ensures refines { (s : Machine) → RefinesAlgorithm s (give_number so_far) s result }
    ensures low { rank_act result ≤ 2 }
{
    match so_far {
        Some(n) => Act::Give(Value::Num(n)),
        None => Act::Fault(Fault::NumberOutside),
    }
}

/// An argument takes a step, and is converted; those from an index on wait.
fn convert_next<'p>(
    state: &mut State<'p>,
    extreme: Extreme,
    so_far: Option<Num>,
    v: Value,
    args: List<Value>,
    from: usize,
) -> Result<Act<'p>, NoMemory>
    ensures refines { Computes state.old (one_of_all (pick_of extreme) so_far (v ∷ drop from args)) result state.new }
    ensures bounded { RankAtMost state.old 1 result state.new }
{
    if !state.spend() {
        return Ok(Act::Spent);
    }
    let progress = Progress::Number(NumberProgress::Extreme {
        extreme,
        so_far,
        args,
        from,
    });
    wait_for_number(state, progress, v)
}

/// The greatest or least of the number so far and the arguments from an index on, one a turn.
fn one_of_all<'p>(
    state: &mut State<'p>,
    extreme: Extreme,
    so_far: Option<Num>,
    args: List<Value>,
    from: usize,
) -> Result<Act<'p>, NoMemory>
    ensures refines { Computes state.old (one_of_all (pick_of extreme) so_far (drop from args)) result state.new }
    ensures bounded { RankAtMost state.old 3 result state.new }
{
    let alloc = state.alloc();
    match value_from(alloc, args.items(), from)? {
        None => Ok(give_extreme(so_far)),
        Some((v, next)) => convert_next(state, extreme, so_far, v, args, next),
    }
}

/// `Math.max(value1, ..)` and `Math.min(value1, ..)` (15.8.2.11, 15.8.2.12).
pub(crate) fn one_of_arguments<'p>(
    state: &mut State<'p>,
    extreme: Extreme,
    args: &[Value],
) -> Result<Act<'p>, NoMemory>
    ensures refines { Computes state.old (one_of_all (pick_of extreme) Option.None args.now) result state.new }
    ensures bounded { RankAtMost state.old 3 result state.new }
{
    let alloc = state.alloc();
    let args = copy_of(alloc, args)?;
    one_of_all(state, extreme, None, args, 0)
}

/// Goes on with an argument that has been converted.
pub(crate) fn resume_extreme<'p>(
    state: &mut State<'p>,
    extreme: Extreme,
    so_far: Option<Num>,
    args: List<Value>,
    from: usize,
    p: &Value,
) -> Result<Act<'p>, NoMemory>
    ensures refines { Computes state.old (number_after (progress.Extreme extreme so_far args from) p.now) result
        state.new }
    ensures bounded { RankAtMost state.old 3 result state.new }
{
    match number_of(p) {
        Ok(n) => {
            let next = next_extreme(extreme, so_far, n);
            one_of_all(state, extreme, Some(next), args, from)
        }
        Err(NumberOutside) => Ok(Act::Fault(Fault::NumberOutside)),
    }
}
