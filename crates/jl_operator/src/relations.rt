//! Relations of size (11.8.1 to 11.8.5).
ghost use Rattle.std.specs.Prelude.{◌≡◌, ◌≤◌};
ghost use Rattle.std.specs.Result.{result_ok};
ghost use Rattle.jl_conv.specs.Comparisons.{less_than};
ghost use Rattle.jl_meaning.specs.Conversions.{number_hint, to_primitive};
ghost use Rattle.jl_meaning.specs.Parts.{◌>>=◌ as ◌then◌};
ghost use Rattle.jl_meaning.specs.Relations.{opposite, or_false};
ghost use Rattle.jl_state.specs.AlgorithmFrames.{algorithm_after, compare};
ghost use Rattle.jl_state.specs.Clauses.{Computes, RankAtMost, ResumesAlgorithm};
ghost use Rattle.jl_state.specs.Rank.{rank_act};
ghost use Rattle.jl_state.specs.Rest.{RefinesAlgorithm};
ghost use Rattle.jl_state.specs.declared.state.State.{State as Machine};

use jl_algorithm::to_primitive;
use jl_ast::BinOp;
use jl_conv::primitive_less;
use jl_num::NumberOutside;
use jl_state::{Act, AlgorithmFrame, Hint, State};
use jl_text::NoMemory;
use jl_value::{Fault, Value, is_object};

/// Whether a primitive value is less than another (11.8.5), or None where a number is NaN. Refused for objects, too,
/// which no conversion gives.
fn less_than(x: &Value, y: &Value) -> Result<Option<bool>, NumberOutside>
    ensures { result_ok result ≡ less_than x.now y.now }
{
    match (x, y) {
        (Value::Obj(_), _) | (_, Value::Obj(_)) => Err(NumberOutside),
        _ => primitive_less(x, y),
    }
}

/// A relation, where a number that is NaN makes it false.
fn or_false(relation: Option<bool>) -> bool
    ensures { result ≡ or_false relation }
{
    relation.unwrap_or(false)
}

/// The negation of a relation, which a number that is NaN makes false, too.
fn opposite(relation: Option<bool>) -> bool
    ensures { result ≡ opposite relation }
{
    match relation {
        Some(holds) => !holds,
        None => false,
    }
}

/// A relation between two primitive values.
fn give_relation<'p>(op: BinOp, x: &Value, y: &Value) -> Act<'p>
    ensures refines { (s : Machine) → RefinesAlgorithm s (compare op x.now y.now) s result }
    ensures low { rank_act result ≤ 2 }
{
    let truth = match op {
        BinOp::Greater => less_than(y, x).map(or_false),
        BinOp::LessEq => less_than(y, x).map(opposite),
        BinOp::GreaterEq => less_than(x, y).map(opposite),
        _ => less_than(x, y).map(or_false),
    };
    match truth {
        Ok(truth) => Act::Give(Value::Bool(truth)),
        Err(NumberOutside) => Act::Fault(Fault::NumberOutside),
    }
}

/// Goes on with the right operand of a relation.
pub fn step_right_compared<'p>(
    state: &mut State<'p>,
    op: BinOp,
    left: Value,
    v: Value,
) -> Result<Act<'p>, NoMemory>
    ensures refines { ResumesAlgorithm state.old (AlgorithmFrame.RightCompared op left) v result state.new }
    ensures bounded { RankAtMost state.old 5 result state.new }
{
    Ok(give_relation(op, &left, &v))
}

/// Goes on with the left operand of a relation, which is converted first.
pub fn step_left_compared<'p>(
    state: &mut State<'p>,
    op: BinOp,
    right: Value,
    v: Value,
) -> Result<Act<'p>, NoMemory>
    ensures refines { ResumesAlgorithm state.old (AlgorithmFrame.LeftCompared op right) v result state.new }
    ensures bounded { RankAtMost state.old 22 result state.new }
{
    if is_object(&right) {
        state.push_algorithm(AlgorithmFrame::RightCompared { op, left: v })?;
        to_primitive(state, right, Hint::Number)
    } else {
        step_right_compared(state, op, v, right)
    }
}

/// The primitive values of both operands, the left one first, are compared (11.8.5).
pub(crate) fn compare<'p>(
    state: &mut State<'p>,
    op: BinOp,
    a: Value,
    b: Value,
) -> Result<Act<'p>, NoMemory>
    ensures refines { Computes state.old (to_primitive number_hint a then algorithm_after (AlgorithmFrame.LeftCompared
        op b)) result state.new }
    ensures bounded { RankAtMost state.old 40 result state.new }
{
    if is_object(&a) {
        state.push_algorithm(AlgorithmFrame::LeftCompared { op, right: b })?;
        to_primitive(state, a, Hint::Number)
    } else {
        step_left_compared(state, op, b, a)
    }
}
