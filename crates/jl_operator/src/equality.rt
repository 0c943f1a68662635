//! Equalities (11.9).
ghost use Rattle.std.specs.Prelude.{◌≡◌, ◌≤◌, false, true, not, if◌then◌else◌};
ghost use Rattle.std.specs.Result.{result_ok};
ghost use Rattle.jl_value.specs.Tests.{is_object};
ghost use Rattle.jl_conv.specs.Comparisons.{loosely_equal, strictly_equal};
ghost use Rattle.jl_meaning.specs.Relations.{abstract_equality, equality_of_object, give_truth, negate_if};
ghost use Rattle.jl_meaning.specs.Relations.{primitive_equality};
ghost use Rattle.jl_state.specs.Clauses.{Computes, RankAtMost, ResumesAlgorithm};
ghost use Rattle.jl_state.specs.Rank.{rank_act};
ghost use Rattle.jl_state.specs.Rest.{RefinesAlgorithm};
ghost use Rattle.jl_state.specs.declared.state.State.{State as Machine};

use jl_algorithm::to_primitive;
use jl_conv::{primitive_equal, strict_equal};
use jl_num::NumberOutside;
use jl_state::{Act, AlgorithmFrame, Hint, State};
use jl_text::NoMemory;
use jl_value::{Fault, ObjId, Value, is_nothing, is_object};

/// `a == b` of values that need no conversion of an object (11.9.3). An object equals no other value.
fn loosely_equal(a: &Value, b: &Value) -> Result<bool, NumberOutside>
    ensures { result_ok result ≡ loosely_equal a.now b.now }
{
    if is_object(a) == is_object(b) {
        primitive_equal(a, b)
    } else {
        Ok(false)
    }
}

/// An equality of values that need no conversion of an object, or its negation.
fn equal_primitives<'p>(is_negative: bool, a: &Value, b: &Value) -> Act<'p>
    ensures refines { (s : Machine) → RefinesAlgorithm s (negate_if is_negative (primitive_equality a.now b.now)) s
        result }
    ensures low { rank_act result ≤ 2 }
{
    match loosely_equal(a, b) {
        Ok(truth) => Act::Give(Value::Bool(truth != is_negative)),
        Err(NumberOutside) => Act::Fault(Fault::NumberOutside),
    }
}

/// Goes on with the primitive value of an object that is compared with another value.
pub fn step_equal_to<'p>(
    state: &mut State<'p>,
    other: Value,
    is_negative: bool,
    v: Value,
) -> Result<Act<'p>, NoMemory>
    ensures refines { ResumesAlgorithm state.old (AlgorithmFrame.EqualTo other is_negative) v result state.new }
    ensures bounded { RankAtMost state.old 5 result state.new }
{
    Ok(equal_primitives(is_negative, &v, &other))
}

/// An equality of an object with a value that is none (11.9.3, steps 8 and 9).
fn equal_object<'p>(
    state: &mut State<'p>,
    is_negative: bool,
    object: Value,
    other: Value,
) -> Result<Act<'p>, NoMemory>
    ensures refines { Computes state.old (negate_if is_negative (equality_of_object object other)) result state.new }
    ensures bounded { RankAtMost state.old 30 result state.new }
{
    if is_nothing(&other) {
        return Ok(Act::Give(Value::Bool(is_negative)));
    }
    state.push_algorithm(AlgorithmFrame::EqualTo { other, is_negative })?;
    to_primitive(state, object, Hint::None)
}

/// `a == b` of an object with another value, or its negation.
fn object_equals<'p>(
    state: &mut State<'p>,
    is_negative: bool,
    a: Value,
    b: Value,
) -> Result<Act<'p>, NoMemory>
    requires { is_object a ≡ true }
    ensures refines { Computes state.old (negate_if is_negative (abstract_equality a b)) result state.new }
    ensures bounded { RankAtMost state.old 40 result state.new }
{
    if is_object(&b) {
        Ok(equal_primitives(is_negative, &a, &b))
    } else {
        equal_object(state, is_negative, a, b)
    }
}

/// `a == b` of a value that is no object with another one, or its negation.
fn primitive_equals<'p>(
    state: &mut State<'p>,
    is_negative: bool,
    a: Value,
    b: Value,
) -> Result<Act<'p>, NoMemory>
    requires { is_object a ≡ false }
    ensures refines { Computes state.old (negate_if is_negative (abstract_equality a b)) result state.new }
    ensures bounded { RankAtMost state.old 40 result state.new }
{
    if is_object(&b) {
        equal_object(state, is_negative, b, a)
    } else {
        Ok(equal_primitives(is_negative, &a, &b))
    }
}

/// `a == b`, or its negation (11.9.1 to 11.9.3).
pub(crate) fn equal<'p>(
    state: &mut State<'p>,
    is_negative: bool,
    a: Value,
    b: Value,
) -> Result<Act<'p>, NoMemory>
    ensures refines { Computes state.old (negate_if is_negative (abstract_equality a b)) result state.new }
    ensures bounded { RankAtMost state.old 40 result state.new }
{
    if is_object(&a) {
        object_equals(state, is_negative, a, b)
    } else {
        primitive_equals(state, is_negative, a, b)
    }
}

/// `a === b`, or its negation (11.9.4 to 11.9.6).
pub(crate) fn strictly_equal<'p>(is_negative: bool, a: &Value, b: &Value) -> Act<'p>
    ensures refines { (s : Machine) → RefinesAlgorithm s (give_truth (if is_negative
        then not (strictly_equal a.now b.now) else strictly_equal a.now b.now)) s result }
    ensures low { rank_act result ≤ 2 }
{
    Act::Give(Value::Bool(strict_equal(a, b) != is_negative))
}
