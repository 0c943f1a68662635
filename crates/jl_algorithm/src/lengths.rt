//! Lengths of arrays defined, when their values have been converted (15.4.5.1).
ghost use Rattle.std.specs.Prelude.{◌≡◌, pos, Some};
ghost use Rattle.jl_conv.specs.Conversions.{number_of_value};
ghost use Rattle.jl_value.specs.Same.{same_number};
ghost use Rattle.jl_state.specs.AlgorithmFrames.{define_length};
ghost use Rattle.jl_state.specs.Clauses.{Computes, RankAtMost, ResumesAlgorithm};

use crate::defining::define_now;
use crate::errors::throw_native;
use crate::primitive::to_primitive;
use jl_conv::primitive_to_num;
use jl_heap::Change;
use jl_num::{Num, to_uint32};
use jl_state::{Act, AfterDefine, AlgorithmFrame, Attributes, Boxed, Hint, State};
use jl_text::{NoMemory, word};
use jl_value::{ErrorKind, Fault, ObjId, Value};

/// Goes on when the length of an array has been converted to a primitive value: it is converted once more (15.4.5.1,
/// step 3.d).
#[tactic(auto, using(crate::proofs::Defined::outside))]
pub fn step_length_count<'p>(
    state: &mut State<'p>,
    array: ObjId,
    length: Value,
    attributes: Attributes,
    purpose: Boxed<AfterDefine>,
    v: Value,
) -> Result<Act<'p>, NoMemory>
    ensures refines { ResumesAlgorithm state.old (AlgorithmFrame.LengthCount array length attributes purpose) v result
        state.new }
    ensures bounded { RankAtMost state.old 22 result state.new }
{
    let Some(first) = number_of(&v) else {
        return Ok(Act::Fault(Fault::NumberOutside));
    };
    state.push_algorithm(AlgorithmFrame::LengthNumber {
        array,
        count: to_uint32(first),
        attributes,
        purpose,
    })?;
    to_primitive(state, length, Hint::Number)
}

/// Goes on when it has been converted a second time: where it is a length, it is defined.
#[tactic(auto, using(crate::proofs::Defined::outside, crate::proofs::Defined::numbers_length))]
pub fn step_length_number<'p>(
    state: &mut State<'p>,
    array: ObjId,
    count: u32,
    attributes: Attributes,
    purpose: Boxed<AfterDefine>,
    v: Value,
) -> Result<Act<'p>, NoMemory>
    ensures refines { ResumesAlgorithm state.old (AlgorithmFrame.LengthNumber array count attributes purpose) v result
        state.new }
    ensures bounded { RankAtMost state.old 5 result state.new }
{
    let Some(n) = number_of(&v) else {
        return Ok(Act::Fault(Fault::NumberOutside));
    };
    define_length(state, array, count, attributes, purpose.into_inner(), n)
}

/// The length of an array is defined, where the number is this count (15.4.5.1, step 3.d).
#[tactic(auto, using(crate::proofs::Defined::fits_count))]
fn define_length<'p>(
    state: &mut State<'p>,
    array: ObjId,
    count: u32,
    attributes: Attributes,
    purpose: AfterDefine,
    n: Num,
) -> Result<Act<'p>, NoMemory>
    ensures refines { Computes state.old (define_length array count attributes purpose n) result state.new }
    ensures bounded { RankAtMost state.old 3 result state.new }
{
    let alloc = state.alloc();
    if !is_count(n, count) {
        return throw_native(state, ErrorKind::RangeError, "bad array length");
    }
    let name = word(alloc, "length")?;
    let change = Change {
        value: Some(Value::Num(n)),
        writable: attributes.writable,
        get: None,
        set: None,
        enumerable: attributes.enumerable,
        configurable: attributes.configurable,
    };
    define_now(state, array, &name, change, purpose)
}

/// Whether a number is this count.
pub fn is_count(n: Num, count: u32) -> bool
    ensures { result ≡ same_number (Some (pos count)) n }
{
    match n.value() {
        Some(n) => i64::from(count) == n,
        None => false,
    }
}

/// ToNumber of a value that is no object (9.3), where that is a number of the language.
fn number_of(v: &Value) -> Option<Num>
    ensures { result ≡ number_of_value v.now }
{
    match v {
        Value::Obj(_) => None,
        Value::Undefined | Value::Null | Value::Bool(_) | Value::Num(_) | Value::Text(_) => {
            primitive_to_num(v).ok()
        }
    }
}
