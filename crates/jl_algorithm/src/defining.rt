//! Properties defined (8.12.9, 15.4.5.1).
ghost use Rattle.std.specs.Prelude.{◌≡◌, true};
ghost use Rattle.jl_heap.specs.Define.{FitsLength, IsOneKind};
ghost use Rattle.jl_meaning.specs.Defining.{define_own_property, define_with_number};
ghost use Rattle.jl_meaning.specs.Parts.{◌>>=◌ as ◌then◌};
ghost use Rattle.jl_state.specs.AlgorithmFrames.{after_define};
ghost use Rattle.jl_algorithm.specs.inner.Lengths.{is_array_length};
ghost use Rattle.jl_state.specs.Clauses.{Computes, RankAtMost};

use crate::errors::throw_native;
use crate::primitive::to_primitive;
use jl_heap::Change;
use jl_state::{Act, AfterDefine, AlgorithmFrame, Attributes, Boxed, Hint, State};
use jl_store::Store;
use jl_text::{NoMemory, Text};
use jl_value::{Class, ErrorKind, ObjId, Value, share};

/// The units of the name `length`.
const LENGTH: [u16; 6] = [0x6C, 0x65, 0x6E, 0x67, 0x74, 0x68];

/// [[DefineOwnProperty]] (8.12.9, 10.6, 15.4.5.1), and then what the property is defined for. The value of a length of
/// an array is converted to a number first, and throws a RangeError where that is no length.
pub fn define_own_property<'p>(
    state: &mut State<'p>,
    id: ObjId,
    name: &Text,
    change: Change,
    purpose: AfterDefine,
) -> Result<Act<'p>, NoMemory>
    requires { IsOneKind change }
    ensures refines { Computes state.old (define_own_property id name.now change then after_define purpose) result
        state.new }
    ensures bounded { RankAtMost state.old 40 result state.new }
{
    if is_array_length(&state.store, id, name) {
        return define_length(state, id, name, change, purpose);
    }
    define_now(state, id, name, change, purpose)
}

/// The same of the length of an array, whose value is converted twice (15.4.5.1, steps 3.c and 3.d).
#[tactic(auto, using(crate::proofs::Defined::converts_length))]
fn define_length<'p>(
    state: &mut State<'p>,
    id: ObjId,
    name: &Text,
    change: Change,
    purpose: AfterDefine,
) -> Result<Act<'p>, NoMemory>
    requires one_kind { IsOneKind change }
    requires length { is_array_length state.old.store id name.now ≡ true }
    ensures refines { Computes state.old (define_own_property id name.now change then after_define purpose) result
        state.new }
    ensures bounded { RankAtMost state.old 40 result state.new }
{
    let alloc = state.alloc();
    let Some(length) = &change.value else {
        return define_now(state, id, name, change, purpose);
    };
    let v = share(alloc, length)?;
    let length = share(alloc, length)?;
    state.push_algorithm(AlgorithmFrame::LengthCount {
        array: id,
        length,
        attributes: Attributes {
            writable: change.writable,
            enumerable: change.enumerable,
            configurable: change.configurable,
        },
        purpose: Boxed::of(alloc, purpose)?,
    })?;
    to_primitive(state, v, Hint::Number)
}

/// [[DefineOwnProperty]] of a change in which a length of an array is a number already, and then what the property is
/// defined for.
pub(crate) fn define_now<'p>(
    state: &mut State<'p>,
    id: ObjId,
    name: &Text,
    change: Change,
    purpose: AfterDefine,
) -> Result<Act<'p>, NoMemory>
    requires one_kind { IsOneKind change }
    requires length { FitsLength state.old.store.heap id.0 name.now change }
    ensures refines { Computes state.old (define_with_number id name.now change then after_define purpose) result
        state.new }
    ensures bounded { RankAtMost state.old 3 result state.new }
{
    let done = state.store.define_with_number(id, name, change)?;
    after_define(state, purpose, done)
}

/// What follows when a property has been defined, or that was rejected: a put throws a TypeError if it is asked to,
/// and a builtin always.
pub(crate) fn after_define<'p>(
    state: &mut State<'p>,
    purpose: AfterDefine,
    done: bool,
) -> Result<Act<'p>, NoMemory>
    ensures refines { Computes state.old (after_define purpose done) result state.new }
    ensures bounded { RankAtMost state.old 3 result state.new }
{
    match purpose {
        AfterDefine::Literal => Ok(Act::Give(Value::Undefined)),
        AfterDefine::Put { throwing, gives } => {
            if throwing && !done {
                return throw_native(state, ErrorKind::TypeError, "cannot write");
            }
            Ok(Act::Give(gives))
        }
        AfterDefine::Builtin { gives } => {
            if !done {
                return throw_native(state, ErrorKind::TypeError, "cannot define");
            }
            Ok(Act::Give(gives))
        }
    }
}

/// Whether a property is the length of an array.
#[tactic(auto, unfolding(jl_heap::specs::Define::length_name))]
fn is_array_length(store: &Store, id: ObjId, name: &Text) -> bool
    ensures { result ≡ is_array_length store.now id name.now }
{
    match store.class_of(id) {
        Class::Array => name.units() == LENGTH.as_slice(),
        _ => false,
    }
}
