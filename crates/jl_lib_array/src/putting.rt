//! Values that are put from an index on, one a turn (15.4.4.7, 15.4.4.11 to 15.4.4.13).
ghost use Rattle.std.specs.Prelude.{◌≡◌, ◌+◌, drop};
ghost use Rattle.jl_meaning.specs.Parts.{◌>>=◌ as ◌then◌};
ghost use Rattle.jl_meaning.specs.builtins.Elements.{give_length, put_index};
ghost use Rattle.jl_progress.specs.Arrays.{after_putting, put_others};
ghost use Rattle.jl_state.specs.Clauses.{Computes, RankAtMost};

use crate::frames::{begin_turn, put_then};
use crate::places::sum;
use jl_builtin::{put_length, value_from};
use jl_progress::{AfterPutting, ArrayProgress};
use jl_state::{Act, State};
use jl_store::count;
use jl_text::{List, NoMemory};
use jl_value::{ObjId, Value};

/// A turn begins in which a value is put, if any is left from an index on.
pub(crate) fn put_turn<'p>(
    state: &mut State<'p>,
    object: ObjId,
    index: usize,
    values: List<Value>,
    from: usize,
    next: AfterPutting,
) -> Result<Act<'p>, NoMemory>
    ensures refines { Computes state.old (put_others object index (drop from values) next) result state.new }
    ensures bounded { RankAtMost state.old 52 result state.new }
{
    let alloc = state.alloc();
    match value_from(alloc, values.items(), from)? {
        None => after_putting(state, object, index, next),
        Some((v, after)) => {
            if !state.spend() {
                return Ok(Act::Spent);
            }
            put_value(state, object, index, v, values, after, next)
        }
    }
}

/// A value is put, and then those that are left from an index on.
fn put_value<'p>(
    state: &mut State<'p>,
    object: ObjId,
    index: usize,
    v: Value,
    values: List<Value>,
    from: usize,
    next: AfterPutting,
) -> Result<Act<'p>, NoMemory>
    ensures refines { Computes state.old (put_index object index v then λ _. put_others object (index + 1) (drop from
        values) next) result state.new }
    ensures bounded { RankAtMost state.old 100 result state.new }
{
    let after = sum(index, 1)?;
    let progress = ArrayProgress::PutTurn {
        object,
        index: after,
        values,
        from,
        then: next,
    };
    put_then(state, object, index, v, progress)
}

/// What follows when all values have been put, where the index is that after them.
fn after_putting<'p>(
    state: &mut State<'p>,
    object: ObjId,
    index: usize,
    next: AfterPutting,
) -> Result<Act<'p>, NoMemory>
    ensures refines { Computes state.old (after_putting object next index) result state.new }
    ensures bounded { RankAtMost state.old 52 result state.new }
{
    match next {
        AfterPutting::Push => give_length(state, object, index),
        AfterPutting::Unshift { length } => give_length(state, object, length),
        AfterPutting::Splice { array, length } => {
            put_length(state, object, length, Value::Obj(array))
        }
        AfterPutting::Sort { length } => {
            let left = length.saturating_sub(index);
            let progress = ArrayProgress::DeleteUp {
                object,
                index,
                left,
            };
            begin_turn(state, progress)
        }
    }
}

/// A length is put, and then given.
fn give_length<'p>(state: &mut State<'p>, object: ObjId, length: usize) -> Result<Act<'p>, NoMemory>
    ensures refines { Computes state.old (give_length object length) result state.new }
    ensures bounded { RankAtMost state.old 42 result state.new }
{
    let gives = count(length)?;
    put_length(state, object, length, gives)
}
