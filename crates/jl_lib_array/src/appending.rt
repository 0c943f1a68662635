//! `concat` (15.4.4.4): the object, and then the arguments, are appended to a new array, one a turn.
ghost use Rattle.std.specs.Prelude.{◌≡◌, ◌+◌, ◌∷◌, false, true, drop, MatchOption};
ghost use Rattle.jl_heap.specs.Define.{count_of, length_name};
ghost use Rattle.jl_effects.specs.Effects.{Step};
ghost use Rattle.jl_lib_array.specs.inner.Functions.{concat_on};
ghost use Rattle.jl_meaning.specs.Getting.{get};
ghost use Rattle.jl_meaning.specs.Parts.{◌>>=◌ as ◌then◌};
ghost use Rattle.jl_meaning.specs.builtins.Arguments.{give_object};
ghost use Rattle.jl_meaning.specs.builtins.Array.{append, append_all, array_concat, is_array_value};
ghost use Rattle.jl_progress.specs.Arrays.{array_after, rank_array};
ghost use Rattle.jl_state.specs.Clauses.{Computes, RankAtMost};
ghost use Rattle.jl_state.specs.Words.{call_of};
ghost use Rattle.jl_value.specs.declared.value.Value.TheVariants as value;

use crate::frames::{add_then, begin_turn, wait};
use crate::places::sum;
use jl_algorithm::get;
use jl_builtin::{value_from, with_values};
use jl_progress::{AfterCopying, ArrayProgress, Copying};
use jl_state::{Act, Invocation, State};
use jl_store::{Answer, Store};
use jl_text::{List, NoMemory, word};
use jl_value::{Class, Completion, ObjId, Value};

/// `concat` begins.
pub(crate) fn array_concat<'p>(state: &mut State<'p>, call: Invocation) -> Result<Act<'p>, NoMemory>
    ensures refines { Computes state.old (array_concat (call_of call)) result state.new }
    ensures bounded { RankAtMost state.old 8 result state.new }
{
    let answer = state.store.to_object(&call.this)?;
    match answer {
        Answer::Gives(object) => concat(state, object, call.args.items()),
        Answer::Throws(thrown) => Ok(Act::Complete(Completion::Throw(thrown))),
    }
}

/// `concat` of an object and arguments.
fn concat<'p>(state: &mut State<'p>, object: ObjId, args: &[Value]) -> Result<Act<'p>, NoMemory>
    ensures refines { Computes state.old (concat_on object args.now) result state.new }
    ensures bounded { RankAtMost state.old 8 result state.new }
{
    let alloc = state.alloc();
    let array = state.store.new_array()?;
    let mut items = List::new(alloc);
    items.push(Value::Obj(object))?;
    let items = with_values(alloc, items, args)?;
    append_items(state, array, 0, items, 0)
}

/// The values from an index on are appended, one a turn, and then the array is given.
pub(crate) fn append_items<'p>(
    state: &mut State<'p>,
    array: ObjId,
    next: usize,
    values: List<Value>,
    from: usize,
) -> Result<Act<'p>, NoMemory>
    ensures refines { Computes state.old (append_all array next (drop from values) then λ _. give_object array) result
        state.new }
    ensures bounded { RankAtMost state.old 8 result state.new }
{
    let alloc = state.alloc();
    match value_from(alloc, values.items(), from)? {
        None => Ok(Act::Give(Value::Obj(array))),
        Some((v, after)) => {
            if !state.spend() {
                return Ok(Act::Spent);
            }
            append_item(state, array, next, v, values, after)
        }
    }
}

/// An item is appended, and then those from an index on.
fn append_item<'p>(
    state: &mut State<'p>,
    array: ObjId,
    next: usize,
    v: Value,
    items: List<Value>,
    from: usize,
) -> Result<Act<'p>, NoMemory>
    ensures refines { Computes state.old (append array next v then λ m. append_all array m (drop from items) then λ _.
        give_object array) result state.new }
    ensures bounded { RankAtMost state.old 100 result state.new }
{
    if let Some(item) = array_item(&state.store, &v) {
        let progress = ArrayProgress::ConcatLength {
            array,
            next,
            item,
            items,
            from,
        };
        return get_length(state, item, progress);
    }
    let after = sum(next, 1)?;
    let progress = ArrayProgress::ConcatItem {
        array,
        next: after,
        items,
        from,
    };
    add_then(state, array, next, v, progress)
}

/// The array that an item is, if it is one (15.4.4.4, step 5.b).
fn array_item(store: &Store, v: &Value) -> Option<ObjId>
    ensures { MatchOption result (is_array_value store.now.heap v.now ≡ false)
        (λ id. (v.now ≡ value.Obj id) × (is_array_value store.now.heap v.now ≡ true)) }
{
    match v {
        Value::Obj(id) if matches!(store.class_of(*id), Class::Array) => Some(*id),
        _ => None,
    }
}

/// The length of an item is got, for which `concat` waits.
fn get_length<'p>(
    state: &mut State<'p>,
    item: ObjId,
    progress: ArrayProgress,
) -> Result<Act<'p>, NoMemory>
    ensures refines { Computes state.old (get (value.Obj item) length_name then array_after progress) result state.new }
    ensures bounded { RankAtMost state.old (rank_array progress + 4) result state.new }
{
    let alloc = state.alloc();
    wait(state, progress)?;
    let name = word(alloc, "length")?;
    get(state, &Value::Obj(item), &name)
}

/// Goes on with the length of an item that is an array.
pub(crate) fn step_concat_length<'p>(
    state: &mut State<'p>,
    array: ObjId,
    next: usize,
    item: ObjId,
    items: List<Value>,
    from: usize,
    v: &Value,
) -> Result<Act<'p>, NoMemory>
    ensures refines { Computes state.old (array_after (ArrayProgress.ConcatLength array next item items from) v.now)
        result state.new }
    ensures bounded { RankAtMost state.old 92 result state.new }
{
    let left = count_of(v);
    let after = sum(next, left)?;
    let copying = Copying {
        object: item,
        start: 0,
        array,
        first: next,
        left,
        k: 0,
    };
    let then = AfterCopying::Concat {
        next: after,
        items,
        from,
    };
    begin_turn(state, ArrayProgress::CopyTurn { copying, then })
}

/// The number of elements that a length says.
fn count_of(v: &Value) -> usize
    ensures { result ≡ count_of v.now }
{
    let Value::Num(number) = v else {
        return 0;
    };
    match number.value() {
        Some(count) if count >= 0 => count as usize,
        _ => 0,
    }
}
