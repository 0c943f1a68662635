//! Elements of objects that are taken for arrays (15.4.4).
ghost use Rattle.std.specs.Prelude.{◌≡◌, pos, IfOk};
ghost use Rattle.std.specs.Result.{result_ok};
ghost use Rattle.jl_num.specs.Arithmetic.{number_of};
ghost use Rattle.jl_meaning.specs.Parts.{give, ◌>>=◌ as ◌then◌};
ghost use Rattle.jl_meaning.specs.builtins.Elements.{delete_index, get_index, has_index, put_index, put_length};
ghost use Rattle.jl_state.specs.Clauses.{Computes, RankAtMost};
ghost use Rattle.jl_store.specs.Answers.{ends_with};
ghost use Rattle.jl_store.specs.BigStep.{BigStep};

use jl_algorithm::{delete, get, put};
use jl_num::{Num, NumberOutside};
use jl_state::{Act, State};
use jl_store::{Answer, Store, index_name};
use jl_text::{NoMemory, word};
use jl_value::{Fault, ObjId, Value};
use std::alloc::Global;

/// The element at an index is got, which may call a getter (8.12.3).
pub fn get_index<'p>(
    state: &mut State<'p>,
    object: ObjId,
    index: usize,
) -> Result<Act<'p>, NoMemory>
    ensures refines { Computes state.old (get_index object index) result state.new }
    ensures bounded { RankAtMost state.old 4 result state.new }
{
    let alloc = state.alloc();
    let name = index_name(alloc, index)?;
    get(state, &Value::Obj(object), &name)
}

/// A value is put at an index (8.12.5), and then another is given. It throws a TypeError where that isn't done.
pub fn put_index<'p>(
    state: &mut State<'p>,
    object: ObjId,
    index: usize,
    v: Value,
    gives: Value,
) -> Result<Act<'p>, NoMemory>
    ensures refines { Computes state.old (put_index object index v then λ _. give gives) result state.new }
    ensures bounded { RankAtMost state.old 42 result state.new }
{
    let alloc = state.alloc();
    let name = index_name(alloc, index)?;
    put(state, true, Value::Obj(object), &name, v, gives)
}

/// A length is put (8.12.5), and then a value is given. It throws a TypeError where that isn't done, and ends the run
/// where the length is no number of a script.
pub fn put_length<'p>(
    state: &mut State<'p>,
    object: ObjId,
    length: usize,
    gives: Value,
) -> Result<Act<'p>, NoMemory>
    ensures refines { Computes state.old (put_length object length then λ _. give gives) result state.new }
    ensures bounded { RankAtMost state.old 42 result state.new }
{
    let alloc = state.alloc();
    let Ok(n) = number(length) else {
        return Ok(Act::Fault(Fault::NumberOutside));
    };
    let name = word(alloc, "length")?;
    put(state, true, Value::Obj(object), &name, Value::Num(n), gives)
}

/// A length as a number of a script.
fn number(length: usize) -> Result<Num, NumberOutside>
    ensures { result_ok result ≡ number_of (pos length) }
{
    match i64::try_from(length) {
        Ok(length) => Num::new(length),
        Err(_) => Err(NumberOutside),
    }
}

/// The element at an index is deleted (8.12.7). It throws a TypeError where that isn't done.
pub fn delete_index<'p>(
    state: &mut State<'p>,
    object: ObjId,
    index: usize,
) -> Result<Answer<()>, NoMemory>
    ensures stored { state.new ≡ record state.old { store = state.new.store } }
    ensures comes { IfOk result (λ answer. BigStep (delete_index object index) state.old.store state.new.store
        (ends_with answer)) }
{
    let alloc = state.alloc();
    let name = index_name(alloc, index)?;
    let answer = delete(state, true, &Value::Obj(object), &name)?;
    match answer {
        Answer::Gives(_) => Ok(Answer::Gives(())),
        Answer::Throws(thrown) => Ok(Answer::Throws(thrown)),
    }
}

/// Whether an object has an element at an index, its own or an inherited one (8.12.6).
pub fn has_index(
    alloc: Global,
    store: &Store,
    object: ObjId,
    index: usize,
) -> Result<bool, NoMemory>
    ensures { IfOk result (λ there. there ≡ has_index store.now object index) }
{
    let name = index_name(alloc, index)?;
    Ok(store.has_property(object, &name))
}
