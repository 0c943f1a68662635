//! Members put (8.7.2).
ghost use Rattle.jl_meaning.specs.Noting.{emits};
ghost use Rattle.jl_meaning.specs.Parts.{give, ◌>>=◌ as ◌then◌};
ghost use Rattle.jl_meaning.specs.forms.Members.{put_member};
ghost use Rattle.jl_state.specs.Clauses.{Evaluates, RankAtMost, Resumes};
ghost use Rattle.jl_state.specs.Words.{noting};

use crate::read_members::found_on;
use jl_algorithm::put;
use jl_op::{Op, OpId};
use jl_operator::emit_for;
use jl_state::{Act, EmitFrame, State, ValueFrame};
use jl_text::{NoMemory, Text};
use jl_value::{Value, share};

/// PutValue to a member (8.7.2), after which a value is given.
pub fn put_member<'p>(
    state: &mut State<'p>,
    emits: bool,
    id: OpId,
    strict: bool,
    base: Value,
    name: Text,
    v: Value,
    gives: Value,
) -> Result<Act<'p>, NoMemory>
    ensures refines { Evaluates state.old (put_member (noting emits) id.0 strict base name v then λ _. give gives)
        result state.new }
    ensures bounded { RankAtMost state.old 56 result state.new }
{
    if emits {
        emit_and_put(state, id, strict, base, name, v, gives)
    } else {
        put(state, strict, base, &name, v, gives)
    }
}

/// PutValue to a member, which a hook emits first.
fn emit_and_put<'p>(
    state: &mut State<'p>,
    id: OpId,
    strict: bool,
    base: Value,
    name: Text,
    v: Value,
    gives: Value,
) -> Result<Act<'p>, NoMemory>
    ensures refines { Evaluates state.old (put_member emits id.0 strict base name v then λ _. give gives) result
        state.new }
    ensures bounded { RankAtMost state.old 56 result state.new }
{
    let alloc = state.alloc();
    let told = Op::PutField {
        base: state.store.seen(&base)?,
        name: name.share(alloc)?,
        value: state.store.seen(&v)?,
        found: found_on(&state.store, &base, &name),
    };
    let frame = EmitFrame::Put {
        base,
        name,
        value: v,
        strict,
        gives,
    };
    emit_for(state, id, told, frame)
}

/// Goes on with a value that is put to a member.
pub fn step_put_member<'p>(
    state: &mut State<'p>,
    emits: bool,
    id: OpId,
    base: Value,
    name: Text,
    strict: bool,
    v: Value,
) -> Result<Act<'p>, NoMemory>
    ensures refines { Resumes state.old (ValueFrame.PutMember emits id base name strict) v result state.new }
    ensures bounded { RankAtMost state.old 60 result state.new }
{
    let alloc = state.alloc();
    let given = share(alloc, &v)?;
    put_member(state, emits, id, strict, base, name, v, given)
}
