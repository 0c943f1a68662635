//! What follows once the observer has been told of an operation.
ghost use Rattle.std.specs.Prelude.{◌≡◌, ◌+◌};
ghost use Rattle.jl_meaning.specs.Noting.{emits};
ghost use Rattle.jl_meaning.specs.Parts.{give, ◌>>=◌ as ◌then◌};
ghost use Rattle.jl_meaning.specs.Properties.{found_of, property_of_value};
ghost use Rattle.jl_meaning.specs.forms.Members.{put_member};
ghost use Rattle.jl_state.specs.Clauses.{Evaluates, RankAtMost};
ghost use Rattle.jl_state.specs.Rank.{rank_emit};
ghost use Rattle.jl_state.specs.EmitFrames.{emit_after};

use jl_algorithm::put;
use jl_op::{Found, Op, OpId};
use jl_operator::emit_for;
use jl_state::{Act, CallId, EmitFrame, Invocation, State, ValueFrame};
use jl_store::Store;
use jl_text::{NoMemory, Text};
use jl_value::Value;

/// The observer has been told of an operation.
pub fn resume_emit<'p>(state: &mut State<'p>, frame: EmitFrame) -> Result<Act<'p>, NoMemory>
    ensures refines { Evaluates state.old (emit_after frame) result state.new }
    ensures bounded { RankAtMost state.old (rank_emit frame + 1) result state.new }
{
    match frame {
        EmitFrame::Put {
            base,
            name,
            value,
            strict,
            gives,
        } => put(state, strict, base, &name, value, gives),
        EmitFrame::PutMember {
            id,
            base,
            name,
            value,
            strict,
            gives,
        } => emit_put(state, id, strict, base, name, value, gives),
        EmitFrame::Invoke { id, call } => make_call(state, id, call),
    }
}

/// A call is made that a hook has emitted, and what it gives is to be emitted.
fn make_call<'p>(state: &mut State<'p>, id: CallId, call: Invocation) -> Result<Act<'p>, NoMemory>
    ensures refines { Evaluates state.old (emit_after (EmitFrame.Invoke id call)) result state.new }
    ensures bounded { RankAtMost state.old 8 result state.new }
{
    state.push_value(ValueFrame::EmitInvoke {
        id: id.post(),
        callee: call.callee,
    })?;
    Act::call(state.alloc(), call)
}

/// A hook emits that a value is put to a member, which follows; then another one is given (8.7.2).
#[tactic(auto, unfolding(jl_meaning::specs::forms::Members::put_member))]
fn emit_put<'p>(
    state: &mut State<'p>,
    id: OpId,
    strict: bool,
    base: Value,
    name: Text,
    value: Value,
    gives: Value,
) -> Result<Act<'p>, NoMemory>
    ensures refines { Evaluates state.old (put_member emits id.0 strict base name value then λ _. give gives) result
        state.new }
    ensures bounded { RankAtMost state.old 46 result state.new }
{
    let alloc = state.alloc();
    let told = Op::PutField {
        base: state.store.seen(&base)?,
        name: name.share(alloc)?,
        value: state.store.seen(&value)?,
        found: found_of(&state.store, &base, &name),
    };
    let frame = EmitFrame::Put {
        base,
        name,
        value,
        strict,
        gives,
    };
    emit_for(state, id, told, frame)
}

/// What operations tell of a member of this name.
fn found_of(store: &Store, base: &Value, name: &Text) -> Found
    ensures { result ≡ found_of (property_of_value store.now base.now name.now) }
{
    match store.property_of_value(base, name) {
        Some(property) => property.as_told(),
        None => Found::Absent,
    }
}
