//! Names of members (11.2.1), and the ids of the script's own operations.
ghost use Rattle.std.specs.Prelude.{◌≡◌, ◌+◌, false, IfOk, IfSome};
ghost use Rattle.jl_meaning.specs.Conversions.{to_string};
ghost use Rattle.jl_meaning.specs.Parts.{give, lift, ◌>>=◌ as ◌then◌};
ghost use Rattle.jl_meaning.specs.forms.Members.{member_name};
ghost use Rattle.jl_state.specs.Clauses.{Evaluates, RankAtMost};
ghost use Rattle.jl_state.specs.Rank.{rank_key};
ghost use Rattle.jl_state.specs.ValueFrames.{key_after};
ghost use Rattle.jl_state.specs.Words.{table_of};

use jl_algorithm::{throw_native, to_primitive};
use jl_conv::primitive_to_text;
use jl_state::{Act, Boxed, Hint, HookId, MemberUse, Noted, State, ValueFrame};
use jl_text::{NoMemory, Text};
use jl_value::{ErrorKind, Value, is_nothing, is_object};
use std::alloc::Global;

/// How the script's own operations come into the trace.
pub(crate) fn by_script() -> Noted
    ensures performs { result.emits ≡ false }
    ensures first { result.id.id ≡ 0 }
{
    Noted {
        emits: false,
        id: HookId::own(),
    }
}

/// The name of a member is found, after the test of what it is a member of, and then something is done with it
/// (11.2.1, steps 5 and 6).
pub fn member_name<'p>(
    state: &mut State<'p>,
    base: &Value,
    key: Value,
    purpose: MemberUse<'p>,
) -> Result<Act<'p>, NoMemory>
    ensures refines { Evaluates state.old (lift (member_name base.now key) then key_after (table_of
        state.old.functions) state.old.calls purpose.entry) result state.new }
    ensures bounded { RankAtMost state.old (rank_key purpose.entry + 20) result state.new }
{
    match base {
        Value::Undefined => throw_native(state, ErrorKind::TypeError, "no property of undefined"),
        Value::Null => throw_native(state, ErrorKind::TypeError, "no property of null"),
        Value::Bool(_) | Value::Num(_) | Value::Text(_) | Value::Obj(_) => {
            convert_key(state, key, purpose)
        }
    }
}

/// A key is converted to the name that it stands for (9.8), and then something is done with that.
fn convert_key<'p>(
    state: &mut State<'p>,
    key: Value,
    purpose: MemberUse<'p>,
) -> Result<Act<'p>, NoMemory>
    ensures refines { Evaluates state.old (lift (to_string key) then key_after (table_of state.old.functions)
        state.old.calls purpose.entry) result state.new }
    ensures bounded { RankAtMost state.old (rank_key purpose.entry + 16) result state.new }
{
    let purpose = Boxed::of(state.alloc(), purpose)?;
    state.push_value(ValueFrame::Key(purpose))?;
    to_primitive(state, key, Hint::Text)
}

/// The name of a member, where nothing has to be called for it and nothing is thrown: its base has members, and its key
/// is no object (11.2.1, steps 5 and 6).
pub fn quick_key(alloc: Global, base: &Value, key: &Value) -> Result<Option<Text>, NoMemory>
    ensures { IfOk result (λ found. IfSome found (λ name. member_name base.now key.now ≡ give name)) }
{
    if is_nothing(base) {
        return Ok(None);
    }
    name_of_primitive(alloc, key)
}

/// The name that a key stands for which is no object (9.8).
fn name_of_primitive(alloc: Global, key: &Value) -> Result<Option<Text>, NoMemory>
    ensures { IfOk result (λ found. IfSome found (λ name. to_string key.now ≡ give name)) }
{
    if is_object(key) {
        return Ok(None);
    }
    Ok(Some(primitive_to_text(alloc, key)?))
}
