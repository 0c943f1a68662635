//! Hooks that give a value.
ghost use Rattle.jl_meaning.specs.Noting.{emits};
ghost use Rattle.jl_meaning.specs.Parts.{lift, ◌>>=◌ as ◌then◌};
ghost use Rattle.jl_meaning.specs.forms.Hooks.{enter_hook, first_of, second_of};
ghost use Rattle.jl_meaning.specs.forms.Members.{delete_member, get_member, member_name};
ghost use Rattle.jl_meaning.specs.forms.Operators.{operate};
ghost use Rattle.jl_state.specs.Clauses.{Evaluates, RankAtMost};
ghost use Rattle.jl_state.specs.Words.{context_of, hook_of};

use crate::keys::name_member;
use crate::notes::{ValueNote, emit_entry, emit_exit, emit_literal, emit_type, emit_value};
use crate::updating::{enter_unary, enter_update};
use crate::values::{first_of, second_of};
use jl_ast::BinOp;
use jl_member::delete_member;
use jl_op::Op;
use jl_operator::{emit, operate};
use jl_state::{Act, Here, Hook, HookId, MemberUse, Noted, State};
use jl_text::{List, NoMemory};
use jl_value::Value;

/// A hook is entered with these values: it does what its form does, and emits the operation that the form performs.
#[tactic(auto, unfolding(jl_meaning::specs::forms::Hooks::enter_hook))]
pub(crate) fn enter_hook<'p>(
    state: &mut State<'p>,
    id: HookId,
    hook: Hook,
    values: &List<Value>,
    here: Here,
) -> Result<Act<'p>, NoMemory>
    ensures refines { Evaluates state.old (enter_hook (context_of state.old.calls here) id.id (hook_of hook)
        values.now) result state.new }
    ensures bounded { RankAtMost state.old 150 result state.new }
{
    let alloc = state.alloc();
    match hook {
        Hook::EntersScript => emit(state, id.first(), Op::ScriptEnter, Value::Undefined),
        Hook::ExitsScript => emit(state, id.first(), Op::ScriptExit, Value::Undefined),
        Hook::EntersFunction => emit_entry(state, id),
        Hook::ExitsFunction => emit_exit(state, id),
        Hook::Makes => emit_literal(state, id, first_of(alloc, values)?),
        Hook::Reads(name) => emit_value(state, id, ValueNote::Read(name), values),
        Hook::Writes(name) => emit_value(state, id, ValueNote::Write(name), values),
        Hook::Types(name) => emit_type(state, id, name, first_of(alloc, values)?),
        Hook::Catches(name) => emit_value(state, id, ValueNote::Catch(name), values),
        Hook::Tests => emit_value(state, id, ValueNote::Test, values),
        Hook::Visits => emit_value(state, id, ValueNote::Visit, values),
        Hook::Returns => emit_value(state, id, ValueNote::Return, values),
        Hook::Throws => emit_value(state, id, ValueNote::Throw, values),
        Hook::Binary(op) => enter_binary(state, id, op, values),
        Hook::Unary(op) => enter_unary(state, id, op, first_of(alloc, values)?),
        Hook::Gets => enter_get(state, id, values),
        Hook::Deletes => enter_delete(state, id, here.strict, values),
        Hook::Updates { up } => enter_update(state, id, here.strict, up, values),
    }
}

/// A hook of an operator between two operands (11.5 to 11.10).
fn enter_binary<'p>(
    state: &mut State<'p>,
    id: HookId,
    op: BinOp,
    values: &List<Value>,
) -> Result<Act<'p>, NoMemory>
    ensures refines { Evaluates state.old (operate emits id.id op (first_of values.now) (second_of values.now)) result
        state.new }
    ensures bounded { RankAtMost state.old 46 result state.new }
{
    let alloc = state.alloc();
    let left = first_of(alloc, values)?;
    let right = second_of(alloc, values)?;
    operate(state, true, id.first(), op, left, right)
}

/// A hook of a member that is got (11.2.1).
fn enter_get<'p>(
    state: &mut State<'p>,
    id: HookId,
    values: &List<Value>,
) -> Result<Act<'p>, NoMemory>
    ensures refines { Evaluates state.old (lift (member_name (first_of values.now) (second_of values.now)) then λ x.
        get_member emits id.id (first_of values.now) x) result state.new }
    ensures bounded { RankAtMost state.old 36 result state.new }
{
    let alloc = state.alloc();
    let base = first_of(alloc, values)?;
    let noted = Noted { emits: true, id };
    name_member(state, values, MemberUse::Get { noted, base })
}

/// A hook of a member that is deleted (11.4.1).
fn enter_delete<'p>(
    state: &mut State<'p>,
    id: HookId,
    strict: bool,
    values: &List<Value>,
) -> Result<Act<'p>, NoMemory>
    ensures refines { Evaluates state.old (delete_member emits id.id strict (first_of values.now) (second_of
        values.now)) result state.new }
    ensures bounded { RankAtMost state.old 30 result state.new }
{
    let alloc = state.alloc();
    let base = first_of(alloc, values)?;
    let key = second_of(alloc, values)?;
    let noted = Noted { emits: true, id };
    delete_member(state, noted, strict, base, key)
}
