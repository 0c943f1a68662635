//! Operations that hooks emit of the script, of calls that are running, and of single values.
ghost use Rattle.std.specs.Prelude.{◌≡◌, IfOk};
ghost use Rattle.std.specs.Option.{option_map};
ghost use Rattle.jl_meaning.specs.Noting.{emits, note_or_misuse};
ghost use Rattle.jl_meaning.specs.Parts.{look, ◌>>=◌ as ◌then◌, Running};
ghost use Rattle.jl_meaning.specs.forms.Hooks.{emit_of, entered_op, first_of, type_op};
ghost use Rattle.jl_meaning.specs.forms.Literals.{literal, literal_op, object_literal};
ghost use Rattle.jl_state.specs.Words.{running};
ghost use Rattle.jl_call.specs.inner.Notes.{op_of};
ghost use Rattle.jl_state.specs.Clauses.{Evaluates, RankAtMost};

use crate::values::first_of;
use jl_heap::Inner;
use jl_op::Op;
use jl_operator::emit;
use jl_state::{Act, HookId, State};
use jl_store::{Store, script_number};
use jl_text::{List, NoMemory, Text};
use jl_value::{Class, Fault, ObjId, Seen, Value};

/// What a hook emits of one value.
#[derive(Drop)]
pub(crate) enum ValueNote {
    /// A name was read (11.1.2).
    Read(Text),
    /// A name is written (11.13).
    Write(Text),
    /// A value was caught under a name (12.14).
    Catch(Text),
    /// It decides what comes next (11.11, 11.12, 12.5, 12.6).
    Test,
    /// A `for-in` visits its properties (12.6.4).
    Visit,
    /// It is returned (12.9).
    Return,
    /// It is thrown (12.13).
    Throw,
}

/// The operation.
fn op_of(note: ValueNote, value: Seen) -> Op
    ensures { result ≡ op_of note value }
{
    match note {
        ValueNote::Read(name) => Op::Read { name, value },
        ValueNote::Write(name) => Op::Write { name, value },
        ValueNote::Catch(name) => Op::Catch { name, value },
        ValueNote::Test => Op::Conditional { value },
        ValueNote::Visit => Op::ForIn { object: value },
        ValueNote::Return => Op::Return { value },
        ValueNote::Throw => Op::Throw { value },
    }
}

/// A hook emits an operation of the first of its values, and gives that.
pub(crate) fn emit_value<'p>(
    state: &mut State<'p>,
    id: HookId,
    note: ValueNote,
    values: &List<Value>,
) -> Result<Act<'p>, NoMemory>
    ensures refines { Evaluates state.old (emit_of id.id (op_of note) (first_of values.now)) result state.new }
    ensures bounded { RankAtMost state.old 6 result state.new }
{
    let alloc = state.alloc();
    let value = first_of(alloc, values)?;
    let told = op_of(note, state.store.seen(&value)?);
    emit(state, id.first(), told, value)
}

/// A hook emits that the call that is running was entered. Where none is, it is misused.
#[tactic(auto, using(crate::proofs::Entries::entries))]
pub(crate) fn emit_entry<'p>(state: &mut State<'p>, id: HookId) -> Result<Act<'p>, NoMemory>
    ensures refines { Evaluates state.old (look then λ store. note_or_misuse emits id.id Value.Undefined (option_map
        (entered_op store.heap) (running state.old.calls))) result state.new }
    ensures bounded { RankAtMost state.old 6 result state.new }
{
    match state.calls.innermost() {
        None => Ok(Act::Fault(Fault::Misuse)),
        Some(call) => {
            let told = Op::FunctionEnter {
                function: call.function,
                this: state.store.seen(&call.this)?,
                args: call.args as u64,
                by_new: call.by_new,
            };
            emit(state, id.first(), told, Value::Undefined)
        }
    }
}

/// A hook emits that the call that is running ends. Where none is, it is misused.
#[tactic(auto, using(crate::proofs::Entries::entries))]
pub(crate) fn emit_exit<'p>(state: &mut State<'p>, id: HookId) -> Result<Act<'p>, NoMemory>
    ensures refines { Evaluates state.old (note_or_misuse emits id.id Value.Undefined (option_map (λ (r : Running).
        Op.FunctionExit r.function) (running state.old.calls))) result state.new }
    ensures bounded { RankAtMost state.old 6 result state.new }
{
    match state.calls.innermost() {
        None => Ok(Act::Fault(Fault::Misuse)),
        Some(call) => {
            let told = Op::FunctionExit {
                function: call.function,
            };
            emit(state, id.first(), told, Value::Undefined)
        }
    }
}

/// A hook emits the type of a name, which is a text, and gives it (11.4.3).
pub(crate) fn emit_type<'p>(
    state: &mut State<'p>,
    id: HookId,
    name: Text,
    v: Value,
) -> Result<Act<'p>, NoMemory>
    ensures refines { Evaluates state.old (note_or_misuse emits id.id v (type_op name v)) result state.new }
    ensures bounded { RankAtMost state.old 6 result state.new }
{
    let alloc = state.alloc();
    match &v {
        Value::Text(text) => {
            let result = text.share(alloc)?;
            emit(state, id.first(), Op::TypeofName { name, result }, v)
        }
        Value::Undefined | Value::Null | Value::Bool(_) | Value::Num(_) | Value::Obj(_) => {
            Ok(Act::Fault(Fault::Misuse))
        }
    }
}

/// A hook emits what a literal has made, and gives it (7.8, 11.1.3 to 11.1.5).
#[tactic(auto, unfolding(jl_meaning::specs::forms::Literals::literal))]
pub(crate) fn emit_literal<'p>(
    state: &mut State<'p>,
    id: HookId,
    v: Value,
) -> Result<Act<'p>, NoMemory>
    ensures refines { Evaluates state.old (literal emits id.id v) result state.new }
    ensures bounded { RankAtMost state.old 6 result state.new }
{
    match literal_op(&state.store, &v)? {
        Some(told) => emit(state, id.first(), told, v),
        None => Ok(Act::Fault(Fault::Misuse)),
    }
}

/// The operation of a literal with this value. No literal gives undefined, or another function than one of the script.
fn literal_op(store: &Store, v: &Value) -> Result<Option<Op>, NoMemory>
    ensures { IfOk result (λ told. told ≡ literal_op store.now.heap v.now) }
{
    match v {
        Value::Undefined => Ok(None),
        Value::Obj(id) => {
            let class = store.class_of(*id);
            Ok(object_literal(*id, class, store.inner_of(*id)))
        }
        Value::Null | Value::Bool(_) | Value::Num(_) | Value::Text(_) => {
            let value = store.seen(v)?;
            Ok(Some(Op::Literal { value }))
        }
    }
}

/// The operation of a literal that has made an object, by its class and its inner part.
fn object_literal(id: ObjId, class: Class, inner: &Inner) -> Option<Op>
    ensures { result ≡ object_literal id class inner.now }
{
    match class {
        Class::Array => Some(Op::ArrayLiteral { obj: id }),
        Class::Function => {
            let function = script_number(inner)?;
            Some(Op::FunctionLiteral { obj: id, function })
        }
        _ => Some(Op::ObjectLiteral { obj: id }),
    }
}
