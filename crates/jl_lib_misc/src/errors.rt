//! `Error`, the native errors, and `Error.prototype.toString` (15.11).
ghost use Rattle.std.specs.Prelude.{◌≡◌, ◌≤◌, ◌+◌, ◌++◌, codes, IfOk};
ghost use Rattle.jl_effects.specs.Running.{Ends};
ghost use Rattle.jl_meaning.specs.Getting.{get};
ghost use Rattle.jl_meaning.specs.Parts.{gives, ◌>>=◌ as ◌then◌};
ghost use Rattle.jl_meaning.specs.builtins.Arguments.{give_object};
ghost use Rattle.jl_meaning.specs.builtins.Error.{error_constructor, error_to_string, name_and_message, new_error};
ghost use Rattle.jl_progress.specs.Errors.{error_after, rank_error};
ghost use Rattle.jl_progress.specs.declared.error.ErrorProgress.TheVariants as progress;
ghost use Rattle.jl_state.specs.Clauses.{Computes, RankAtMost};
ghost use Rattle.jl_state.specs.Rank.{rank_act};
ghost use Rattle.jl_state.specs.Rest.{RefinesAlgorithm};
ghost use Rattle.jl_state.specs.Words.{call_of};
ghost use Rattle.jl_state.specs.declared.state.State.{State as Machine};
ghost use Rattle.jl_store.specs.BigStep.{BigStep};
ghost use Rattle.jl_value.specs.declared.value.Value.TheVariants as value;

use jl_algorithm::{get, throw_native};
use jl_builtin::{argument, wait_for_string, with_units};
use jl_heap::{Inner, Prop};
use jl_operator::text_of;
use jl_progress::{ErrorProgress, Progress};
use jl_state::{Act, Invocation, State};
use jl_store::Store;
use jl_text::{List, NoMemory, Text, TextFault, word};
use jl_value::{Class, ErrorKind, Fault, ObjId, Value, is_undefined};
use std::alloc::Global;

/// A new error, with its message where there is one (15.11.1.1, 15.11.7.4).
fn new_error(
    alloc: Global,
    store: &mut Store,
    proto: ObjId,
    message: Option<Text>,
) -> Result<ObjId, NoMemory>
    ensures { IfOk result (λ id. BigStep (new_error proto message) store.old store.new (Ends (gives id))) }
{
    let name = word(alloc, "message")?;
    let id = store.new_object(Class::Error, Some(proto), Inner::Nothing)?;
    if let Some(text) = message {
        let property = Prop::Plain {
            value: Value::Text(text),
            writable: true,
            enumerable: false,
            configurable: true,
        };
        store.add_property(id, &name, property)?;
    }
    Ok(id)
}

/// A new error is given.
fn give_error<'p>(
    state: &mut State<'p>,
    proto: ObjId,
    message: Option<Text>,
) -> Result<Act<'p>, NoMemory>
    ensures refines { Computes state.old (new_error proto message then give_object) result state.new }
    ensures bounded { RankAtMost state.old 3 result state.new }
{
    let alloc = state.alloc();
    let id = new_error(alloc, &mut state.store, proto, message)?;
    Ok(Act::Give(Value::Obj(id)))
}

/// `Error`, or the native error with this prototype, is called or constructed by (15.11.1.1, 15.11.2.1, 15.11.7.2,
/// 15.11.7.4).
pub(crate) fn error_constructor<'p>(
    state: &mut State<'p>,
    proto: ObjId,
    call: &Invocation,
) -> Result<Act<'p>, NoMemory>
    ensures refines { Computes state.old (error_constructor proto (call_of call.now)) result state.new }
    ensures bounded { RankAtMost state.old 22 result state.new }
{
    let alloc = state.alloc();
    let message = argument(alloc, call.args.items(), 0)?;
    if is_undefined(&message) {
        return give_error(state, proto, None);
    }
    let progress = Progress::Error(ErrorProgress::NewMessage { proto });
    wait_for_string(state, progress, message)
}

/// Goes on with the message of an error, which has been converted.
fn resume_new_message<'p>(
    state: &mut State<'p>,
    proto: ObjId,
    p: &Value,
) -> Result<Act<'p>, NoMemory>
    ensures refines { Computes state.old (error_after (progress.NewMessage proto) p.now) result state.new }
    ensures bounded { RankAtMost state.old 3 result state.new }
{
    let alloc = state.alloc();
    let text = text_of(alloc, p)?;
    give_error(state, proto, Some(text))
}

/// `Error.prototype.toString()` (15.11.4.4).
pub(crate) fn error_to_string<'p>(
    state: &mut State<'p>,
    call: &Invocation,
) -> Result<Act<'p>, NoMemory>
    ensures refines { Computes state.old (error_to_string (call_of call.now)) result state.new }
    ensures bounded { RankAtMost state.old 84 result state.new }
{
    let alloc = state.alloc();
    let Value::Obj(object) = &call.this else {
        return throw_native(state, ErrorKind::TypeError, "not an object");
    };
    let object = *object;
    let name = word(alloc, "name")?;
    let progress = Progress::Error(ErrorProgress::Name { object });
    state.push_builtin(progress)?;
    get(state, &Value::Obj(object), &name)
}

/// Goes on with the name of an error (steps 3 and 4).
fn resume_name<'p>(state: &mut State<'p>, object: ObjId, v: Value) -> Result<Act<'p>, NoMemory>
    ensures refines { Computes state.old (error_after (progress.Name object) v) result state.new }
    ensures bounded { RankAtMost state.old 76 result state.new }
{
    let alloc = state.alloc();
    if is_undefined(&v) {
        let name = word(alloc, "Error")?;
        return get_message(state, object, name);
    }
    let progress = Progress::Error(ErrorProgress::NamePrimitive { object });
    wait_for_string(state, progress, v)
}

/// Goes on with that name, which has been converted.
fn resume_name_primitive<'p>(
    state: &mut State<'p>,
    object: ObjId,
    p: &Value,
) -> Result<Act<'p>, NoMemory>
    ensures refines { Computes state.old (error_after (progress.NamePrimitive object) p.now) result state.new }
    ensures bounded { RankAtMost state.old 44 result state.new }
{
    let alloc = state.alloc();
    let name = text_of(alloc, p)?;
    get_message(state, object, name)
}

/// The message of an error with this name is got (step 5).
fn get_message<'p>(state: &mut State<'p>, object: ObjId, name: Text) -> Result<Act<'p>, NoMemory>
    ensures refines { Computes state.old (get (value.Obj object) (codes "message") then error_after (progress.Message
        name)) result state.new }
    ensures bounded { RankAtMost state.old 44 result state.new }
{
    let alloc = state.alloc();
    let message = word(alloc, "message")?;
    let progress = Progress::Error(ErrorProgress::Message { name });
    state.push_builtin(progress)?;
    get(state, &Value::Obj(object), &message)
}

/// Goes on with the message of an error (steps 6 and 7).
fn resume_message<'p>(state: &mut State<'p>, name: Text, v: Value) -> Result<Act<'p>, NoMemory>
    ensures refines { Computes state.old (error_after (progress.Message name) v) result state.new }
    ensures bounded { RankAtMost state.old 22 result state.new }
{
    let alloc = state.alloc();
    if is_undefined(&v) {
        let message = word(alloc, "")?;
        return name_and_message(alloc, name, message);
    }
    let progress = Progress::Error(ErrorProgress::MessagePrimitive { name });
    wait_for_string(state, progress, v)
}

/// Goes on with that message, which has been converted.
fn resume_message_primitive<'p>(
    state: &mut State<'p>,
    name: Text,
    p: &Value,
) -> Result<Act<'p>, NoMemory>
    ensures refines { Computes state.old (error_after (progress.MessagePrimitive name) p.now) result state.new }
    ensures bounded { RankAtMost state.old 3 result state.new }
{
    let alloc = state.alloc();
    let message = text_of(alloc, p)?;
    name_and_message(alloc, name, message)
}

/// A name and a message, with a colon between where neither is empty (steps 8 to 10).
fn name_and_message<'p>(alloc: Global, name: Text, message: Text) -> Result<Act<'p>, NoMemory>
    ensures refines { IfOk result (λ act. (s : Machine) → RefinesAlgorithm s (name_and_message name message) s act) }
    ensures low { IfOk result (λ act. rank_act act ≤ 2) }
{
    if name.units().is_empty() {
        return Ok(Act::Give(Value::Text(message)));
    }
    if message.units().is_empty() {
        return Ok(Act::Give(Value::Text(name)));
    }
    let units = with_colon(alloc, name.units(), message.units())?;
    match Text::from_units(alloc, units.items()) {
        Ok(text) => Ok(Act::Give(Value::Text(text))),
        Err(TextFault::TooLong) => Ok(Act::Fault(Fault::StringTooLong)),
        Err(TextFault::NoMemory) => Err(NoMemory),
    }
}

/// The units of a name, a colon, and those of a message.
fn with_colon(alloc: Global, name: &[u16], message: &[u16]) -> Result<List<u16>, NoMemory>
    ensures { IfOk result (λ units. units ≡ name.now ++ codes ": " ++ message.now) }
{
    let named = with_units(List::new(alloc), name)?;
    let colon = with_units(named, &[58, 32])?;
    with_units(colon, message)
}

/// Goes on with the value that a builtin of errors waited for.
pub fn resume_error<'p>(
    state: &mut State<'p>,
    progress: ErrorProgress,
    v: Value,
) -> Result<Act<'p>, NoMemory>
    ensures refines { Computes state.old (error_after progress v) result state.new }
    ensures bounded { RankAtMost state.old (rank_error progress + 2) result state.new }
{
    match progress {
        ErrorProgress::NewMessage { proto } => resume_new_message(state, proto, &v),
        ErrorProgress::Name { object } => resume_name(state, object, v),
        ErrorProgress::NamePrimitive { object } => { resume_name_primitive(state, object, &v) }
        ErrorProgress::Message { name } => resume_message(state, name, v),
        ErrorProgress::MessagePrimitive { name } => { resume_message_primitive(state, name, &v) }
    }
}
