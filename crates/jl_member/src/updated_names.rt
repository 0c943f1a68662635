//! `++` and `--` of names (11.3, 11.4.4, 11.4.5).
ghost use Rattle.jl_meaning.specs.forms.Names.{update_name};
ghost use Rattle.jl_state.specs.Clauses.{Evaluates, RankAtMost, Resumes};
ghost use Rattle.jl_state.specs.Words.{context_of};

use crate::nexts::{next_of, value_of_update};
use jl_algorithm::{get_value, is_hooks, put_value, to_primitive};
use jl_num::NumberOutside;
use jl_state::{Act, Here, Hint, State, ValueFrame};
use jl_store::Reference;
use jl_text::{NoMemory, Text};
use jl_value::{Fault, Value, share};

/// `++` or `--` of a name (11.3, 11.4.4, 11.4.5).
pub fn update_name<'p>(
    state: &mut State<'p>,
    name: &'p Text,
    up: bool,
    prefix: bool,
    here: Here,
) -> Result<Act<'p>, NoMemory>
    ensures refines { Evaluates state.old (update_name 0 (context_of state.old.calls here) name.now up prefix) result
        state.new }
    ensures bounded { RankAtMost state.old 120 result state.new }
{
    if is_hooks(name) {
        return Ok(Act::Fault(Fault::Misuse));
    }
    let reference = state.store.identifier_reference(here.env, name);
    if let Reference::InEnvironment(env) = reference {
        let v = state.store.binding_value(env, name)?;
        let bound = Reference::InEnvironment(env);
        return step_update_name(state, name, bound, up, prefix, here.strict, v);
    }
    state.push_value(ValueFrame::UpdateName {
        name,
        reference,
        up,
        prefix,
        strict: here.strict,
    })?;
    get_value(state, name, reference)
}

/// Goes on with the value of the name, which is converted to a primitive one.
pub fn step_update_name<'p>(
    state: &mut State<'p>,
    name: &'p Text,
    reference: Reference,
    up: bool,
    prefix: bool,
    strict: bool,
    v: Value,
) -> Result<Act<'p>, NoMemory>
    ensures refines { Resumes state.old (ValueFrame.UpdateName name.entry reference up prefix strict) v result
        state.new }
    ensures bounded { RankAtMost state.old 70 result state.new }
{
    if let Value::Num(n) = &v {
        let held = Value::Num(*n);
        return step_update_name_primitive(state, name, reference, up, prefix, strict, held, v);
    }
    let alloc = state.alloc();
    let held = share(alloc, &v)?;
    state.push_value(ValueFrame::UpdateNamePrimitive {
        name,
        reference,
        up,
        prefix,
        strict,
        held,
    })?;
    to_primitive(state, v, Hint::Number)
}

/// Goes on with the primitive value: the number after or before it is written to the name.
pub fn step_update_name_primitive<'p>(
    state: &mut State<'p>,
    name: &'p Text,
    reference: Reference,
    up: bool,
    prefix: bool,
    strict: bool,
    held: Value,
    v: Value,
) -> Result<Act<'p>, NoMemory>
    ensures refines { Resumes state.old (ValueFrame.UpdateNamePrimitive name.entry reference up prefix strict held) v
        result state.new }
    ensures bounded { RankAtMost state.old 50 result state.new }
{
    match next_of(up, &v) {
        Ok((n, next)) => {
            let given = value_of_update(prefix, n, next);
            let next = Value::Num(next);
            put_value(state, strict, name, next, reference, given)
        }
        Err(NumberOutside) => Ok(Act::Fault(Fault::NumberOutside)),
    }
}
