//! Properties deleted (8.12.7, 11.4.1).
ghost use Rattle.std.specs.Prelude.{◌≡◌, IfOk};
ghost use Rattle.std.specs.Option.{option_map};
ghost use Rattle.jl_value.specs.declared.value.Value.TheVariants as value;
ghost use Rattle.jl_effects.specs.Running.{Ends};
ghost use Rattle.jl_meaning.specs.Parts.{gives};
ghost use Rattle.jl_meaning.specs.Putting.{delete, delete_on, end_mapping_if, is_free};
ghost use Rattle.jl_store.specs.Answers.{ends_with};
ghost use Rattle.jl_store.specs.BigStep.{BigStep};
ghost use Rattle.jl_store.specs.LookUps.{property_seen};

use jl_state::State;
use jl_store::{Answer, Property, Store};
use jl_text::{NoMemory, Text, word};
use jl_value::{ErrorKind, ObjId, Value};

/// [[Delete]] (8.12.7, 10.6), and that of a base that is no object (11.4.1): whether the name is free now. Where the
/// property stays, it throws a TypeError if it is asked to.
#[tactic(auto, unfolding(jl_meaning::specs::Putting::delete))]
pub fn delete<'p>(
    state: &mut State<'p>,
    throwing: bool,
    base: &Value,
    name: &Text,
) -> Result<Answer<bool>, NoMemory>
    ensures stored { state.new ≡ record state.old { store = state.new.store } }
    ensures comes { IfOk result (λ answer. BigStep (delete throwing base.now name.now) state.old.store state.new.store
        (ends_with answer)) }
{
    let alloc = state.alloc();
    let free = delete_on(&mut state.store, base, name);
    if free || !throwing {
        return Ok(Answer::Gives(free));
    }
    let message = word(alloc, "cannot delete")?;
    let thrown = state.store.throw_error(ErrorKind::TypeError, message)?;
    Ok(Answer::Throws(thrown))
}

/// The same without a throw.
fn delete_on(store: &mut Store, base: &Value, name: &Text) -> bool
    ensures { BigStep (delete_on base.now name.now) store.old store.new (Ends (gives result)) }
{
    match base {
        Value::Obj(id) => delete_own(store, *id, name),
        Value::Undefined | Value::Null | Value::Bool(_) | Value::Num(_) | Value::Text(_) => {
            is_free(&store.property_of_value(base, name))
        }
    }
}

/// The same of an object. A mapped index that has been deleted is mapped no more (10.6).
#[tactic(auto, using(crate::proofs::Deletes::comes_deleted))]
fn delete_own(store: &mut Store, id: ObjId, name: &Text) -> bool
    ensures { BigStep (delete_on (value.Obj id) name.now) store.old store.new (Ends (gives result)) }
{
    let mapped = store.mapped_parameter(id, name).is_some();
    let free = store.delete_property(id, name);
    end_mapping_if(store, free && mapped, id, name);
    free
}

fn end_mapping_if(store: &mut Store, ends: bool, id: ObjId, name: &Text)
    ensures { BigStep (end_mapping_if ends id name.now) store.old store.new (Ends (gives tt)) }
{
    if ends {
        store.end_mapping(id, name);
    }
}

/// Whether a value that is no object has no property of its own there.
fn is_free(property: &Option<Property<'_>>) -> bool
    ensures { result ≡ is_free (option_map property_seen property.now) }
{
    match property {
        Some(property) => !property.own,
        None => true,
    }
}
