//! What builtins ask of their arguments.
ghost use Rattle.std.specs.Prelude.{◌≡◌, codes, slice_index_or, IfOk};
ghost use Rattle.jl_meaning.specs.Errors.{throw_type_error};
ghost use Rattle.jl_meaning.specs.builtins.Arguments.{need_function, need_object};
ghost use Rattle.jl_store.specs.Answers.{ends_with};
ghost use Rattle.jl_store.specs.BigStep.{BigStep};
ghost use Rattle.jl_value.specs.declared.value.Value.TheVariants as value;

use jl_store::{Answer, Store};
use jl_text::NoMemory;
use jl_value::{ObjId, Value, share};
use std::alloc::Global;

/// An argument, by its index; one that isn't given is undefined.
pub fn argument(alloc: Global, args: &[Value], index: usize) -> Result<Value, NoMemory>
    ensures { IfOk result (λ v. v ≡ slice_index_or args.now index value.Undefined) }
{
    match args.get(index) {
        Some(v) => share(alloc, v),
        None => Ok(Value::Undefined),
    }
}

/// The object that a value is. It throws a TypeError for any other value.
pub fn need_object(store: &mut Store, v: &Value) -> Result<Answer<ObjId>, NoMemory>
    ensures { IfOk result (λ answer. BigStep (need_object v.now) store.old store.new (ends_with answer)) }
{
    let Value::Obj(id) = v else {
        let thrown = store.throw_type_error("not an object")?;
        return Ok(Answer::Throws(thrown));
    };
    Ok(Answer::Gives(*id))
}

/// The function that a value is (9.11). It throws a TypeError for any other value.
pub fn need_function(store: &mut Store, v: &Value) -> Result<Answer<ObjId>, NoMemory>
    ensures { IfOk result (λ answer. BigStep (need_function v.now) store.old store.new (ends_with answer)) }
{
    let Value::Obj(id) = v else {
        return no_function(store);
    };
    if !store.is_callable(v) {
        return no_function(store);
    }
    Ok(Answer::Gives(*id))
}

/// Throws that a value is no function.
#[tactic(auto, using(jl_store::proofs::Chains::error_comes))]
fn no_function(store: &mut Store) -> Result<Answer<ObjId>, NoMemory>
    ensures { IfOk result (λ answer. BigStep (throw_type_error (codes "not a function")) store.old store.new
        (ends_with answer)) }
{
    let thrown = store.throw_type_error("not a function")?;
    Ok(Answer::Throws(thrown))
}
