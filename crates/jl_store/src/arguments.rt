//! The arguments object (10.6).
ghost use Rattle.std.specs.Prelude.{◌≡◌, codes, length, take, IfOk, OnOk};
ghost use Rattle.jl_effects.specs.Running.{Ends};
ghost use Rattle.jl_meaning.specs.ArgumentsObject.{add_callee, add_elements, create_arguments_object, mapped_names};
ghost use Rattle.jl_meaning.specs.ArgumentsObject.{mapping};
ghost use Rattle.jl_meaning.specs.Parts.{gives};
ghost use Rattle.jl_store.specs.Changes.{HasNames, IsFree};
ghost use Rattle.jl_store.specs.BigStep.{BigStep};
ghost use Rattle.jl_store.specs.Plain.{names_of};
ghost use Rattle.jl_store.specs.inner.Arguments.{names_with, no_mappings};

use crate::functions::{data, thrower_property};
use crate::store::Store;
use crate::words::{count, index_name};
use jl_ast::Ident;
use jl_heap::Inner;
use jl_scope::NameSet;
use jl_text::{List, NoMemory, Text, word};
use jl_value::{Class, ObjId, Value, share};
use std::alloc::Global;

/// The parameters that the indices of arguments are mapped to: an index whose name stands at a later index too is
/// mapped to none (10.6, step 11). It takes the logarithm of their number for each.
fn mapped_names(alloc: Global, params: &[Ident]) -> Result<List<Option<Text>>, NoMemory>
    ensures { IfOk result (λ names. names ≡ mapped_names (names_of params.now)) }
{
    let mut names = no_mappings(alloc, params.len())?;
    let mut later = NameSet::new(alloc);
    let mut at = params.len();
    while at > 0 {
        at -= 1;
        let param = &params[at];
        if later.insert(param.text.units())? {
            names.set(at, Some(param.text.share(alloc)?));
        }
    }
    Ok(names)
}

/// So many indices that are mapped to none.
fn no_mappings(alloc: Global, count: usize) -> Result<List<Option<Text>>, NoMemory>
    ensures { IfOk result (λ names. names ≡ no_mappings count) }
{
    let mut names = List::new(alloc);
    while names.len() < count {
        names.push(None)?;
    }
    Ok(names)
}

/// What an arguments object holds: in code that isn't strict, what the indices of arguments are mapped to.
fn mapping(
    alloc: Global,
    strict: bool,
    env: usize,
    params: &[Ident],
    args: &[Value],
) -> Result<Inner, NoMemory>
    ensures { IfOk result (λ inner. inner ≡ mapping strict env (names_of params.now) args.now) }
{
    if strict {
        return Ok(Inner::Nothing);
    }
    let names = mapped_names(alloc, first_ones(params, args.len()))?;
    Ok(Inner::Mapped { env, names })
}

/// At most so many of the parameters, the first ones.
fn first_ones(params: &[Ident], count: usize) -> &[Ident]
    ensures { result.now ≡ take count params.entry.now }
{
    if count < params.len() {
        &params[..count]
    } else {
        params
    }
}

impl Store {
    /// Makes the arguments object of a call (10.6).
    pub fn create_arguments_object(
        &mut self,
        strict: bool,
        callee: ObjId,
        env: usize,
        params: &[Ident],
        args: &[Value],
    ) -> Result<ObjId, NoMemory>
        ensures made { IfOk result (λ id.
            BigStep (create_arguments_object strict callee env (names_of params.now) args.now) self.old self.new
            (Ends (gives id))) }
        ensures rest { OnOk result (self.new.environments ≡ self.old.environments) }
    {
        let length = word(self.alloc, "length")?;
        let given = count(args.len())?;
        let mapping = mapping(self.alloc, strict, env, params, args)?;
        let id = self.new_object(Class::Arguments, Some(ObjId::OBJECT_PROTOTYPE), mapping)?;
        self.add_property(id, &length, data(given, true, false, true))?;
        self.add_elements(id, args)?;
        self.add_callee(strict, callee, id)?;
        Ok(id)
    }

    /// Adds the arguments at their indices.
    fn add_elements(&mut self, id: ObjId, args: &[Value]) -> Result<(), NoMemory>
        requires { HasNames self.old id (names_with 0) }
        ensures made { OnOk result (BigStep (add_elements id 0 args.now) self.old self.new (Ends (gives tt))) }
        ensures names { OnOk result (HasNames self.new id (names_with (length args.now))) }
        ensures rest { OnOk result (self.new.environments ≡ self.old.environments) }
    {
        let alloc = self.alloc;
        for index in 0..args.len() {
            let name = index_name(alloc, index)?;
            let value = share(alloc, &args[index])?;
            self.add_property(id, &name, data(value, true, true, true))?;
        }
        Ok(())
    }

    /// Adds `callee`, and in strict code what throws in its place (10.6, steps 13 and 14).
    fn add_callee(&mut self, strict: bool, callee: ObjId, id: ObjId) -> Result<(), NoMemory>
        requires callee { IsFree self.old id (codes "callee") }
        requires caller { IsFree self.old id (codes "caller") }
        ensures made { OnOk result (BigStep (add_callee strict callee id) self.old self.new (Ends (gives tt))) }
        ensures rest { OnOk result (self.new.environments ≡ self.old.environments) }
    {
        let name = word(self.alloc, "callee")?;
        if !strict {
            self.add_property(id, &name, data(Value::Obj(callee), true, false, true))?;
            return Ok(());
        }
        let caller = word(self.alloc, "caller")?;
        self.add_property(id, &caller, thrower_property())?;
        self.add_property(id, &name, thrower_property())?;
        Ok(())
    }
}
