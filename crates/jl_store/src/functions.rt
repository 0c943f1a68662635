//! Function objects made (clause 13, 13.2).
ghost use Rattle.std.specs.Prelude.{◌≡◌, IfOk, OnOk};
ghost use Rattle.jl_effects.specs.Running.{Ends};
ghost use Rattle.jl_meaning.specs.FunctionObjects.{add_poison, create_function, thrower_property};
ghost use Rattle.jl_meaning.specs.Parts.{gives};
ghost use Rattle.jl_store.specs.BigStep.{BigStep};

use crate::environments::Bound;
use crate::store::Store;
use crate::words::count;
use jl_ast::Function;
use jl_heap::{Inner, Prop};
use jl_scope::is_strict;
use jl_text::{NoMemory, Text, word};
use jl_value::{Builtin, Class, FunctionBuiltin, ObjId, Value};

/// A data property.
pub(crate) fn data(value: Value, writable: bool, enumerable: bool, configurable: bool) -> Prop
    ensures { result ≡ Prop.Plain value writable enumerable configurable }
{
    Prop::Plain {
        value,
        writable,
        enumerable,
        configurable,
    }
}

/// A property that throws a TypeError when it is got or put (13.2.3).
pub(crate) fn thrower_property() -> Prop
    ensures { result ≡ thrower_property }
{
    let thrower = Builtin::Function(FunctionBuiltin::Thrower).place();
    Prop::Accessor {
        get: Some(thrower),
        set: Some(thrower),
        enumerable: false,
        configurable: false,
    }
}

impl Store {
    ghost use Rattle.std.specs.Prelude.{codes, if◌then◌else◌, Some};
    ghost use Rattle.jl_meaning.specs.Parts.{give};
    ghost use Rattle.jl_scope.specs.Names.{arguments_name};
    ghost use Rattle.jl_meaning.specs.FunctionObjects.{make_function, make_function_expression, make_named};
    ghost use Rattle.jl_store.specs.Changes.{IsFree};
    ghost use Rattle.jl_store.specs.Plain.{plain_function};

    /// Creates a function object for a function of the script in an environment, with its length, and with a
    /// prototype whose constructor it is (13.2).
    #[tactic(auto, unfolding(jl_meaning::specs::FunctionObjects::create_function))]
    pub fn create_function(
        &mut self,
        strict: bool,
        function: u32,
        params: usize,
        env: usize,
    ) -> Result<ObjId, NoMemory>
        ensures made { IfOk result (λ f. BigStep (create_function strict function params env) self.old self.new
            (Ends (gives f))) }
        ensures rest { OnOk result (self.new.environments ≡ self.old.environments) }
    {
        let length = word(self.alloc, "length")?;
        let constructor = word(self.alloc, "constructor")?;
        let prototype = word(self.alloc, "prototype")?;
        let params = count(params)?;
        let inner = Inner::Script { function, env };
        let f = self.new_object(Class::Function, Some(ObjId::FUNCTION_PROTOTYPE), inner)?;
        self.add_property(f, &length, data(params, false, false, false))?;
        let proto = self.new_object(Class::Object, Some(ObjId::OBJECT_PROTOTYPE), Inner::Nothing)?;
        self.add_property(proto, &constructor, data(Value::Obj(f), true, false, true))?;
        self.add_property(f, &prototype, data(Value::Obj(proto), true, false, false))?;
        self.add_poison_if(strict, f)?;
        Ok(f)
    }

    fn add_poison_if(&mut self, strict: bool, f: ObjId) -> Result<(), NoMemory>
        requires caller { IsFree self.old f (codes "caller") }
        requires arguments { IsFree self.old f arguments_name }
        ensures made { OnOk result (BigStep (if strict then add_poison f else give tt) self.old self.new
            (Ends (gives tt))) }
        ensures rest { OnOk result (self.new.environments ≡ self.old.environments) }
    {
        if strict {
            self.add_poison(f)?;
        }
        Ok(())
    }

    /// Adds the two properties of a strict function that throw a TypeError (13.2, step 19, 15.3.4.5, steps 20 and
    /// 21).
    #[tactic(auto, unfolding(jl_scope::specs::Names::arguments_name))]
    pub fn add_poison(&mut self, f: ObjId) -> Result<(), NoMemory>
        requires caller { IsFree self.old f (codes "caller") }
        requires arguments { IsFree self.old f arguments_name }
        ensures made { OnOk result (BigStep (add_poison f) self.old self.new (Ends (gives tt))) }
        ensures rest { OnOk result (self.new.environments ≡ self.old.environments) }
    {
        let caller = word(self.alloc, "caller")?;
        let arguments = word(self.alloc, "arguments")?;
        self.add_property(f, &caller, thrower_property())?;
        self.add_property(f, &arguments, thrower_property())?;
        Ok(())
    }

    /// Makes a function object for a function of the script, in code that is strict or not (13.2).
    #[tactic(auto, using(jl_ast::proofs::Views::nodes, crate::proofs::Trees::plain_is))]
    pub fn make_function(
        &mut self,
        outer_strict: bool,
        env: usize,
        f: &Function,
    ) -> Result<ObjId, NoMemory>
        ensures made { IfOk result (λ id. BigStep (make_function outer_strict env (plain_function f.now)) self.old
            self.new (Ends (gives id))) }
        ensures rest { OnOk result (self.new.environments ≡ self.old.environments) }
    {
        let strict = is_strict(outer_strict, &f.body);
        let id = self.create_function(strict, f.number, f.params.len(), env)?;
        Ok(id)
    }

    /// Makes a function object for a function expression. One with a name has an environment in which the name is
    /// bound, and can't be changed (clause 13).
    #[tactic(auto, using(jl_ast::proofs::Views::nodes, crate::proofs::Trees::plain_is))]
    pub fn make_function_expression(
        &mut self,
        outer_strict: bool,
        env: usize,
        f: &Function,
    ) -> Result<ObjId, NoMemory>
        ensures { IfOk result (λ id. BigStep (make_function_expression outer_strict env (plain_function f.now)) self.old
            self.new (Ends (gives id))) }
    {
        match &f.name {
            None => {
                let id = self.make_function(outer_strict, env, f)?;
                Ok(id)
            }
            Some(name) => self.make_named(outer_strict, env, f, &name.text),
        }
    }

    fn make_named(
        &mut self,
        outer_strict: bool,
        env: usize,
        f: &Function,
        name: &Text,
    ) -> Result<ObjId, NoMemory>
        ensures { IfOk result (λ id. BigStep (make_named outer_strict env (plain_function f.now) (Some name.now))
            self.old self.new (Ends (gives id))) }
    {
        let inside = self.new_environment(env)?;
        let id = self.make_function(outer_strict, inside, f)?;
        let bound = Bound {
            value: Value::Obj(id),
            mutable: false,
        };
        self.new_binding(inside, name, bound)?;
        Ok(id)
    }
}
