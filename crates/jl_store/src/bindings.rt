//! Names bound to values (10.2.1.1, 10.5).
ghost use Rattle.std.specs.Prelude.{◌≡◌, false, if◌then◌else◌, map, true, IfOk, List as Items, OnOk};
ghost use Rattle.std.specs.Option.{option_copied, option_map};
ghost use Rattle.jl_effects.specs.Running.{Ends};
ghost use Rattle.jl_meaning.specs.DeclarationBinding.{bind_parameters, declare_binding, declare_variables};
ghost use Rattle.jl_meaning.specs.Parts.{gives};
ghost use Rattle.jl_meaning.specs.References.{binding_value, set_mutable_binding};
ghost use Rattle.jl_meaning.specs.Store.{binding_of};
ghost use Rattle.jl_store.specs.Answers.{ends_with};
ghost use Rattle.jl_store.specs.BigStep.{BigStep};
ghost use Rattle.jl_store.specs.Bindings.{after_first, catch_environment, declare_variable, first_or_undefined};

use crate::answer::Answer;
use crate::environments::{Bound, Rebinding};
use crate::store::Store;
use jl_ast::Ident;
use jl_text::{NoMemory, Text};
use jl_value::{Value, share};
use std::alloc::Global;

impl Store {
    /// Binds a name to a value, which can be changed, whether it is bound in the environment already or not (10.5).
    pub fn declare_binding(&mut self, env: usize, name: &Text, value: Value) -> Result<(), NoMemory>
        ensures { OnOk result (BigStep (declare_binding env name.now value) self.old self.new (Ends (gives tt))) }
    {
        if self.has_binding(env, name) {
            self.set_binding(env, name, value);
            return Ok(());
        }
        let bound = Bound {
            value,
            mutable: true,
        };
        self.new_binding(env, name, bound)?;
        Ok(())
    }

    /// Binds each parameter to its argument, or to undefined. Where a name is there twice, the last one counts
    /// (10.5, step 4).
    pub fn bind_parameters(
        &mut self,
        env: usize,
        params: &[Ident],
        args: &[Value],
    ) -> Result<(), NoMemory>
        ensures { OnOk result (BigStep (bind_parameters env (map (λ x. x.text) params.now) args.now) self.old self.new
            (Ends (gives tt))) }
    {
        let alloc = self.alloc;
        let mut rest = args;
        for param in params {
            let value = first_or_undefined(alloc, rest)?;
            rest = after_first(rest);
            self.declare_binding(env, &param.text, value)?;
        }
        Ok(())
    }

    /// Binds the variables of a function that aren't bound yet to undefined (10.5, step 8).
    pub fn declare_variables(&mut self, env: usize, names: &[Text]) -> Result<(), NoMemory>
        ensures { OnOk result (BigStep (declare_variables env names.now) self.old self.new (Ends (gives tt))) }
    {
        for name in names {
            self.declare_variable(env, name)?;
        }
        Ok(())
    }

    /// The same of one variable.
    fn declare_variable(&mut self, env: usize, name: &Text) -> Result<(), NoMemory>
        ensures { OnOk result (BigStep (declare_variable env name.now) self.old self.new (Ends (gives tt))) }
    {
        if self.has_binding(env, name) {
            return Ok(());
        }
        let bound = Bound {
            value: Value::Undefined,
            mutable: true,
        };
        self.new_binding(env, name, bound)?;
        Ok(())
    }

    /// Gives a binding another value, if it can be changed (10.2.1.1.3). Where it can't, that throws in strict
    /// code, and else nothing is done.
    #[tactic(auto, using(crate::proofs::Rebindings::changed_comes, crate::proofs::Rebindings::immutable_comes, crate::proofs::Rebindings::unbound_comes))]
    pub fn set_mutable_binding(
        &mut self,
        strict: bool,
        env: usize,
        name: &Text,
        value: Value,
    ) -> Result<Answer<()>, NoMemory>
        ensures { IfOk result (λ answer.
            BigStep (set_mutable_binding strict env name.now value (binding_of self.old env name.now)) self.old self.new
            (ends_with answer)) }
    {
        match self.set_if_mutable(env, name, value) {
            Rebinding::Changed => Ok(Answer::Gives(())),
            Rebinding::Immutable => {
                let answer = self.require(!strict, "cannot write")?;
                Ok(answer)
            }
            Rebinding::Unbound => Ok(Answer::Gives(())),
        }
    }

    /// The value of a name in an environment (8.7.1, 10.2.1.1.4), and undefined where it isn't bound there. It
    /// takes no memory but where the units of a text have to be copied.
    pub fn binding_value(&self, env: usize, name: &Text) -> Result<Value, NoMemory>
        ensures { IfOk result (λ value. value ≡ binding_value (binding_of self.now env name.now)) }
    {
        match self.binding(env, name) {
            Some(bound) => share(self.alloc, &bound.value),
            None => Ok(Value::Undefined),
        }
    }

    /// Makes the environment of a `catch` block, in which the caught value is bound (12.14).
    pub fn enter_catch(&mut self, env: usize, name: &Text, value: Value) -> Result<usize, NoMemory>
        ensures { IfOk result (λ inside. BigStep (catch_environment env name.now value) self.old self.new
            (Ends (gives inside))) }
    {
        let inside = self.new_environment(env)?;
        let bound = Bound {
            value,
            mutable: true,
        };
        self.new_binding(inside, name, bound)?;
        Ok(inside)
    }
}

/// The first of these values, or undefined where there is none.
fn first_or_undefined(alloc: Global, values: &[Value]) -> Result<Value, NoMemory>
    ensures { IfOk result (λ value. value ≡ first_or_undefined values.now) }
{
    match values.first() {
        Some(value) => share(alloc, value),
        None => Ok(Value::Undefined),
    }
}

/// The values but the first.
fn after_first(values: &[Value]) -> &[Value]
    ensures { result.now ≡ after_first values.entry.now }
{
    match values.split_first() {
        Some((_, others)) => others,
        None => values,
    }
}
