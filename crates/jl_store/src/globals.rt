//! What a program declares, as properties of the global object (10.5).
ghost use Rattle.std.specs.Prelude.{◌≡◌, IfOk};
ghost use Rattle.jl_meaning.specs.DeclarationBinding.{can_be_made_anew, can_be_taken_over, create_global};
ghost use Rattle.jl_meaning.specs.DeclarationBinding.{declare_global_variables, prepare_global};
ghost use Rattle.jl_meaning.specs.Intrinsics.{global_object};
ghost use Rattle.jl_meaning.specs.Properties.{get_property};
ghost use Rattle.jl_store.specs.Answers.{finish_of};
ghost use Rattle.jl_store.specs.Bindings.{declare_global_variable};
ghost use Rattle.jl_store.specs.BigStep.{BigStep};

use crate::answer::{Finished, finish};
use crate::store::Store;
use jl_heap::Change;
use jl_text::{NoMemory, Text};
use jl_value::{ObjId, Value};

impl Store {
    /// Makes a property of the global object for a name that is declared: it can't be deleted (10.2.1.2.2). It
    /// throws where that can't be.
    pub fn create_global(&mut self, name: &Text) -> Result<Finished<()>, NoMemory>
        ensures { IfOk result (λ end. BigStep (create_global name.now) self.old self.new (finish_of end)) }
    {
        let change = Change {
            value: Some(Value::Undefined),
            writable: Some(true),
            get: None,
            set: None,
            enumerable: Some(true),
            configurable: Some(false),
        };
        match self.define_own_property(ObjId::GLOBAL, name, change)? {
            Finished::Gives(done) => Ok(finish(self.require(done, "cannot define")?)),
            Finished::Throws(thrown) => Ok(Finished::Throws(thrown)),
            Finished::Fails(fault) => Ok(Finished::Fails(fault)),
        }
    }

    /// Declares the variables of a program: each is undefined where the global object has no property of its name
    /// yet (10.5, step 8).
    pub fn declare_global_variables(&mut self, names: &[Text]) -> Result<Finished<()>, NoMemory>
        ensures { IfOk result (λ end. BigStep (declare_global_variables names.now) self.old self.new (finish_of end)) }
    {
        for name in names {
            match self.declare_global_variable(name)? {
                Finished::Gives(()) => {}
                Finished::Throws(thrown) => return Ok(Finished::Throws(thrown)),
                Finished::Fails(fault) => return Ok(Finished::Fails(fault)),
            }
        }
        Ok(Finished::Gives(()))
    }

    /// The same of one variable.
    fn declare_global_variable(&mut self, name: &Text) -> Result<Finished<()>, NoMemory>
        ensures { IfOk result (λ end. BigStep (declare_global_variable name.now) self.old self.new (finish_of end)) }
    {
        if self.has_property(ObjId::GLOBAL, name) {
            return Ok(Finished::Gives(()));
        }
        let end = self.create_global(name)?;
        Ok(end)
    }

    /// Makes the global object ready for a declared function of this name (10.5, step 5.e): a property that can be
    /// deleted, or none, is made anew, and any other has to be one that the function may take over, or that throws.
    pub fn prepare_global(&mut self, name: &Text) -> Result<Finished<()>, NoMemory>
        ensures { IfOk result (λ end.
            BigStep (prepare_global name.now (get_property self.old global_object.0 name.now)) self.old self.new
            (finish_of end)) }
    {
        if self.can_be_made_anew(name) {
            let end = self.create_global(name)?;
            return Ok(end);
        }
        let taken_over = self.can_be_taken_over(name);
        Ok(finish(self.require(taken_over, "cannot define")?))
    }

    fn can_be_made_anew(&self, name: &Text) -> bool
        ensures { result ≡ can_be_made_anew (get_property self.now global_object.0 name.now) }
    {
        match self.get_property(ObjId::GLOBAL, name) {
            None => true,
            Some(property) => property.found.is_configurable(),
        }
    }

    fn can_be_taken_over(&self, name: &Text) -> bool
        ensures { result ≡ can_be_taken_over (get_property self.now global_object.0 name.now) }
    {
        match self.get_property(ObjId::GLOBAL, name) {
            None => false,
            Some(property) => property.found.is_writable() && property.found.is_enumerable(),
        }
    }
}
