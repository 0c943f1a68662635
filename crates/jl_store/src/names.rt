//! Names, and what they refer to (10.2).
ghost use Rattle.std.specs.Prelude.{◌≡◌, IfOk};
ghost use Rattle.std.specs.Option.{option_copied, option_map};
ghost use Rattle.jl_meaning.specs.References.{identifier_reference, global_reference};
ghost use Rattle.jl_meaning.specs.Store.{binding_of, has_binding};
ghost use Rattle.jl_store.specs.Environments.{bound_to};
ghost use Rattle.jl_store.specs.LookUps.{reference_seen, value_referred};

use crate::environments::Bound;
use crate::store::Store;
use jl_text::{NoMemory, Text};
use jl_value::{ObjId, Value, share};

/// What a name refers to (8.7): a binding of an environment, a property of the global object, or nothing.
#[derive(Clone, Copy, PartialEq, Eq, Debug)]
pub enum Reference {
    InEnvironment(usize),
    OnGlobalObject,
    Unresolvable,
}

impl Store {
    /// What a name is bound to in an environment. It takes the logarithm of the number of its bindings.
    pub fn binding(&self, env: usize, name: &Text) -> Option<&Bound>
        ensures { option_map (bound_to name.now) (option_copied result) ≡ binding_of self.now env name.now }
    {
        self.environments.binding(env, name)
    }

    /// Whether an environment binds a name (10.2.1.1.1).
    pub fn has_binding(&self, env: usize, name: &Text) -> bool
        ensures { result ≡ has_binding self.now env name.now }
    {
        self.binding(env, name).is_some()
    }

    /// What a name refers to, from an environment on (10.2.2.1).
    #[tactic(auto, unfolding(jl_meaning::specs::References::identifier_reference))]
    pub fn identifier_reference(&self, env: usize, name: &Text) -> Reference
        ensures { reference_seen result ≡ identifier_reference self.now env name.now }
    {
        let mut at = env;
        loop {
            if self.has_binding(at, name) {
                return Reference::InEnvironment(at);
            }
            match self.outer_of(at) {
                Some(outer) => at = outer,
                None => return self.global_reference(name),
            }
        }
    }

    /// The value of a name that is bound, from an environment on, or by a data property of the global object (8.7.1,
    /// 10.2.2.1). It takes no memory but where the units of a text have to be copied.
    pub fn value_of_name(&self, env: usize, name: &Text) -> Result<Option<Value>, NoMemory>
        ensures { IfOk result (λ value. value ≡ value_referred self.now name.now (identifier_reference self.now env
            name.now)) }
    {
        let mut at = env;
        loop {
            if let Some(bound) = self.binding(at, name) {
                return Ok(Some(share(self.alloc, &bound.value)?));
            }
            match self.outer_of(at) {
                Some(outer) => at = outer,
                None => return self.value_of_global(name),
            }
        }
    }

    /// The value of a name by a data property of the global object.
    fn value_of_global(&self, name: &Text) -> Result<Option<Value>, NoMemory>
        ensures { IfOk result (λ value. value ≡ value_referred self.now name.now (global_reference self.now name.now)) }
    {
        match self.get_property(ObjId::GLOBAL, name) {
            Some(property) => property.found.value(self.alloc),
            None => Ok(None),
        }
    }

    /// What a name refers to that no environment binds (10.2.1.2.1).
    fn global_reference(&self, name: &Text) -> Reference
        ensures { reference_seen result ≡ global_reference self.now name.now }
    {
        if self.has_property(ObjId::GLOBAL, name) {
            Reference::OnGlobalObject
        } else {
            Reference::Unresolvable
        }
    }
}
