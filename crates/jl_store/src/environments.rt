//! The environments in which names are bound (10.2).
ghost use Rattle.std.specs.Prelude.{◌≡◌, [], ◌∷◌, ◌++◌, length, IfOk, IsNone, OnErr, OnOk};
ghost use Rattle.std.specs.Option.{option_copied, option_map};

use jl_named::NamedList;
use jl_text::{NoMemory, Text};
use jl_value::Value;
use std::alloc::Global;
use std::marker::Model;

/// What a name is bound to, and whether that can be changed (10.2.1.1).
#[derive(Drop)]
pub struct Bound {
    pub value: Value,
    pub mutable: bool,
}

/// What comes of another value for the binding of a name, where only a binding that can be changed takes it
/// (10.2.1.1.3).
#[derive(Clone, Copy)]
pub(crate) enum Rebinding {
    Changed,
    Immutable,
    Unbound,
}

/// An environment: the index of the one around it, and its bindings in the order in which they were made.
#[derive(Drop)]
struct Scope {
    outer: Option<usize>,
    bindings: NamedList<Bound>,
}

/// The environments of a run, each at its index, from 0. They are never given up. Contracts see of each the index
/// of the one around it, which is smaller, and its bindings in the order in which they were made.
#[derive(Drop)]
pub(crate) struct Environments {
    alloc: Global,
    scopes: Vec<Scope>,
}

impl Model for Environments {
    ghost use Rattle.std.specs.Prelude.{List as Items};
    ghost use Rattle.jl_meaning.specs.Store.{Environment};
    ghost use Rattle.jl_store.specs.Environments.{OutersAreBefore};
    ghost use Rattle.jl_store.specs.inner.Inside.{environments_of};

    ghost Value = { Items Environment };

    ghost view = { λ a. environments_of a.scopes.items };

    ghost invariant = { λ a. OutersAreBefore (environments_of a.scopes.items) };
}

impl Environments {
    ghost use Rattle.jl_meaning.specs.Store.{binding_named, no_environment};
    ghost use Rattle.jl_store.specs.Environments.{bound_to, environment_in, OutersAreBefore, with_bindings_in};
    ghost use Rattle.jl_store.specs.Environments.{outer_in, with_environment_in};
    ghost use Rattle.jl_store.specs.Environments.{rebinding_of, with_rebinding};
    ghost use Rattle.jl_meaning.specs.Changes.{rebound};

    /// The global environment, which has index 0 and no bindings (10.2.3).
    pub(crate) fn new(alloc: Global) -> Result<Environments, NoMemory>
        ensures { IfOk result (λ made. made ≡ no_environment ∷ []) }
    {
        let mut scopes = Vec::new(alloc);
        scopes.push(Scope {
            outer: None,
            bindings: NamedList::new(alloc),
        })?;
        Ok(Environments { alloc, scopes })
    }

    /// How many environments there are.
    pub(crate) fn len(&self) -> usize
        ensures { result ≡ length self.now }
    {
        self.scopes.len()
    }

    /// The index of the environment around one, if there is one (10.2). It is smaller.
    pub(crate) fn outer_of(&self, env: usize) -> Option<usize>
        ensures value { result ≡ (environment_in self.now env).outer }
        ensures before { OutersAreBefore self.now }
    {
        let scope = self.scopes.get(env)?;
        scope.outer
    }

    /// What a name is bound to in an environment.
    pub(crate) fn binding(&self, env: usize, name: &Text) -> Option<&Bound>
        ensures { option_map (bound_to name.now) (option_copied result)
            ≡ binding_named name.now (environment_in self.now env).bindings }
    {
        let scope = self.scopes.get(env)?;
        scope.bindings.get(name)
    }

    /// Makes an environment inside another and answers its index (10.2.2.2). Where that other isn't there, none is
    /// around it. Where no memory is left, all is as before.
    pub(crate) fn push(&mut self, outer: usize) -> Result<usize, NoMemory>
        ensures index { IfOk result (λ env. env ≡ length self.old) }
        ensures made { OnOk result (self.new ≡ with_environment_in self.old outer) }
        ensures err { OnErr result (self.new ≡ self.old) }
    {
        let env = self.scopes.len();
        let outer = self.outer_there(outer);
        self.scopes.reserve(1)?;
        self.scopes.push_reserved(Scope {
            outer,
            bindings: NamedList::new(self.alloc),
        });
        Ok(env)
    }

    /// The environment around a new one, if it is there.
    fn outer_there(&self, outer: usize) -> Option<usize>
        ensures { result ≡ outer_in self.now outer }
    {
        if outer < self.len() {
            Some(outer)
        } else {
            None
        }
    }

    /// Binds a name that isn't bound in an environment yet. The binding comes last; where the environment isn't
    /// there, nothing changes. Where no memory is left, all is as before.
    pub(crate) fn bind(&mut self, env: usize, name: Text, bound: Bound) -> Result<(), NoMemory>
        requires { IsNone (binding_named name (environment_in self.old env).bindings) }
        ensures made { OnOk result (self.new
            ≡ with_bindings_in self.old env ((environment_in self.old env).bindings ++ bound_to name bound ∷ [])) }
        ensures err { OnErr result (self.new ≡ self.old) }
    {
        if env >= self.scopes.len() {
            return Ok(());
        }
        let scope = &mut self.scopes[env];
        scope.bindings.push(self.alloc, name, bound)
    }

    /// Binds a name to another value, where it is bound in an environment (10.2.1.1.3). It takes no memory.
    pub(crate) fn rebind(&mut self, env: usize, name: &Text, value: Value)
        ensures { self.new
            ≡ with_bindings_in self.old env (rebound name.now value (environment_in self.old env).bindings) }
    {
        if env >= self.scopes.len() {
            return;
        }
        let scope = &mut self.scopes[env];
        if let Some(bound) = scope.bindings.get_mut(name) {
            bound.value = value;
        }
    }

    /// Binds a name to another value, where it is bound in an environment and can be changed (10.2.1.1.3), in one
    /// look-up, and says what was found there. It takes no memory.
    pub(crate) fn rebind_mutable(&mut self, env: usize, name: &Text, value: Value) -> Rebinding
        ensures found { result ≡ rebinding_of (binding_named name.now (environment_in self.old env).bindings) }
        ensures made { self.new ≡ with_rebinding result self.old env name.now value }
    {
        if env >= self.scopes.len() {
            return Rebinding::Unbound;
        }
        let scope = &mut self.scopes[env];
        match scope.bindings.get_mut(name) {
            Some(bound) => bound.rebind(value),
            None => Rebinding::Unbound,
        }
    }
}

impl Bound {
    ghost use Rattle.jl_store.specs.Environments.{rebinding, with_value_if};

    /// Gives a binding another value, where it can be changed, and says whether it can.
    fn rebind(&mut self, value: Value) -> Rebinding
        ensures found { result ≡ rebinding self.old.mutable }
        ensures made { self.new ≡ with_value_if self.old.mutable value self.old }
    {
        if !self.mutable {
            return Rebinding::Immutable;
        }
        self.value = value;
        Rebinding::Changed
    }
}
