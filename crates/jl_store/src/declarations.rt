//! What is bound before the code of a function runs: Declaration Binding Instantiation (10.5).
ghost use Rattle.std.specs.Prelude.{IfOk, IsNone, OnOk};
ghost use Rattle.jl_effects.specs.Running.{Ends};
ghost use Rattle.jl_meaning.specs.DeclarationBinding.{bind_arguments, declare_body, declare_function};
ghost use Rattle.jl_meaning.specs.DeclarationBinding.{declare_functions};
ghost use Rattle.jl_meaning.specs.FunctionObjects.{function_name};
ghost use Rattle.jl_meaning.specs.Parts.{gives};
ghost use Rattle.jl_meaning.specs.Store.{binding_of};
ghost use Rattle.jl_scope.specs.Names.{arguments_name};
ghost use Rattle.jl_store.specs.BigStep.{BigStep};
ghost use Rattle.jl_store.specs.Declarations.{bind_arguments_where, Declares};
ghost use Rattle.jl_store.specs.Plain.{code_in, names_of, plain_code, plain_function, plain_functions};

use crate::environments::Bound;
use crate::store::Store;
use jl_ast::{Body, Function, Ident};
use jl_scope::{mentions_arguments, vars};
use jl_text::{NoMemory, Text, word};
use jl_value::{ObjId, Value};
use std::alloc::Global;

/// What a body declares, found once and not at each call: its variables, each once, and whether it mentions
/// `arguments`.
#[derive(Drop)]
pub struct Declared {
    pub variables: Vec<Text>,
    pub mentions_arguments: bool,
}

impl Declared {
    /// What a body declares.
    pub fn of(alloc: Global, body: &Body) -> Result<Declared, NoMemory>
        ensures { IfOk result (λ declared.
            Declares (plain_code body.now) declared.variables.items declared.mentions_arguments) }
    {
        let variables = vars(alloc, body)?;
        let mentions_arguments = mentions_arguments(body);
        Ok(Declared {
            variables,
            mentions_arguments,
        })
    }
}

impl Store {
    /// Binds the functions that a body declares (10.5, step 5).
    pub fn declare_functions(
        &mut self,
        functions: &[Function],
        env: usize,
        strict: bool,
    ) -> Result<(), NoMemory>
        ensures { OnOk result (BigStep (declare_functions (plain_functions functions.now) (code_in env strict)) self.old
            self.new (Ends (gives tt))) }
    {
        for f in functions {
            let id = self.make_function(strict, env, f)?;
            self.declare_function(env, f, id)?;
        }
        Ok(())
    }

    /// Binds the name of a declared function.
    fn declare_function(&mut self, env: usize, f: &Function, id: ObjId) -> Result<(), NoMemory>
        ensures { OnOk result (BigStep (declare_function env (function_name (plain_function f.now)) id) self.old
            self.new (Ends (gives tt))) }
    {
        if let Some(name) = &f.name {
            self.declare_binding(env, &name.text, Value::Obj(id))?;
        }
        Ok(())
    }

    /// Binds `arguments`, in strict code for good (10.5, step 7).
    #[tactic(auto, unfolding(jl_scope::specs::Names::arguments_name))]
    fn bind_arguments(
        &mut self,
        strict: bool,
        callee: ObjId,
        env: usize,
        params: &[Ident],
        args: &[Value],
    ) -> Result<(), NoMemory>
        requires { IsNone (binding_of self.old env arguments_name) }
        ensures { OnOk result (BigStep (bind_arguments strict callee env (names_of params.now) args.now) self.old
            self.new (Ends (gives tt))) }
    {
        let name = word(self.alloc, "arguments")?;
        let id = self.create_arguments_object(strict, callee, env, params, args)?;
        let bound = Bound {
            value: Value::Obj(id),
            mutable: !strict,
        };
        self.new_binding(env, &name, bound)?;
        Ok(())
    }

    /// The same where `arguments` is mentioned, and neither a parameter nor a function has that name.
    #[tactic(auto, unfolding(jl_scope::specs::Names::arguments_name))]
    fn bind_arguments_where(
        &mut self,
        mentioned: bool,
        strict: bool,
        callee: ObjId,
        env: usize,
        params: &[Ident],
        args: &[Value],
    ) -> Result<(), NoMemory>
        ensures { OnOk result (BigStep (bind_arguments_where mentioned strict callee env (names_of params.now) args.now)
            self.old self.new (Ends (gives tt))) }
    {
        if !mentioned {
            return Ok(());
        }
        let name = word(self.alloc, "arguments")?;
        if self.has_binding(env, &name) {
            return Ok(());
        }
        self.bind_arguments(strict, callee, env, params, args)?;
        Ok(())
    }

    /// Declaration Binding Instantiation of a function, in the environment that it has been given (10.5).
    #[tactic(auto, unfolding(jl_meaning::specs::DeclarationBinding::declare_body))]
    pub fn declare_body(
        &mut self,
        body: &Body,
        declared: &Declared,
        strict: bool,
        callee: ObjId,
        params: &[Ident],
        args: &[Value],
        env: usize,
    ) -> Result<(), NoMemory>
        requires { Declares (plain_code body.now) declared.now.variables.items declared.now.mentions_arguments }
        ensures { OnOk result (BigStep (declare_body (plain_code body.now) strict callee (names_of params.now) args.now
            (code_in env strict)) self.old self.new (Ends (gives tt))) }
    {
        self.bind_parameters(env, params, args)?;
        self.declare_functions(body.functions.items(), env, strict)?;
        let mentioned = declared.mentions_arguments;
        self.bind_arguments_where(mentioned, strict, callee, env, params, args)?;
        self.declare_variables(env, declared.variables.as_slice())?;
        Ok(())
    }
}
