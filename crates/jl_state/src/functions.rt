//! The functions of the script, as its calls find them.
ghost use Rattle.std.specs.Prelude.{◌≡◌, IfOk};
ghost use Rattle.jl_meaning.specs.FunctionObjects.{function_body};
ghost use Rattle.jl_scope.specs.Hoisting.{strict_in};
ghost use Rattle.jl_store.specs.Plain.{plain_function};
ghost use Rattle.jl_state.specs.Words.{function_of};

use crate::script_function::ScriptFunction;
use jl_ast::Function;
use jl_scope::is_strict;
use jl_store::Declared;
use jl_text::NoMemory;
use std::alloc::Global;

impl<'p> ScriptFunction<'p> {
    /// A function that stands in code which is strict or not. It takes a walk over its body.
    #[tactic(auto, using(jl_ast::proofs::Views::nodes, jl_store::proofs::Trees::plain_is))]
    pub fn of(
        alloc: Global,
        function: &'p Function,
        is_outer_strict: bool,
    ) -> Result<ScriptFunction<'p>, NoMemory>
        ensures { IfOk result (λ made. function_of made ≡ record {
          func = plain_function function.now;
          strict = strict_in is_outer_strict (function_body (plain_function function.now));
        }) }
    {
        let is_strict = is_strict(is_outer_strict, &function.body);
        let declared = Declared::of(alloc, &function.body)?;
        Ok(ScriptFunction {
            function,
            is_strict,
            declared,
        })
    }
}
