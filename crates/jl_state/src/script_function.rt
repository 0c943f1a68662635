//! A function of the script.
ghost use Rattle.jl_meaning.specs.FunctionObjects.{function_body};
ghost use Rattle.jl_store.specs.Declarations.{Declares};
ghost use Rattle.jl_store.specs.Plain.{plain_function};

use jl_ast::Function;
use jl_store::Declared;

/// A function of the script, with what each of its calls needs: whether it is strict code (10.1.1), and what its body
/// declares (10.5).
#[derive(Drop)]
pub struct ScriptFunction<'p> {
    pub function: &'p Function,
    pub is_strict: bool,
    pub declared: Declared,
    ghost declares: { Declares (function_body
        (plain_function function.now)) declared.variables.items declared.mentions_arguments },
}
