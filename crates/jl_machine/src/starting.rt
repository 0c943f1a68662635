//! How a run begins.
ghost use Rattle.std.specs.Prelude.{◌≡◌, IfOk};
ghost use Rattle.jl_ast.specs.View.{view};
ghost use Rattle.jl_state.specs.Words.{context_of, table_of};
ghost use Rattle.jl_store.specs.Plain.{code_in, plain_code};
ghost use Rattle.jl_realm.specs.Global.{HasGlobalObject};
ghost use Rattle.jl_machine.specs.inner.Starts.{program_body, IsStart};
ghost use Rattle.jl_state.specs.Clauses.{Executes};

use jl_ast::{Body, Program};
use jl_realm::{declare_program, functions, initial_store};
use jl_state::{Act, Calls, Here, Stack, State};
use jl_statement::begin_statements;
use jl_store::Answer;
use jl_text::{List, NoMemory};
use jl_value::Completion;
use std::alloc::Global;
use std::hash::RandomState;

/// The state in which the run of a program begins.
pub(crate) fn start<'p>(
    alloc: Global,
    keys: RandomState,
    program: &'p Program,
    budget: u64,
) -> Result<State<'p>, NoMemory>
    ensures is { IfOk result (λ state. IsStart (view program.now) budget state) }
    ensures global { IfOk result (λ state. HasGlobalObject state.store) }
{
    Ok(State {
        store: initial_store(alloc, keys)?,
        functions: functions(alloc, program)?,
        calls: Calls::new(alloc),
        stack: Stack::new(alloc),
        output: List::new(alloc),
        left: budget,
    })
}

/// What a program declares is bound (10.5), and then its statements begin (clause 14).
pub(crate) fn begin_program<'p>(
    state: &mut State<'p>,
    body: &'p Body,
    here: Here,
) -> Result<Act<'p>, NoMemory>
    requires { HasGlobalObject state.old.store }
    ensures { Executes state.old (program_body (table_of state.old.functions) (plain_code body.now) (code_in 0
        here.strict) (context_of state.old.calls here)) result state.new }
{
    let alloc = state.alloc();
    match declare_program(alloc, &mut state.store, body, here.strict)? {
        Answer::Gives(()) => Ok(begin_statements(state, &body.statements, here)?),
        Answer::Throws(thrown) => Ok(Act::Complete(Completion::Throw(thrown))),
    }
}
