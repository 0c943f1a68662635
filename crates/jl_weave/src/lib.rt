//! Weaves a script: each operation of a chosen kind becomes a call of a hook, which does the same and tells of it.
#![tactic(auto)]

ghost use Rattle.std.specs.Prelude.{◌≡◌, ◌≤◌, ◌*◌, ◌+◌, [], IfOk};
ghost use Rattle.jl_ast.specs.Height.{program_height};
ghost use Rattle.jl_ast.specs.Spans.{without_spans};
ghost use Rattle.jl_ast.specs.View.{view};
ghost use Rattle.jl_op.specs.KindSets.{is_member};
ghost use Rattle.jl_print.specs.WellFormed.{IsWellFormed};
ghost use Rattle.jl_read_back.specs.EarlyErrors.{AreReservedNames};
ghost use Rattle.jl_read_back.specs.Laws.{ReadsBackWithin};
ghost use Rattle.jl_scope.specs.EarlyErrors.{early_errors_of};
ghost use Rattle.jl_simulation.specs.Plain.{HasFewIds};
ghost use Rattle.jl_simulation.specs.Weaving.{woven_program};
ghost use Rattle.jl_weave.specs.Accepted.{IsAccepted};
ghost use Rattle.jl_weave.specs.Simulated.{IsSimulatedBy};

mod calls;
mod copies;
mod expressions;
mod functions;
mod hook_calls;
mod ids;
mod lists;
mod loops;
mod members;
mod names_and_literals;
mod nodes;
mod operators;
mod statement_nodes;
mod statements;
mod updates;
mod weaver;

use crate::ids::Ids;
use crate::lists::{weave_functions, weave_statements};
use crate::weaver::Weaver;
use jl_ast::{Body, Program};
use jl_op::KindSet;
use jl_print::laws::{printed_reads_back, text_is_paired};
use jl_read_back::laws::{woven_height, woven_is_well_formed, woven_keeps_rules};
use jl_simulation::laws::accepted_scripts_simulate;
use jl_text::{NoMemory, Span};
use std::alloc::Global;

/// The woven program: each node of the program that performs an operation of one of these kinds calls the hook that
/// does the same, with the node's id; any other keeps its form. A woven node has the place of the node that it tells
/// of. It is refused for want of memory alone, takes time in proportion to the program, and recurses as deep as that is
/// high.
pub fn weave(alloc: Global, program: &Program, kinds: KindSet) -> Result<Program, NoMemory>
    requires { HasFewIds (view program.now) }
    ensures woven { IfOk result (λ woven.
        without_spans (view woven) ≡ woven_program (is_member kinds) (view program.now)) }
    // It does what an accepted script does, with any number of steps, and its hooks emit the operations of these kinds.
    ensures simulates { IfOk result (λ woven. IsAccepted (view program.now)
        → IsSimulatedBy (is_member kinds) (view program.now) (view woven)) }
    // A script of 200 levels becomes one of at most 604.
    ensures low { IfOk result (λ woven. program_height (view woven) ≤ 3 * program_height (view program.now) + 4) }
    // Its canonical text reads back as it within that height, and so with at most twice as many brackets open: 1,208.
    ensures back { IfOk result (λ woven. IsWellFormed (view program.now)
        → ReadsBackWithin (3 * program_height (view program.now) + 4) (view woven)) }
    // It breaks no early rule and mentions no left-out name that nothing binds: all that is wrong with it is the name
    // of the hooks.
    ensures rules { IfOk result (λ woven. early_errors_of (view program.now) ≡ []
        → AreReservedNames (early_errors_of (view woven))) }
{
    accepted_scripts_simulate();
    woven_height::<Span, Span>();
    woven_is_well_formed::<Span, Span>();
    printed_reads_back();
    text_is_paired();
    woven_keeps_rules();
    weave_program(alloc, program, kinds)
}

/// The walk over a program.
fn weave_program(alloc: Global, program: &Program, kinds: KindSet) -> Result<Program, NoMemory>
    requires { HasFewIds (view program.now) }
    ensures { IfOk result (λ woven. without_spans (view woven) ≡ woven_program (is_member kinds) (view program.now)) }
{
    let w = Weaver { alloc, kinds };
    let mut ids = Ids::starting_at(3);
    let functions = weave_functions(&w, program.body.functions.items(), &mut ids)?;
    let first = w.beginning(1, program.span)?;
    let statements = weave_statements(&w, program.body.statements.items(), first, &mut ids)?;
    let statements = w.with_end_hook(1, statements, program.span)?;
    Ok(Program {
        body: Body {
            strict: program.body.strict,
            functions,
            statements,
        },
        span: program.span,
    })
}
