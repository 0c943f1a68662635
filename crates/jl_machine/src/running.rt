//! The run of a program.
ghost use Rattle.std.specs.Prelude.{◌≡◌, IfOk, List as Items, OnOk};
ghost use Rattle.jl_ast.specs.View.{view};
ghost use Rattle.jl_op.specs.KindSets.{is_member};
ghost use Rattle.jl_op.specs.Operations.{Operation};
ghost use Rattle.jl_machine.specs.Runs.{hooked_mean, steps_of, IsRun};

use crate::advancing::run_to_end;
use crate::ending::Run;
use crate::starting::{begin_program, start};
use jl_ast::Program;
use jl_hook_bound::laws::hooks_take_steps;
use jl_op::{KindSet, Observer};
use jl_scope::is_strict;
use jl_state::{Here, State};
use jl_text::NoMemory;
use jl_value::Outcome;
use std::alloc::Global;
use std::hash::RandomState;

/// How many of the steps were taken where so many are left. Of a run that is spent, all were taken.
fn steps_taken(outcome: &Outcome, budget: u64, left: u64) -> u64
    ensures { result ≡ steps_of outcome.now budget left }
{
    let taken = budget.saturating_sub(left);
    match outcome {
        Outcome::Spent => budget,
        Outcome::Normal => taken,
        Outcome::Thrown(_) => taken,
        Outcome::Fault(_) => taken,
    }
}

/// Runs a program from the objects that a run begins with (clauses 10 to 15), with at most so many steps, and tells the
/// observer of each operation that hooks emit and that is of one of these kinds. Gives how the run ended, what the
/// script printed, in UTF-8, the store as the script left it, how many steps were taken, and how many operations the
/// observer was told of. Its one error is that memory is wanting, to the run or to the observer.
pub fn run<O: Observer>(
    alloc: Global,
    keys: RandomState,
    program: &Program,
    budget: u64,
    kinds: KindSet,
    observer: &mut O,
) -> Result<Run, NoMemory>
    ensures is { (before : Items Operation) → O.stands_for observer.old before → IfOk result (λ r.
        IsRun O.stands_for before budget (hooked_mean (is_member kinds) (view program.now) budget) r observer.new) }
    ensures accepted { OnOk result (O.has_refused observer.new ≡ O.has_refused observer.old) }
    ensures fixed { O.fixed observer.new ≡ O.fixed observer.old }
{
    hooks_take_steps::<jl_text::Span>();
    let mut state = start(alloc, keys, program, budget)?;
    let here = Here {
        env: 0,
        strict: is_strict(false, &program.body),
    };
    let mut hooks = 0;
    let act = begin_program(&mut state, &program.body, here)?;
    let outcome = run_to_end(&mut state, kinds, observer, &mut hooks, act)?;
    let State {
        store,
        output,
        left,
        ..
    } = state;
    let steps = steps_taken(&outcome, budget, left);
    Ok(Run {
        outcome,
        output,
        store,
        steps,
        hooks,
    })
}
