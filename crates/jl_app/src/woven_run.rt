//! The run of a woven script, which an observer is told of.
ghost use Rattle.std.specs.Prelude.{◌≡◌, ◌≤◌, [], IfOk};
ghost use Rattle.jl_ast.specs.View.{view};
ghost use Rattle.jl_machine.specs.Runs.{IsRun};
ghost use Rattle.jl_op.specs.KindSets.{is_member};
ghost use Rattle.jl_simulation.specs.Plain.{HasFewIds};
ghost use Rattle.jl_app.specs.Telling.{told_run};
ghost use Rattle.jl_app.specs.WovenRuns.{woven_budget};

use crate::lint::woven_budget;
use crate::run::run_program;
use jl_ast::Program;
use jl_machine::Run;
use jl_op::{KindSet, Observer};
use jl_weave::weave;
use std::alloc::{AllocError, Global};
use std::hash::RandomState;

/// Weaves a program for operations of these kinds, and runs it with as many steps as the woven script has where the
/// script has this many. The observer is told of the operations that the hooks tell of.
pub(crate) fn run_woven<O: Observer>(
    alloc: Global,
    keys: RandomState,
    program: &Program,
    budget: u64,
    kinds: KindSet,
    observer: &mut O,
) -> Result<Run, AllocError>
    requires few { HasFewIds (view program.now) }
    requires budget { budget ≤ 1000000000 }
    ensures is { O.stands_for observer.old [] → IfOk result (λ r. IsRun O.stands_for [] (woven_budget budget)
        (told_run (is_member kinds) (view program.now) budget) r observer.new) }
    ensures fixed { O.fixed observer.new ≡ O.fixed observer.old }
{
    let woven = weave(alloc, program, kinds)?;
    run_program(alloc, keys, &woven, woven_budget(budget), kinds, observer)
}
