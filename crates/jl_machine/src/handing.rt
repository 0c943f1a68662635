//! What is handed to the innermost of the frames, or to the innermost that takes it.
ghost use Rattle.std.specs.Prelude.{◌+◌, ◌≡◌, true, IfOk};
ghost use Rattle.jl_state.specs.Handlers.{handles, is_abrupt};
ghost use Rattle.jl_state.specs.Rank.{rank};
ghost use Rattle.jl_state.specs.Rest.{Completion-given, Nothing, Value-given};
ghost use Rattle.jl_machine.specs.inner.Going.{NextRankedBelow};
ghost use Rattle.jl_machine.specs.inner.Handed.{Continues, EndsProgram, Delivers, InnermostHandles};
ghost use Rattle.jl_state.specs.Clauses.{RankAtMost};

use crate::algorithms::step_algorithm;
use crate::ending::Next;
use jl_call::resume_emit;
use jl_expression::step_value;
use jl_function::step_body;
use jl_state::{Act, Frame, State, is_abrupt};
use jl_statement::{step_completion, step_statement};
use jl_text::NoMemory;
use jl_value::{Completion, Fault, Outcome, Value};

/// A frame goes on with a value. One that waits for none ends the run.
#[tactic(auto, using(crate::proofs::Continuing::value_continues, crate::proofs::Continuing::algorithm_continues, crate::proofs::Continuing::statement_continues, crate::proofs::Continuing::misused))]
fn continue_with_value<'p>(
    state: &mut State<'p>,
    frame: Frame<'p>,
    v: Value,
) -> Result<Act<'p>, NoMemory>
    ensures continues { IfOk result (λ act. Continues state.old frame.entry (Value-given v) state.new act) }
    ensures bounded { RankAtMost state.old (rank frame.entry + 2) result state.new }
{
    match frame {
        Frame::Value(frame) => step_value(state, frame, v),
        Frame::Algorithm(frame) => step_algorithm(state, frame, v),
        Frame::Statement(frame) => step_statement(state, frame, v),
        Frame::Completion(frame) => {
            drop(frame);
            Ok(Act::Fault(Fault::Misuse))
        }
        Frame::Told(frame) => {
            drop(frame);
            Ok(Act::Fault(Fault::Misuse))
        }
        Frame::Give(given) => {
            drop(given);
            Ok(Act::Fault(Fault::Misuse))
        }
        Frame::Body => Ok(Act::Fault(Fault::Misuse)),
    }
}

/// A frame goes on with a completion, which it takes or which is a normal one. One that waits for none ends the run.
#[tactic(auto, using(crate::proofs::Continuing::completion_continues, crate::proofs::Continuing::body_continues))]
fn continue_with_completion<'p>(
    state: &mut State<'p>,
    frame: Frame<'p>,
    how: Completion,
) -> Result<Act<'p>, NoMemory>
    requires { is_abrupt how ≡ true → handles frame how ≡ true }
    ensures continues { IfOk result (λ act. Continues state.old frame.entry (Completion-given how) state.new act) }
    ensures bounded { RankAtMost state.old (rank frame.entry + 2) result state.new }
{
    match frame {
        Frame::Value(frame) => {
            drop(frame);
            Ok(Act::Fault(Fault::Misuse))
        }
        Frame::Algorithm(frame) => {
            drop(frame);
            Ok(Act::Fault(Fault::Misuse))
        }
        Frame::Statement(frame) => {
            drop(frame);
            Ok(Act::Fault(Fault::Misuse))
        }
        Frame::Completion(frame) => step_completion(state, frame, how),
        Frame::Told(frame) => {
            drop(frame);
            Ok(Act::Fault(Fault::Misuse))
        }
        Frame::Give(given) => {
            drop(given);
            Ok(Act::Fault(Fault::Misuse))
        }
        Frame::Body => step_body(state, how),
    }
}

/// A frame goes on by itself. One that waits for something ends the run.
#[tactic(auto, using(crate::proofs::Continuing::told_continues, crate::proofs::Continuing::given_continues, crate::proofs::Continuing::misused))]
fn continue_by_itself<'p>(state: &mut State<'p>, frame: Frame<'p>) -> Result<Act<'p>, NoMemory>
    ensures continues { IfOk result (λ act. Continues state.old frame.entry Nothing state.new act) }
    ensures bounded { RankAtMost state.old (rank frame.entry + 1) result state.new }
{
    match frame {
        Frame::Told(frame) => resume_emit(state, frame.into_inner()),
        Frame::Give(v) => Ok(Act::Give(v)),
        Frame::Value(frame) => {
            drop(frame);
            Ok(Act::Fault(Fault::Misuse))
        }
        Frame::Algorithm(frame) => {
            drop(frame);
            Ok(Act::Fault(Fault::Misuse))
        }
        Frame::Statement(frame) => {
            drop(frame);
            Ok(Act::Fault(Fault::Misuse))
        }
        Frame::Completion(frame) => {
            drop(frame);
            Ok(Act::Fault(Fault::Misuse))
        }
        Frame::Body => Ok(Act::Fault(Fault::Misuse)),
    }
}

/// The innermost frame is handed a value.
#[tactic(auto, using(crate::proofs::Continuing::handed, crate::proofs::Continuing::handed_nobody, crate::proofs::Ranks::falls_popped))]
pub(crate) fn give_value<'p>(state: &mut State<'p>, v: Value) -> Result<Act<'p>, NoMemory>
    ensures hands { IfOk result (λ act. Delivers state.old (Value-given v) state.new (Next.Act act)) }
    ensures bounded { RankAtMost state.old 2 result state.new }
{
    match state.stack.pop() {
        None => Ok(Act::Fault(Fault::Misuse)),
        Some(frame) => continue_with_value(state, frame, v),
    }
}

/// The innermost frame is handed a completion, or where there is none, the program has completed so.
#[tactic(auto, using(crate::proofs::Continuing::handed, crate::proofs::Continuing::ended, crate::proofs::Ranks::falls_popped))]
fn give_innermost<'p>(state: &mut State<'p>, how: Completion) -> Result<Next<'p>, NoMemory>
    requires { is_abrupt how ≡ true → InnermostHandles how state.old.stack }
    ensures hands { IfOk result (λ n. Delivers state.old (Completion-given how) state.new n) }
    ensures bounded { IfOk result (λ n. NextRankedBelow state.old 2 state.new n) }
{
    match state.stack.pop() {
        None => Ok(Next::Over(end_program(how))),
        Some(frame) => Ok(Next::Act(continue_with_completion(state, frame, how)?)),
    }
}

/// The innermost frame that takes an abrupt completion is handed it, and those above it are let go. Where none takes
/// it, the program has completed so.
fn give_handler<'p>(state: &mut State<'p>, how: Completion) -> Result<Next<'p>, NoMemory>
    requires { is_abrupt how ≡ true }
    ensures hands { IfOk result (λ n. Delivers state.old (Completion-given how) state.new n) }
    ensures bounded { IfOk result (λ n. NextRankedBelow state.old 2 state.new n) }
{
    match state.unwind(&how) {
        None => Ok(Next::Over(end_program(how))),
        Some(_) => give_innermost(state, how),
    }
}

/// A completion is handed on: a normal one to the innermost frame, and any other to the innermost that takes it. Where
/// there is no such frame, the program has completed so.
pub(crate) fn give_completion<'p>(
    state: &mut State<'p>,
    how: Completion,
) -> Result<Next<'p>, NoMemory>
    ensures hands { IfOk result (λ n. Delivers state.old (Completion-given how) state.new n) }
    ensures bounded { IfOk result (λ n. NextRankedBelow state.old 2 state.new n) }
{
    if is_abrupt(&how) {
        return give_handler(state, how);
    }
    give_innermost(state, how)
}

/// The innermost frame goes on.
#[tactic(auto, using(crate::proofs::Continuing::handed, crate::proofs::Continuing::handed_nobody, crate::proofs::Ranks::falls_popped))]
pub(crate) fn resume<'p>(state: &mut State<'p>) -> Result<Act<'p>, NoMemory>
    ensures hands { IfOk result (λ act. Delivers state.old Nothing state.new (Next.Act act)) }
    ensures bounded { RankAtMost state.old 1 result state.new }
{
    match state.stack.pop() {
        None => Ok(Act::Fault(Fault::Misuse)),
        Some(frame) => continue_by_itself(state, frame),
    }
}

/// How a program ends whose statements have completed so (clause 14). None completes but normally or by what it throws.
fn end_program(how: Completion) -> Outcome
    ensures { EndsProgram how result }
{
    match how {
        Completion::Normal => Outcome::Normal,
        Completion::Throw(v) => Outcome::Thrown(v),
        Completion::Return(_) => Outcome::Fault(Fault::Misuse),
        Completion::Break(_) => Outcome::Fault(Fault::Misuse),
        Completion::Continue(_) => Outcome::Fault(Fault::Misuse),
    }
}
