//! One act after another.
ghost use Rattle.std.specs.Prelude.{◌≡◌, IfOk, OnOk};
ghost use Rattle.jl_machine.specs.inner.Going.{StepRefines};

use crate::calls::begin_call;
use crate::ending::Next;
use crate::handing::{give_completion, give_value, resume};
use crate::telling::tell;
use jl_expression::begin_expression;
use jl_op::{KindSet, Observer};
use jl_state::{Act, State};
use jl_statement::begin_statement;
use jl_text::NoMemory;
use jl_value::Outcome;

/// How the run ends that goes on from an act. The acts up to the next step that is taken are an inner loop.
#[tactic(auto, using(crate::proofs::Acts::acts))]
pub(crate) fn run_to_end<'p, O: Observer>(
    state: &mut State<'p>,
    kinds: KindSet,
    observer: &mut O,
    hooks: &mut u64,
    first: Act<'p>,
) -> Result<Outcome, NoMemory>
    ensures goes { IfOk result (λ end. StepRefines O.stands_for kinds observer.old hooks.old state.old first.entry
        observer.new hooks.new state.new (Next.Over end)) }
    ensures accepted { OnOk result (O.has_refused observer.new ≡ O.has_refused observer.old) }
    ensures fixed { O.fixed observer.new ≡ O.fixed observer.old }
{
    let mut act = first;
    'steps: loop {
        let left = state.left;
        'acts: while state.left == left {
            act = match act {
                Act::Evaluate(e, here) => begin_expression(state, e, here)?,
                Act::Execute(t, here, labels) => begin_statement(state, t, here, labels)?,
                Act::Give(v) => give_value(state, v)?,
                Act::Complete(how) => match give_completion(state, how)? {
                    Next::Over(outcome) => return Ok(outcome),
                    Next::Act(next) => next,
                },
                Act::Call(call) => begin_call(state, call.into_inner())?,
                Act::Emit(id, op) => {
                    let told = tell(kinds, observer, hooks, id, op.get());
                    drop(op);
                    told?;
                    resume(state)?
                }
                Act::Fault(fault) => return Ok(Outcome::Fault(fault)),
                Act::Spent => return Ok(Outcome::Spent),
            };
        }
    }
}
