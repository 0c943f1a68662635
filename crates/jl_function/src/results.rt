//! What functions give whose bodies have completed (13.2.1, 13.2.2).
ghost use Rattle.std.specs.Prelude.{◌≡◌, ◌≤◌, IfOk};
ghost use Rattle.jl_meaning.specs.forms.Functions.{result_of};
ghost use Rattle.jl_state.specs.Clauses.{RankAtMost, Resumes};
ghost use Rattle.jl_state.specs.Rank.{rank_act};
ghost use Rattle.jl_state.specs.Rest.{RefinesExpression};
ghost use Rattle.jl_state.specs.Words.{without_innermost};
ghost use Rattle.jl_state.specs.declared.state.State.{State as Machine};

use jl_state::{Act, State, ValueFrame};
use jl_text::NoMemory;
use jl_value::{Completion, Fault, Value, is_object};

/// The body of a function has completed: the call is over (13.2.1).
pub fn step_body<'p>(state: &mut State<'p>, how: Completion) -> Result<Act<'p>, NoMemory>
    ensures refines { IfOk result (λ act. RefinesExpression
        (record state.old { calls = without_innermost state.old.calls }) (result_of how) state.new act) }
    ensures bounded { RankAtMost state.old 5 result state.new }
{
    end_call(state);
    Ok(result_of(how))
}

/// The innermost call is over.
fn end_call(state: &mut State<'_>)
    ensures { state.new ≡ record state.old { calls = without_innermost state.old.calls } }
{
    state.calls.pop();
}

/// What a function gives whose body has completed so. No body completes with a Break or a Continue.
fn result_of<'p>(how: Completion) -> Act<'p>
    ensures refines { (s : Machine) → RefinesExpression s (result_of how) s result }
    ensures low { rank_act result ≤ 2 }
{
    match how {
        Completion::Normal => Act::Give(Value::Undefined),
        Completion::Return(v) => Act::Give(v),
        Completion::Throw(v) => Act::Complete(Completion::Throw(v)),
        Completion::Break(_) => Act::Fault(Fault::Misuse),
        Completion::Continue(_) => Act::Fault(Fault::Misuse),
    }
}

/// A construction gives the new object, or the object that the call gave (13.2.2).
pub fn step_constructed<'p>(
    state: &mut State<'p>,
    object: Value,
    v: Value,
) -> Result<Act<'p>, NoMemory>
    ensures refines { Resumes state.old (ValueFrame.Constructed object) v result state.new }
    ensures bounded { RankAtMost state.old 5 result state.new }
{
    if is_object(&v) {
        Ok(Act::Give(v))
    } else {
        Ok(Act::Give(object))
    }
}
