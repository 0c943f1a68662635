//! Statements gone on with (clause 12).
ghost use Rattle.jl_state.specs.Clauses.{RankAtMost, ResumesCompletion, ResumesStatement};
ghost use Rattle.std.specs.Prelude.{◌+◌};
ghost use Rattle.jl_state.specs.Rank.{rank_completion, rank_statement};

use crate::choices::step_if;
use crate::completions::{after_labelled, after_switch, unless_abrupt};
use crate::executing::step_statements;
use crate::for_in::step_for_in_object;
use crate::jumps::{step_return, step_throw};
use crate::loops::{begin_body, begin_turn, step_body, step_test};
use crate::switches::{step_case_test, step_clauses, step_switch};
use crate::tries::{begin_finally, step_try};
use crate::variables::{declare_head, declare_variables};
use jl_state::{Act, CompletionFrame, State, StatementFrame};
use jl_text::NoMemory;
use jl_value::{Completion, Value};

/// A statement goes on with the value that it waited for.
pub fn step_statement<'p>(
    state: &mut State<'p>,
    frame: StatementFrame<'p>,
    v: Value,
) -> Result<Act<'p>, NoMemory>
    ensures refines { ResumesStatement state.old frame.entry v result state.new }
    ensures bounded { RankAtMost state.old (rank_statement frame.entry + 2) result state.new }
{
    match frame {
        StatementFrame::Expression => Ok(Act::Complete(Completion::Normal)),
        StatementFrame::Variables { rest, here } => declare_variables(state, rest, here),
        StatementFrame::ForHead { rest, turn } => declare_head(state, rest, turn),
        StatementFrame::ForExpression { turn } => begin_turn(state, turn),
        StatementFrame::If {
            then,
            otherwise,
            here,
        } => step_if(state, then, otherwise, here, v),
        StatementFrame::ForInObject {
            variable,
            body,
            here,
            labels,
        } => step_for_in_object(state, variable, body, here, labels, v),
        StatementFrame::ForInBody { turn } => begin_body(state, turn),
        StatementFrame::Test { turn } => step_test(state, turn, v),
        StatementFrame::Update { turn } => begin_turn(state, turn),
        StatementFrame::Return => step_return(state, v),
        StatementFrame::Throw => step_throw(state, v),
        StatementFrame::Switch { cases, here } => step_switch(state, cases, here, v),
        StatementFrame::CaseTest {
            value,
            index,
            cases,
            here,
        } => step_case_test(state, value, index, cases, here, v),
    }
}

/// A statement goes on after another one has completed.
pub fn step_completion<'p>(
    state: &mut State<'p>,
    frame: CompletionFrame<'p>,
    how: Completion,
) -> Result<Act<'p>, NoMemory>
    ensures refines { ResumesCompletion state.old frame.entry how result state.new }
    ensures bounded { RankAtMost state.old (rank_completion frame.entry + 2) result state.new }
{
    match frame {
        CompletionFrame::Statements { rest, here } => step_statements(state, rest, here, how),
        CompletionFrame::Clauses { rest, here } => step_clauses(state, rest, here, how),
        CompletionFrame::Switch => Ok(Act::Complete(after_switch(how))),
        CompletionFrame::Labelled { label } => Ok(Act::Complete(after_labelled(label, how))),
        CompletionFrame::LoopBody { turn } => step_body(state, turn, how),
        CompletionFrame::TryBlock {
            catch,
            finally,
            here,
        } => step_try(state, catch, finally, here, how),
        CompletionFrame::CatchBlock { finally, here } => {
            begin_finally(state, finally, how, here)
        }
        CompletionFrame::FinallyBlock { before } => Ok(Act::Complete(unless_abrupt(before, how))),
    }
}
