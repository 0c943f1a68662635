//! The `switch` statement (12.11).
ghost use Rattle.std.specs.Prelude.{◌≡◌, ◌≤◌, ◌*◌, ◌+◌, length, IfOk, Some};
ghost use Rattle.jl_ast.specs.View.{view_cases};
ghost use Rattle.jl_meaning.specs.Statements.{execute_from};
ghost use Rattle.jl_meaning.specs.forms.Switch.{default_of};
ghost use Rattle.jl_state.specs.Clauses.{Executes, RankAtMost, ResumesCompletion, ResumesStatement};
ghost use Rattle.jl_state.specs.Trees.{items_left, plain_forest};
ghost use Rattle.jl_state.specs.Words.{context_of, table_of};
ghost use Rattle.jl_statement.specs.inner.Selections.{run_from, select_and_run, IsNextTest};
ghost use Rattle.jl_statement.specs.inner.Values.{value_then};

use crate::executing::begin_statements;
use jl_algorithm::leaf_value;
use jl_ast::{Case, Expr};
use jl_conv::strict_equal;
use jl_state::{Act, CompletionFrame, Here, Remaining, State, StatementFrame, split_first};
use jl_text::{List, NoMemory};
use jl_value::{Completion, Value};

/// The first case from an index on that has a test.
fn next_test<'p>(cases: &'p List<Case>, from: usize) -> Option<(usize, &'p Expr)>
    ensures { IsNextTest cases.now from result }
{
    let mut at = from;
    while let Some(case) = cases.items().get(at) {
        match &case.test {
            Some(test) => return Some((at, test)),
            None => at += 1,
        }
    }
    None
}

/// Where the `default` stands, if there is one.
fn default_of(cases: &[Case]) -> Option<usize>
    ensures { result ≡ default_of (plain_forest (view_cases cases.now)) }
{
    let mut at = 0;
    while let Some(case) = cases.get(at) {
        match &case.test {
            Some(_) => at += 1,
            None => return Some(at),
        }
    }
    None
}

/// The clauses that are left of a `switch` begin, one after another.
fn begin_clauses<'p>(
    state: &mut State<'p>,
    rest: Remaining<'p, Case>,
    here: Here,
) -> Result<Act<'p>, NoMemory>
    ensures refines { Executes state.old (execute_from (table_of state.old.functions) (Some 0) (plain_forest
        (view_cases (items_left rest.entry))) (context_of state.old.calls here)) result state.new }
    ensures bounded { RankAtMost state.old (14 * length (items_left rest.entry) + 12) result state.new }
{
    match split_first(rest) {
        None => Ok(Act::Complete(Completion::Normal)),
        Some((case, rest)) => {
            state.push_completion(CompletionFrame::Clauses { rest, here })?;
            begin_statements(state, &case.body, here)
        }
    }
}

/// The clauses that are left of a `switch` begin, where the one before them has completed normally.
pub(crate) fn step_clauses<'p>(
    state: &mut State<'p>,
    rest: Remaining<'p, Case>,
    here: Here,
    how: Completion,
) -> Result<Act<'p>, NoMemory>
    ensures refines { ResumesCompletion state.old (CompletionFrame.Clauses rest.entry here) how result state.new }
    ensures bounded { RankAtMost state.old (14 * length (items_left rest.entry) + 12) result state.new }
{
    match how {
        Completion::Normal => begin_clauses(state, rest, here),
        Completion::Return(v) => Ok(Act::Complete(Completion::Return(v))),
        Completion::Throw(v) => Ok(Act::Complete(Completion::Throw(v))),
        Completion::Break(label) => Ok(Act::Complete(Completion::Break(label))),
        Completion::Continue(label) => Ok(Act::Complete(Completion::Continue(label))),
    }
}

/// The statements of a `switch` begin at this case, or none.
fn begin_from<'p>(
    state: &mut State<'p>,
    selected: Option<usize>,
    cases: &'p List<Case>,
    here: Here,
) -> Result<Act<'p>, NoMemory>
    ensures refines { Executes state.old (run_from (table_of state.old.functions) (context_of state.old.calls here)
        selected cases.now) result state.new }
    ensures bounded { RankAtMost state.old (14 * length cases.now + 15) result state.new }
{
    state.push_completion(CompletionFrame::Switch)?;
    match selected {
        None => Ok(Act::Complete(Completion::Normal)),
        Some(from) => begin_clauses(state, Remaining { list: cases, from }, here),
    }
}

/// The cases of a `switch` are tested, from an index on, and then its statements begin.
fn select_from<'p>(
    state: &mut State<'p>,
    value: Value,
    from: usize,
    cases: &'p List<Case>,
    here: Here,
) -> Result<Act<'p>, NoMemory>
    ensures refines { Executes state.old (select_and_run (table_of state.old.functions) (context_of state.old.calls
        here) value from cases.now) result state.new }
    ensures bounded { RankAtMost state.old (20 * length cases.now + 52) result state.new }
{
    match next_test(cases, from) {
        None => begin_from(state, default_of(cases.items()), cases, here),
        Some((index, test)) => {
            let frame = StatementFrame::CaseTest {
                value,
                index,
                cases,
                here,
            };
            state.evaluate_for(frame, test, here)
        }
    }
}

/// A `switch` begins with its value (12.11).
pub(crate) fn begin_switch<'p>(
    state: &mut State<'p>,
    e: &'p Expr,
    cases: &'p List<Case>,
    here: Here,
) -> Result<Act<'p>, NoMemory>
    ensures refines { Executes state.old (value_then (table_of state.old.functions) state.old.calls e.now here
        (StatementFrame.Switch cases.entry here)) result state.new }
    ensures left { IfOk result (λ _. state.new.left ≤ state.old.left) }
{
    let found = leaf_value(&*state, e, here)?;
    match found {
        Some(v) => {
            state.take_step();
            step_switch(state, cases, here, v)
        }
        None => state.evaluate_for(StatementFrame::Switch { cases, here }, e, here),
    }
}

/// A `switch` goes on with its value (12.11).
pub(crate) fn step_switch<'p>(
    state: &mut State<'p>,
    cases: &'p List<Case>,
    here: Here,
    v: Value,
) -> Result<Act<'p>, NoMemory>
    ensures refines { ResumesStatement state.old (StatementFrame.Switch cases.entry here) v result state.new }
    ensures bounded { RankAtMost state.old (20 * length cases.now + 62) result state.new }
{
    select_from(state, v, 0, cases, here)
}

/// A `switch` goes on with the value of a case (12.11).
pub(crate) fn step_case_test<'p>(
    state: &mut State<'p>,
    value: Value,
    index: usize,
    cases: &'p List<Case>,
    here: Here,
    w: Value,
) -> Result<Act<'p>, NoMemory>
    ensures refines { ResumesStatement state.old (StatementFrame.CaseTest value index cases.entry here) w result
        state.new }
    ensures bounded { RankAtMost state.old (20 * length cases.now + 52) result state.new }
{
    if strict_equal(&value, &w) {
        return begin_from(state, Some(index), cases, here);
    }
    if index >= cases.len() {
        return begin_from(state, default_of(cases.items()), cases, here);
    }
    select_from(state, value, index + 1, cases, here)
}
