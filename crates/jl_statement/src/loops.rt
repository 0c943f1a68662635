//! Loops, turn by turn (12.6.1 to 12.6.3).
ghost use Rattle.jl_state.specs.Clauses.{Executes, RankAtMost, ResumesStatement};
ghost use Rattle.std.specs.Prelude.{◌≡◌, ◌≤◌, ◌+◌, false, IfOk};
ghost use Rattle.jl_state.specs.Rank.{rank_test};
ghost use Rattle.jl_state.specs.StatementFrames.{after_loop_body, loop_body, next_turn};
ghost use Rattle.jl_state.specs.Turns.{body_seen};
ghost use Rattle.jl_state.specs.Words.{table_of};
ghost use Rattle.jl_statement.specs.inner.Turns.{is_do, turn_inside};
ghost use Rattle.jl_statement.specs.inner.Values.{value_then};

use crate::completions::after_body;
use crate::executing::begin_statements;
use crate::for_in::{put_visited, visit_next};
use jl_algorithm::leaf_value;
use jl_ast::{Expr, Stmt};
use jl_conv::to_boolean;
use jl_state::{Act, Boxed, CompletionFrame, Loop, LoopTurn, State, StatementFrame};
use jl_text::{List, NoMemory, word};
use jl_value::{Completion, Value};

/// The body of a loop.
fn body_of<'p>(kind: &Loop<'p>) -> &'p List<Stmt>
    ensures { result.now ≡ body_seen kind.now }
{
    match kind {
        Loop::Do { body, .. } => *body,
        Loop::While { body, .. } => *body,
        Loop::For { body, .. } => *body,
        Loop::ForIn { body, .. } => *body,
    }
}

/// The body of a loop begins.
pub(crate) fn begin_body<'p>(
    state: &mut State<'p>,
    turn: Boxed<LoopTurn<'p>>,
) -> Result<Act<'p>, NoMemory>
    ensures refines { Executes state.old (loop_body (table_of state.old.functions) state.old.calls turn.entry) result
        state.new }
    ensures bounded { RankAtMost state.old 34 result state.new }
{
    let body = body_of(&turn.get().kind);
    let here = turn.get().here;
    state.push_completion(CompletionFrame::LoopBody { turn })?;
    begin_statements(state, body, here)
}

/// A turn of a loop takes a step, and begins.
pub(crate) fn begin_turn<'p>(
    state: &mut State<'p>,
    turn: Boxed<LoopTurn<'p>>,
) -> Result<Act<'p>, NoMemory>
    ensures refines { Executes state.old (next_turn (table_of state.old.functions) state.old.calls turn.entry) result
        state.new }
    ensures bounded { RankAtMost state.old 1 result state.new }
{
    if !state.spend() {
        return Ok(Act::Spent);
    }
    iterate(state, turn)
}

/// What a turn does after that step.
fn iterate<'p>(state: &mut State<'p>, turn: Boxed<LoopTurn<'p>>) -> Result<Act<'p>, NoMemory>
    ensures refines { Executes state.old (turn_inside (table_of state.old.functions) state.old.calls turn.entry)
        result state.new }
    ensures left { IfOk result (λ _. state.new.left ≤ state.old.left) }
{
    match &turn.get().kind {
        Loop::Do { .. } => begin_body(state, turn),
        Loop::While { test, .. } => {
            let test = *test;
            begin_test(state, turn, test)
        }
        Loop::For { test, .. } => {
            let test = *test;
            match test {
                Some(test) => begin_test(state, turn, test),
                None => begin_body(state, turn),
            }
        }
        Loop::ForIn { variable, .. } => {
            let variable = *variable;
            let name = word(state.alloc(), "")?;
            put_visited(state, turn, variable, name)
        }
    }
}

/// A turn begins with the test of a loop that has it before its body.
fn begin_test<'p>(
    state: &mut State<'p>,
    turn: Boxed<LoopTurn<'p>>,
    test: &'p Expr,
) -> Result<Act<'p>, NoMemory>
    requires first { is_do turn.kind ≡ false }
    ensures refines { Executes state.old (value_then (table_of state.old.functions) state.old.calls test.now
        turn.entry.here (StatementFrame.Test turn.entry)) result state.new }
    ensures left { IfOk result (λ _. state.new.left ≤ state.old.left) }
{
    let here = turn.get().here;
    let found = leaf_value(&*state, test, here)?;
    match found {
        Some(v) => {
            state.take_step();
            begin_body_if(state, turn, v)
        }
        None => state.evaluate_for(StatementFrame::Test { turn }, test, here),
    }
}

/// The body of such a loop begins, if its test holds.
fn begin_body_if<'p>(
    state: &mut State<'p>,
    turn: Boxed<LoopTurn<'p>>,
    v: Value,
) -> Result<Act<'p>, NoMemory>
    requires first { is_do turn.kind ≡ false }
    ensures refines { ResumesStatement state.old (StatementFrame.Test turn.entry) v result state.new }
    ensures bounded { RankAtMost state.old 34 result state.new }
{
    if !to_boolean(&v) {
        return Ok(Act::Complete(Completion::Normal));
    }
    begin_body(state, turn)
}

/// Whether the test of a loop comes after its body.
fn is_do(kind: &Loop<'_>) -> bool
    ensures { result ≡ is_do kind.now }
{
    match kind {
        Loop::Do { .. } => true,
        Loop::While { .. } => false,
        Loop::For { .. } => false,
        Loop::ForIn { .. } => false,
    }
}

/// A loop goes on with the value of its test.
pub(crate) fn step_test<'p>(
    state: &mut State<'p>,
    turn: Boxed<LoopTurn<'p>>,
    v: Value,
) -> Result<Act<'p>, NoMemory>
    ensures refines { ResumesStatement state.old (StatementFrame.Test turn.entry) v result state.new }
    ensures bounded { RankAtMost state.old (rank_test turn.entry.kind + 2) result state.new }
{
    if !is_do(&turn.get().kind) {
        return begin_body_if(state, turn, v);
    }
    if !to_boolean(&v) {
        return Ok(Act::Complete(Completion::Normal));
    }
    begin_turn(state, turn)
}

/// A loop goes on after its body, or ends (12.6.1 to 12.6.4).
#[tactic(auto, using(crate::proofs::Turning::ends_loop, crate::proofs::Turning::goes_on))]
pub(crate) fn step_body<'p>(
    state: &mut State<'p>,
    turn: Boxed<LoopTurn<'p>>,
    how: Completion,
) -> Result<Act<'p>, NoMemory>
    ensures refines { Executes state.old (after_loop_body (table_of state.old.functions) state.old.calls turn.entry
        how) result state.new }
    ensures bounded { RankAtMost state.old 22 result state.new }
{
    match after_body(turn.get().labels.items(), how) {
        Some(how) => Ok(Act::Complete(how)),
        None => go_on(state, turn),
    }
}

/// A loop goes on after its body.
fn go_on<'p>(state: &mut State<'p>, turn: Boxed<LoopTurn<'p>>) -> Result<Act<'p>, NoMemory>
    ensures refines { Executes state.old (after_loop_body (table_of state.old.functions) state.old.calls turn.entry
        Completion.Normal) result state.new }
    ensures bounded { RankAtMost state.old 22 result state.new }
{
    match &turn.get().kind {
        Loop::Do { test, .. } => {
            let test = *test;
            let here = turn.get().here;
            state.evaluate_for(StatementFrame::Test { turn }, test, here)
        }
        Loop::While { .. } => begin_turn(state, turn),
        Loop::For { update, .. } => {
            let update = *update;
            let here = turn.get().here;
            match update {
                Some(update) => state.evaluate_for(StatementFrame::Update { turn }, update, here),
                None => begin_turn(state, turn),
            }
        }
        Loop::ForIn { .. } => visit_next(state, turn),
    }
}
