//! Statements one after another (12.1).
ghost use Rattle.std.specs.Prelude.{◌≡◌, ◌∷◌, IfOk};
ghost use Rattle.jl_ast.specs.View.{view_statement, view_statements};
ghost use Rattle.jl_effects.specs.Effects.{and_then};
ghost use Rattle.jl_meaning.specs.Statements.{execute, execute_all};
ghost use Rattle.jl_state.specs.Clauses.{Executes, RankAtMost, ResumesCompletion};
ghost use Rattle.jl_state.specs.StatementFrames.{completion_after};
ghost use Rattle.jl_state.specs.Trees.{items_left, plain, plain_forest};
ghost use Rattle.jl_state.specs.Turns.{labels_seen};
ghost use Rattle.jl_state.specs.Words.{context_of, table_of};

use jl_ast::Stmt;
use jl_state::{Act, CompletionFrame, Frame, Here, Labels, Remaining, State, split_first};
use jl_text::{List, NoMemory};
use jl_value::Completion;

/// A statement is to be executed, for whose completion another one waits.
pub(crate) fn execute_for<'p>(
    state: &mut State<'p>,
    frame: CompletionFrame<'p>,
    t: &'p Stmt,
    here: Here,
    labels: Labels<'p>,
) -> Result<Act<'p>, NoMemory>
    ensures refines { Executes state.old (and_then (execute (table_of state.old.functions) (plain (view_statement
        t.now)) (labels_seen labels.entry) (context_of state.old.calls here)) (completion_after (table_of
        state.old.functions) state.old.calls frame.entry)) result state.new }
    ensures pushed { IfOk result (λ act. (act ≡ Act.Execute t.entry here labels.entry)
        × (state.new ≡ record state.old { stack = Frame.Completion frame.entry ∷ state.old.stack })) }
{
    state.push_completion(frame)?;
    Ok(Act::Execute(t, here, labels))
}

/// The statements that are left of a list begin, one after another (12.1).
pub(crate) fn begin_remaining<'p>(
    state: &mut State<'p>,
    rest: Remaining<'p, Stmt>,
    here: Here,
) -> Result<Act<'p>, NoMemory>
    ensures refines { Executes state.old (execute_all (table_of state.old.functions) (plain_forest (view_statements
        (items_left rest.entry))) (context_of state.old.calls here)) result state.new }
    ensures bounded { RankAtMost state.old 12 result state.new }
{
    match split_first(rest) {
        None => Ok(Act::Complete(Completion::Normal)),
        Some((first, rest)) => {
            let frame = CompletionFrame::Statements { rest, here };
            execute_for(state, frame, first, here, Labels::none())
        }
    }
}

/// Statements begin, one after another (12.1).
pub fn begin_statements<'p>(
    state: &mut State<'p>,
    list: &'p List<Stmt>,
    here: Here,
) -> Result<Act<'p>, NoMemory>
    ensures refines { Executes state.old (execute_all (table_of state.old.functions) (plain_forest (view_statements
        list.now)) (context_of state.old.calls here)) result state.new }
    ensures bounded { RankAtMost state.old (14) result state.new }
{
    begin_remaining(state, Remaining { list, from: 0 }, here)
}

/// The statements that are left of a list begin, where the one before them has completed normally (12.1).
pub(crate) fn step_statements<'p>(
    state: &mut State<'p>,
    rest: Remaining<'p, Stmt>,
    here: Here,
    how: Completion,
) -> Result<Act<'p>, NoMemory>
    ensures refines { ResumesCompletion state.old (CompletionFrame.Statements rest.entry here) how result state.new }
    ensures bounded { RankAtMost state.old 12 result state.new }
{
    match how {
        Completion::Normal => begin_remaining(state, rest, here),
        Completion::Return(v) => Ok(Act::Complete(Completion::Return(v))),
        Completion::Throw(v) => Ok(Act::Complete(Completion::Throw(v))),
        Completion::Break(label) => Ok(Act::Complete(Completion::Break(label))),
        Completion::Continue(label) => Ok(Act::Complete(Completion::Continue(label))),
    }
}
