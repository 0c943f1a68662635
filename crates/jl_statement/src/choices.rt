//! The `if` statement (12.5).
ghost use Rattle.std.specs.Prelude.{◌≤◌, IfOk};
ghost use Rattle.jl_ast.specs.View.{view_branch};
ghost use Rattle.jl_meaning.specs.Statements.{execute_branch};
ghost use Rattle.jl_state.specs.Clauses.{Executes, RankAtMost, ResumesStatement};
ghost use Rattle.jl_state.specs.Trees.{plain_optional};
ghost use Rattle.jl_state.specs.Words.{context_of, table_of};
ghost use Rattle.jl_statement.specs.inner.Values.{value_then};

use crate::executing::begin_statements;
use jl_algorithm::leaf_value;
use jl_ast::{Expr, Stmt};
use jl_conv::to_boolean;
use jl_state::{Act, Here, State, StatementFrame};
use jl_text::{List, NoMemory};
use jl_value::{Completion, Value};

/// The statements after `else` or `finally` begin, if there are any.
pub(crate) fn begin_branch<'p>(
    state: &mut State<'p>,
    list: &'p Option<List<Stmt>>,
    here: Here,
) -> Result<Act<'p>, NoMemory>
    ensures refines { Executes state.old (execute_branch (table_of state.old.functions) (plain_optional (view_branch
        list.now)) (context_of state.old.calls here)) result state.new }
    ensures bounded { RankAtMost state.old 14 result state.new }
{
    match list {
        None => Ok(Act::Complete(Completion::Normal)),
        Some(list) => begin_statements(state, list, here),
    }
}

/// An `if` begins with its test (12.5).
pub(crate) fn begin_if<'p>(
    state: &mut State<'p>,
    test: &'p Expr,
    then: &'p List<Stmt>,
    otherwise: &'p Option<List<Stmt>>,
    here: Here,
) -> Result<Act<'p>, NoMemory>
    ensures refines { Executes state.old (value_then (table_of state.old.functions) state.old.calls test.now here
        (StatementFrame.If then.entry otherwise.entry here)) result state.new }
    ensures left { IfOk result (λ _. state.new.left ≤ state.old.left) }
{
    let found = leaf_value(&*state, test, here)?;
    match found {
        Some(v) => {
            state.take_step();
            step_if(state, then, otherwise, here, v)
        }
        None => {
            let frame = StatementFrame::If {
                then,
                otherwise,
                here,
            };
            state.evaluate_for(frame, test, here)
        }
    }
}

/// An `if` goes on with the value of its test (12.5).
pub(crate) fn step_if<'p>(
    state: &mut State<'p>,
    then: &'p List<Stmt>,
    otherwise: &'p Option<List<Stmt>>,
    here: Here,
    v: Value,
) -> Result<Act<'p>, NoMemory>
    ensures refines { ResumesStatement state.old (StatementFrame.If then.entry otherwise.entry here) v result
        state.new }
    ensures bounded { RankAtMost state.old 22 result state.new }
{
    if to_boolean(&v) {
        Ok(begin_statements(state, then, here)?)
    } else {
        Ok(begin_branch(state, otherwise, here)?)
    }
}
