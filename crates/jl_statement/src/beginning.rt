//! Statements begun, by their kind (clause 12).
ghost use Rattle.std.specs.Borrow.{Bor};
ghost use Rattle.std.specs.Prelude.{◌≤◌, map, List, ℕ, IfOk};
ghost use Rattle.jl_ast.specs.View.{view_statement};
ghost use Rattle.jl_meaning.specs.Statements.{execute};
ghost use Rattle.jl_state.specs.Clauses.{Executes, RankAtMost};
ghost use Rattle.jl_state.specs.Trees.{plain};
ghost use Rattle.jl_state.specs.Turns.{labels_seen};
ghost use Rattle.jl_state.specs.Words.{context_of, table_of};
ghost use Rattle.jl_statement.specs.inner.Beginnings.{begin};

use crate::choices::begin_if;
use crate::executing::begin_statements;
use crate::heads::{begin_for, begin_loop};
use crate::jumps::{begin_labelled, begin_return, label_text};
use crate::switches::begin_switch;
use crate::variables::declare_variables;
use jl_ast::{Stmt, StmtKind};
use jl_state::{
    Act, CompletionFrame, Here, Labels, Loop, LoopTurn, Remaining, State, StatementFrame,
};
use jl_text::{List, NoMemory};
use jl_value::{Completion, Value};

/// A statement takes a step, and begins.
pub fn begin_statement<'p>(
    state: &mut State<'p>,
    t: &'p Stmt,
    here: Here,
    labels: Labels<'p>,
) -> Result<Act<'p>, NoMemory>
    ensures refines { Executes state.old (execute (table_of state.old.functions) (plain (view_statement t.now)) (map
        (λ (x : Bor (List ℕ)). x.now) labels.entry) (context_of state.old.calls here)) result state.new }
    ensures bounded { RankAtMost state.old (1) result state.new }
{
    if !state.spend() {
        return Ok(Act::Spent);
    }
    begin_kind(state, t, here, labels)
}

/// What a statement does after that step.
#[tactic(auto, using(jl_ast::proofs::Views::nodes))]
fn begin_kind<'p>(
    state: &mut State<'p>,
    t: &'p Stmt,
    here: Here,
    labels: Labels<'p>,
) -> Result<Act<'p>, NoMemory>
    ensures refines { Executes state.old (begin (table_of state.old.functions) state.old.calls (plain (view_statement
        t.now)) (labels_seen labels.entry) here) result state.new }
    ensures left { IfOk result (λ _. state.new.left ≤ state.old.left) }
{
    let alloc = state.alloc();
    match &t.kind {
        StmtKind::Var(list) => { declare_variables(state, Remaining { list, from: 0 }, here) }
        StmtKind::Empty => Ok(Act::Complete(Completion::Normal)),
        StmtKind::Debugger => Ok(Act::Complete(Completion::Normal)),
        StmtKind::Expr(e) => state.evaluate_for(StatementFrame::Expression, e, here),
        StmtKind::Block(list) => begin_statements(state, list, here),
        StmtKind::If(test, then, otherwise) => begin_if(state, test, then, otherwise, here),
        StmtKind::DoWhile(body, test) => {
            let kind = Loop::Do { body, test };
            begin_loop(state, LoopTurn { kind, here, labels })
        }
        StmtKind::While(test, body) => {
            let kind = Loop::While { test, body };
            begin_loop(state, LoopTurn { kind, here, labels })
        }
        StmtKind::For(init, test, update, body) => {
            let kind = Loop::For { test, update, body };
            begin_for(state, init, LoopTurn { kind, here, labels })
        }
        StmtKind::ForIn {
            is_var: _,
            name,
            object,
            body,
        } => {
            let variable = &name.text;
            let frame = StatementFrame::ForInObject {
                variable,
                body,
                here,
                labels,
            };
            state.evaluate_for(frame, object, here)
        }
        StmtKind::Continue(label) => Ok(Act::Complete(Completion::Continue(label_text(
            alloc, label,
        )?))),
        StmtKind::Break(label) => Ok(Act::Complete(Completion::Break(label_text(alloc, label)?))),
        StmtKind::Return(None) => Ok(Act::Complete(Completion::Return(Value::Undefined))),
        StmtKind::Return(Some(e)) => begin_return(state, e, here),
        StmtKind::Labelled(label, inner) => begin_labelled(state, &label.text, inner, here, labels),
        StmtKind::Switch(e, cases) => begin_switch(state, e, cases, here),
        StmtKind::Throw(e) => state.evaluate_for(StatementFrame::Throw, e, here),
        StmtKind::Try {
            body,
            catch,
            finally,
        } => {
            state.push_completion(CompletionFrame::TryBlock {
                catch,
                finally,
                here,
            })?;
            begin_statements(state, body, here)
        }
    }
}
