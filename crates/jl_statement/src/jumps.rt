//! Statements that end what is around them, and labels (12.7 to 12.9, 12.12, 12.13).
ghost use Rattle.std.specs.Prelude.{◌≡◌, ◌≤◌, ◌∷◌, IfOk};
ghost use Rattle.jl_ast.specs.View.{view_statement};
ghost use Rattle.jl_meaning.specs.Completions.{ends_as};
ghost use Rattle.jl_meaning.specs.Statements.{execute};
ghost use Rattle.jl_meaning.specs.forms.Jumps.{after_labelled, return_value, throw_value};
ghost use Rattle.jl_state.specs.Clauses.{Executes, RankAtMost};
ghost use Rattle.jl_state.specs.Trees.{plain};
ghost use Rattle.jl_state.specs.Turns.{labels_seen};
ghost use Rattle.jl_state.specs.Words.{context_of, table_of};
ghost use Rattle.jl_statement.specs.inner.Beginnings as beginnings;
ghost use Rattle.jl_statement.specs.inner.Values.{value_then};

use crate::executing::execute_for;
use jl_algorithm::leaf_value;
use jl_ast::{Expr, Ident, Stmt};
use jl_state::{Act, CompletionFrame, Here, Labels, State, StatementFrame};
use jl_text::{List, NoMemory, Text};
use jl_value::{Completion, Value};
use std::alloc::Global;

/// The text of a label, if there is one.
pub(crate) fn label_text(alloc: Global, label: &Option<Ident>) -> Result<Option<Text>, NoMemory>
    ensures { IfOk result (λ text. text ≡ beginnings.label_text label.now) }
{
    match label {
        None => Ok(None),
        Some(label) => Ok(Some(label.text.share(alloc)?)),
    }
}

/// The labels before a statement, and one more, which is the innermost.
fn with_label<'p>(
    alloc: Global,
    label: &'p Text,
    labels: Labels<'p>,
) -> Result<Labels<'p>, NoMemory>
    ensures { IfOk result (λ all. labels_seen all ≡ label.now ∷ labels_seen labels.entry) }
{
    let mut all = List::new(alloc);
    all.push(label)?;
    for other in labels.items() {
        all.push(*other)?;
    }
    Ok(Labels::of(alloc, all)?)
}

/// A labelled statement begins (12.12).
pub(crate) fn begin_labelled<'p>(
    state: &mut State<'p>,
    label: &'p Text,
    t: &'p Stmt,
    here: Here,
    labels: Labels<'p>,
) -> Result<Act<'p>, NoMemory>
    ensures refines { Executes state.old (ends_as (after_labelled label.now) (execute (table_of state.old.functions)
        (plain (view_statement t.now)) (label.now ∷ labels_seen labels.entry) (context_of state.old.calls here)))
        result state.new }
    ensures left { IfOk result (λ _. state.new.left ≤ state.old.left) }
{
    let alloc = state.alloc();
    let labels = with_label(alloc, label, labels)?;
    execute_for(state, CompletionFrame::Labelled { label }, t, here, labels)
}

/// `return` begins with its value (12.9).
pub(crate) fn begin_return<'p>(
    state: &mut State<'p>,
    e: &'p Expr,
    here: Here,
) -> Result<Act<'p>, NoMemory>
    ensures refines { Executes state.old (value_then (table_of state.old.functions) state.old.calls e.now here
        StatementFrame.Return) result state.new }
    ensures left { IfOk result (λ _. state.new.left ≤ state.old.left) }
{
    let found = leaf_value(&*state, e, here)?;
    match found {
        Some(v) => {
            state.take_step();
            step_return(state, v)
        }
        None => state.evaluate_for(StatementFrame::Return, e, here),
    }
}

/// `return` completes with its value (12.9).
#[tactic(auto, unfolding(jl_meaning::specs::forms::Jumps::return_value))]
pub(crate) fn step_return<'p>(state: &mut State<'p>, v: Value) -> Result<Act<'p>, NoMemory>
    ensures refines { Executes state.old (return_value 0 v) result state.new }
    ensures bounded { RankAtMost state.old 5 result state.new }
{
    Ok(Act::Complete(Completion::Return(v)))
}

/// `throw` completes with its value (12.13).
#[tactic(auto, unfolding(jl_meaning::specs::forms::Jumps::throw_value))]
pub(crate) fn step_throw<'p>(state: &mut State<'p>, v: Value) -> Result<Act<'p>, NoMemory>
    ensures refines { Executes state.old (throw_value 0 v) result state.new }
    ensures bounded { RankAtMost state.old 5 result state.new }
{
    Ok(Act::Complete(Completion::Throw(v)))
}
