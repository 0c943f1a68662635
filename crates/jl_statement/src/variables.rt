//! Variables with initialisers (12.2).
ghost use Rattle.std.specs.Prelude.{◌+◌, ◌*◌, ◌<◌, length, IfSome};
ghost use Rattle.jl_meaning.specs.Completions.{normal, ◌>>=◌ as ◌then◌};
ghost use Rattle.jl_state.specs.Clauses.{Executes, RankAtMost};
ghost use Rattle.jl_state.specs.StatementFrames.{next_turn};
ghost use Rattle.jl_state.specs.Trees.{items_left};
ghost use Rattle.jl_state.specs.Words.{context_of, table_of};
ghost use Rattle.jl_statement.specs.inner.Declarators.{declare, IsFirst};

use crate::loops::begin_turn;
use jl_ast::{Expr, Ident};
use jl_member::assign_name;
use jl_state::{Act, Boxed, Here, LoopTurn, Remaining, State, StatementFrame};
use jl_text::{NoMemory, Text};
use jl_value::Completion;

/// The first of the declarators that are left which has an initialiser, with what is left after it.
fn first_initialised<'p>(
    rest: Remaining<'p, (Ident, Option<Expr>)>,
) -> Option<(&'p Text, &'p Expr, Remaining<'p, (Ident, Option<Expr>)>)>
    ensures same { IsFirst (items_left rest.entry) result }
    ensures shorter { IfSome result (λ r. length (items_left r.2) < length (items_left rest.entry)) }
{
    let mut at = rest.from;
    while let Some(declarator) = rest.list.items().get(at) {
        at += 1;
        match &declarator.1 {
            Some(value) => {
                let name = &declarator.0.text;
                let list = rest.list;
                return Some((name, value, Remaining { list, from: at }));
            }
            None => {}
        }
    }
    None
}

/// The variables that are left of a list get their values (12.2).
pub(crate) fn declare_variables<'p>(
    state: &mut State<'p>,
    rest: Remaining<'p, (Ident, Option<Expr>)>,
    here: Here,
) -> Result<Act<'p>, NoMemory>
    ensures refines { Executes state.old (declare (table_of state.old.functions) (context_of state.old.calls here)
        (items_left rest.entry) then λ _. normal) result state.new }
    ensures bounded { RankAtMost state.old (60 * length (items_left rest.entry) + 12) result state.new }
{
    match first_initialised(rest) {
        None => Ok(Act::Complete(Completion::Normal)),
        Some((name, value, rest)) => {
            state.push_statement(StatementFrame::Variables { rest, here })?;
            assign_name(state, name, value, here)
        }
    }
}

/// The variables that are left of the head of a `for` get their values, and then it turns (12.6.3).
pub(crate) fn declare_head<'p>(
    state: &mut State<'p>,
    rest: Remaining<'p, (Ident, Option<Expr>)>,
    turn: Boxed<LoopTurn<'p>>,
) -> Result<Act<'p>, NoMemory>
    ensures refines { Executes state.old (declare (table_of state.old.functions) (context_of state.old.calls
        turn.entry.here) (items_left rest.entry) then λ _. next_turn (table_of state.old.functions) state.old.calls
        turn.entry) result state.new }
    ensures bounded { RankAtMost state.old (60 * length (items_left rest.entry) + 12) result state.new }
{
    let here = turn.get().here;
    match first_initialised(rest) {
        None => begin_turn(state, turn),
        Some((name, value, rest)) => {
            state.push_statement(StatementFrame::ForHead { rest, turn })?;
            assign_name(state, name, value, here)
        }
    }
}
