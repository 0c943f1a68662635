//! The head of a `for` (12.6.3).
ghost use Rattle.std.specs.Prelude.{◌≤◌, IfOk};
ghost use Rattle.jl_ast.specs.View.{view_init};
ghost use Rattle.jl_meaning.specs.Completions.{◌>>=◌ as ◌then◌};
ghost use Rattle.jl_meaning.specs.forms.Simple.{begin_for};
ghost use Rattle.jl_state.specs.Clauses.{Executes, RankAtMost};
ghost use Rattle.jl_state.specs.StatementFrames.{next_turn};
ghost use Rattle.jl_state.specs.Trees.{plain};
ghost use Rattle.jl_state.specs.Words.{context_of, table_of};

use crate::loops::begin_turn;
use crate::variables::declare_head;
use jl_ast::ForInit;
use jl_state::{Act, Boxed, LoopTurn, Remaining, State, StatementFrame};
use jl_text::NoMemory;

/// A loop begins with its first turn, which is put in a box.
pub(crate) fn begin_loop<'p>(state: &mut State<'p>, turn: LoopTurn<'p>) -> Result<Act<'p>, NoMemory>
    ensures refines { Executes state.old (next_turn (table_of state.old.functions) state.old.calls turn.entry) result
        state.new }
    ensures bounded { RankAtMost state.old 1 result state.new }
{
    let turn = Boxed::of(state.alloc(), turn)?;
    begin_turn(state, turn)
}

/// A `for` begins with what stands first in its head, and then turns (12.6.3).
#[tactic(auto, using(jl_ast::proofs::Views::nodes))]
pub(crate) fn begin_for<'p>(
    state: &mut State<'p>,
    init: &'p ForInit,
    turn: LoopTurn<'p>,
) -> Result<Act<'p>, NoMemory>
    ensures refines { Executes state.old (begin_for (table_of state.old.functions) (plain (view_init init.now))
        (context_of state.old.calls turn.entry.here) then λ _. next_turn (table_of state.old.functions)
        state.old.calls turn.entry) result state.new }
    ensures left { IfOk result (λ _. state.new.left ≤ state.old.left) }
{
    let here = turn.here;
    let turn = Boxed::of(state.alloc(), turn)?;
    match init {
        ForInit::Nothing => begin_turn(state, turn),
        ForInit::Expr(e) => state.evaluate_for(StatementFrame::ForExpression { turn }, e, here),
        ForInit::Var(list) => declare_head(state, Remaining { list, from: 0 }, turn),
    }
}
