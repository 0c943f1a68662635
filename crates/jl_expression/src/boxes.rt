//! Expressions in boxes.
ghost use Rattle.std.specs.Prelude.{◌≤◌, IfOk};
ghost use Rattle.jl_ast.specs.View.{view_expression};
ghost use Rattle.jl_meaning.specs.Expressions.{evaluate};
ghost use Rattle.jl_meaning.specs.Parts.{◌>>=◌ as ◌then◌};
ghost use Rattle.jl_state.specs.Clauses.{Evaluates};
ghost use Rattle.jl_state.specs.Trees.{plain};
ghost use Rattle.jl_state.specs.ValueFrames.{value_after};
ghost use Rattle.jl_state.specs.Words.{context_of, table_of};

use jl_ast::Expr;
use jl_state::{Act, Here, State, ValueFrame};
use jl_text::NoMemory;

/// An expression in a box is to be evaluated, for whose value another one waits.
pub(crate) fn evaluate_boxed<'p>(
    state: &mut State<'p>,
    frame: ValueFrame<'p>,
    e: &'p Box<Expr>,
    here: Here,
) -> Result<Act<'p>, NoMemory>
    ensures refines { Evaluates state.old (evaluate (table_of state.old.functions) (plain (view_expression
        e.now.value)) (context_of state.old.calls here) then value_after (table_of state.old.functions)
        state.old.calls frame.entry) result state.new }
    ensures left { IfOk result (λ _. state.new.left ≤ state.old.left) }
{
    state.evaluate(frame, e, here)
}
