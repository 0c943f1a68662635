//! Arguments that are evaluated while those before them wait (11.2.4).
ghost use Rattle.std.specs.Prelude.{◌≤◌, ◌∷◌, ◌++◌, [], IfOk};
ghost use Rattle.jl_ast.specs.View.{view_expression, view_expressions};
ghost use Rattle.jl_meaning.specs.Expressions.{evaluate, evaluate_all};
ghost use Rattle.jl_meaning.specs.Parts.{◌>>=◌ as ◌then◌};
ghost use Rattle.jl_state.specs.Clauses.{Evaluates, RankAtMost};
ghost use Rattle.jl_state.specs.Trees.{items_left, plain, plain_forest};
ghost use Rattle.jl_state.specs.ValueFrames.{arguments_after};
ghost use Rattle.jl_state.specs.Words.{context_of, table_of};

use jl_ast::Expr;
use jl_state::{Act, Arguments, Boxed, State, ValueFrame};
use jl_text::NoMemory;

/// An argument is to be evaluated, and then the arguments after it.
pub(crate) fn evaluate_argument<'p>(
    state: &mut State<'p>,
    arguments: Arguments<'p>,
    e: &'p Expr,
) -> Result<Act<'p>, NoMemory>
    ensures refines { Evaluates state.old (evaluate (table_of state.old.functions) (plain (view_expression e.now))
        (context_of state.old.calls arguments.entry.here) then λ v. evaluate_all (table_of state.old.functions) 0
        (arguments.entry.so_far ++ v ∷ []) (plain_forest (view_expressions (items_left arguments.entry.rest)))
        (context_of state.old.calls arguments.entry.here) then arguments_after (table_of state.old.functions)
        state.old.calls arguments.entry.purpose arguments.entry.here) result state.new }
    ensures bounded { RankAtMost state.old 134 result state.new }
{
    let here = arguments.here;
    let waiting = Boxed::of(state.alloc(), arguments)?;
    state.evaluate(ValueFrame::Argument(waiting), e, here)
}
