//! Arguments: their values, and what they are for (11.2.4).
ghost use Rattle.std.specs.Prelude.{[]};
ghost use Rattle.jl_ast.specs.View.{view_expressions};
ghost use Rattle.jl_meaning.specs.Expressions.{evaluate_all};
ghost use Rattle.jl_meaning.specs.Parts.{◌>>=◌ as ◌then◌};
ghost use Rattle.jl_state.specs.Clauses.{Evaluates, RankAtMost, Resumes};
ghost use Rattle.jl_state.specs.Trees.{items_left, plain_forest};
ghost use Rattle.jl_state.specs.ValueFrames.{arguments_after};
ghost use Rattle.jl_state.specs.Words.{context_of, table_of};

use crate::closing::close;
use crate::hooks::enter_hook;
use crate::invoking::invoke;
use crate::leaves::take_leaves;
use crate::openers::start_opener;
use crate::waiting::evaluate_argument;
use jl_ast::Expr;
use jl_state::{Act, ArgumentUse, Arguments, Boxed, Here, HookId, Remaining, State, ValueFrame};
use jl_text::{List, NoMemory};
use jl_value::Value;

/// The arguments from an index on are evaluated, and then something is done with their values (11.2.4).
pub fn start_arguments<'p>(
    state: &mut State<'p>,
    purpose: ArgumentUse<'p>,
    args: &'p List<Expr>,
    from: usize,
    here: Here,
) -> Result<Act<'p>, NoMemory>
    ensures refines { Evaluates state.old (evaluate_all (table_of state.old.functions) from [] (plain_forest
        (view_expressions args.now)) (context_of state.old.calls here) then arguments_after (table_of
        state.old.functions) state.old.calls purpose.entry here) result state.new }
    ensures bounded { RankAtMost state.old 134 result state.new }
{
    let alloc = state.alloc();
    let rest = Remaining { list: args, from };
    evaluate_rest(state, purpose, List::new(alloc), rest, here)
}

/// An argument has been evaluated (11.2.4).
pub fn step_argument<'p>(
    state: &mut State<'p>,
    arguments: Boxed<Arguments<'p>>,
    v: Value,
) -> Result<Act<'p>, NoMemory>
    ensures refines { Resumes state.old (ValueFrame.Argument arguments.entry) v result state.new }
    ensures bounded { RankAtMost state.old 134 result state.new }
{
    let Arguments {
        purpose,
        so_far,
        rest,
        here,
    } = arguments.into_inner();
    let mut values = so_far;
    values.push(v)?;
    evaluate_rest(state, purpose, values, rest, here)
}

/// The arguments that are left are evaluated, and then something is done with all values.
fn evaluate_rest<'p>(
    state: &mut State<'p>,
    purpose: ArgumentUse<'p>,
    so_far: List<Value>,
    rest: Remaining<'p, Expr>,
    here: Here,
) -> Result<Act<'p>, NoMemory>
    ensures refines { Evaluates state.old (evaluate_all (table_of state.old.functions) 0 so_far (plain_forest
        (view_expressions (items_left rest.entry))) (context_of state.old.calls here) then arguments_after (table_of
        state.old.functions) state.old.calls purpose.entry here) result state.new }
    ensures bounded { RankAtMost state.old 134 result state.new }
{
    let mut values = so_far;
    let next = take_leaves(state, &mut values, rest, here)?;
    match next {
        None => use_arguments(state, purpose, values, here),
        Some((e, rest)) => {
            let arguments = Arguments {
                purpose,
                so_far: values,
                rest,
                here,
            };
            evaluate_argument(state, arguments, e)
        }
    }
}

/// Something is done with the values of arguments.
fn use_arguments<'p>(
    state: &mut State<'p>,
    purpose: ArgumentUse<'p>,
    values: List<Value>,
    here: Here,
) -> Result<Act<'p>, NoMemory>
    ensures refines { Evaluates state.old (arguments_after (table_of state.old.functions) state.old.calls
        purpose.entry here values) result state.new }
    ensures bounded { RankAtMost state.old 110 result state.new }
{
    match purpose {
        ArgumentUse::Invoke {
            callee,
            this,
            by_new,
        } => {
            let id = HookId::own().call();
            invoke(state, false, id, callee, this, values, by_new)
        }
        ArgumentUse::Hook { id, hook } => {
            if !state.spend() {
                return Ok(Act::Spent);
            }
            enter_hook(state, id, hook, &values, here)
        }
        ArgumentUse::Opener { id, opener, second } => start_opener(
            state, id, opener, &values, second, here,
        ),
        ArgumentUse::Close(pending) => close(state, pending, values, here),
    }
}
