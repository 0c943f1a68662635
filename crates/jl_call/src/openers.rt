//! Hooks that begin a pair of calls: the first prepares what the second does (8.7.2, 11.2, 11.13).
ghost use Rattle.std.specs.Prelude.{[]};
ghost use Rattle.jl_ast.specs.View.{view_expressions};
ghost use Rattle.jl_effects.specs.Effects.{Step};
ghost use Rattle.jl_meaning.specs.Expressions.{evaluate_all};
ghost use Rattle.jl_meaning.specs.Parts.{◌>>=◌ as ◌then◌};
ghost use Rattle.jl_meaning.specs.forms.Hooks.{close, enter_opener};
ghost use Rattle.jl_state.specs.Clauses.{Evaluates, RankAtMost};
ghost use Rattle.jl_state.specs.Trees.{plain_forest};
ghost use Rattle.jl_state.specs.Words.{context_of, opener_of, table_of};

use crate::closing::start_closing;
use crate::keys::name_member;
use crate::values::first_of;
use jl_ast::Expr;
use jl_state::{Act, Here, HookId, MemberUse, Opener, Pending, State};
use jl_text::{List, NoMemory};
use jl_value::Value;

/// The first call of a pair takes a step, and is entered with these values; then the arguments of the second are
/// evaluated.
#[tactic(auto, using(crate::proofs::Pairs::spent_first))]
pub(crate) fn start_opener<'p>(
    state: &mut State<'p>,
    id: HookId,
    opener: Opener,
    values: &List<Value>,
    second: &'p List<Expr>,
    here: Here,
) -> Result<Act<'p>, NoMemory>
    ensures refines { Evaluates state.old (Step (enter_opener id.id (opener_of opener) values.now) then λ pending.
        evaluate_all (table_of state.old.functions) 0 [] (plain_forest (view_expressions second.now)) (context_of
        state.old.calls here) then close (table_of state.old.functions) (context_of state.old.calls here) pending)
        result state.new }
    ensures bounded { RankAtMost state.old 1 result state.new }
{
    if !state.spend() {
        return Ok(Act::Spent);
    }
    enter_opener(state, id, opener, values, second, here)
}

/// The first call of a pair is entered with these values, and then the arguments of the second are evaluated.
fn enter_opener<'p>(
    state: &mut State<'p>,
    id: HookId,
    opener: Opener,
    values: &List<Value>,
    second: &'p List<Expr>,
    here: Here,
) -> Result<Act<'p>, NoMemory>
    ensures refines { Evaluates state.old (enter_opener id.id (opener_of opener) values.now then λ pending.
        evaluate_all (table_of state.old.functions) 0 [] (plain_forest (view_expressions second.now)) (context_of
        state.old.calls here) then close (table_of state.old.functions) (context_of state.old.calls here) pending)
        result state.new }
    ensures bounded { RankAtMost state.old 180 result state.new }
{
    let alloc = state.alloc();
    let base = first_of(alloc, values)?;
    match opener {
        Opener::Put => {
            let args = second;
            let purpose = MemberUse::Put {
                id,
                base,
                args,
                here,
            };
            name_member(state, values, purpose)
        }
        Opener::Assign(op) => {
            let args = second;
            let purpose = MemberUse::Compute {
                id,
                op,
                base,
                args,
                here,
            };
            name_member(state, values, purpose)
        }
        Opener::Call => {
            let pending = Pending::Call {
                id: id.call(),
                callee: base,
                this: Value::Undefined,
            };
            start_closing(state, pending, second, here)
        }
        Opener::New => {
            let pending = Pending::New {
                id: id.call(),
                callee: base,
            };
            start_closing(state, pending, second, here)
        }
        Opener::Method => {
            let args = second;
            let purpose = MemberUse::Method {
                id,
                base,
                args,
                here,
            };
            name_member(state, values, purpose)
        }
    }
}
