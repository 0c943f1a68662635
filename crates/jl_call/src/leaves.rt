//! Arguments whose values are there at once (11.2.4).
ghost use Rattle.std.specs.Prelude.{◌∷◌, [], IfOk, MatchOption};
ghost use Rattle.jl_state.specs.Trees.{items_left};
ghost use Rattle.jl_call.specs.inner.Taken.{Takes};

use jl_algorithm::leaf_value;
use jl_ast::Expr;
use jl_state::{Here, Remaining, State, split_first};
use jl_text::{List, NoMemory};
use jl_value::Value;

/// The values of arguments that are there at once are pushed, up to the first that is not. That one comes back, if there
/// is one, with those after it.
pub(crate) fn take_leaves<'p>(
    state: &mut State<'p>,
    values: &mut List<Value>,
    rest: Remaining<'p, Expr>,
    here: Here,
) -> Result<Option<(&'p Expr, Remaining<'p, Expr>)>, NoMemory>
    ensures { IfOk result (λ next. MatchOption next
        (Takes state.old here values.old (items_left rest.entry) state.new values.new [])
        (λ r. Takes state.old here values.old (items_left rest.entry) state.new values.new
        (r.0.now ∷ items_left r.1))) }
{
    let mut left = rest;
    while let Some((e, others)) = split_first(left) {
        match leaf_value(&*state, e, here)? {
            Some(v) => {
                state.take_step();
                values.push(v)?;
            }
            None => return Ok(Some((e, others))),
        }
        left = others;
    }
    Ok(None)
}
