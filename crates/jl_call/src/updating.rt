//! Hooks of operators on one operand, of `++` and `--` among them (11.3, 11.4).
ghost use Rattle.std.specs.Prelude.{◌≡◌, ◌+◌};
ghost use Rattle.jl_heap.specs.Describe.{seen_of};
ghost use Rattle.jl_op.specs.UnaryKinds.{update_kind};
ghost use Rattle.jl_meaning.specs.Noting.{emits, note};
ghost use Rattle.jl_meaning.specs.Operators.{give_next};
ghost use Rattle.jl_meaning.specs.Parts.{give, lift, ◌>>=◌ as ◌then◌};
ghost use Rattle.jl_meaning.specs.forms.Hooks.{first_of, hooked_unary, hooked_update, second_of};
ghost use Rattle.jl_meaning.specs.forms.Members.{update_member};
ghost use Rattle.jl_state.specs.Clauses.{Evaluates, RankAtMost, Resumes};

use crate::values::{first_of, second_of};
use jl_algorithm::to_primitive;
use jl_member::update_member;
use jl_num::{Num, NumberOutside};
use jl_op::{Op, UnKind, update_kind};
use jl_operator::{next_number, number_of, operate_on, step_emit_unary};
use jl_state::{Act, Hint, HookId, Noted, State, ValueFrame};
use jl_text::{List, NoMemory};
use jl_value::{Fault, Value, share};

/// A hook of an operator on one operand.
#[tactic(auto, using(crate::proofs::Updates::operates_hooked))]
pub(crate) fn enter_unary<'p>(
    state: &mut State<'p>,
    id: HookId,
    op: UnKind,
    v: Value,
) -> Result<Act<'p>, NoMemory>
    ensures refines { Evaluates state.old (hooked_unary id.id op v) result state.new }
    ensures bounded { RankAtMost state.old 46 result state.new }
{
    match op {
        UnKind::Up => update_value(state, id, true, v),
        UnKind::Down => update_value(state, id, false, v),
        UnKind::Minus
        | UnKind::Plus
        | UnKind::Not
        | UnKind::Tilde
        | UnKind::Typeof
        | UnKind::Void => operate_on(state, true, id.first(), op, v),
    }
}

/// A hook of `++` or `--` on a value, which gives the new value.
#[tactic(auto, using(crate::proofs::Updates::updates_hooked))]
fn update_value<'p>(
    state: &mut State<'p>,
    id: HookId,
    up: bool,
    v: Value,
) -> Result<Act<'p>, NoMemory>
    ensures refines { Evaluates state.old (hooked_update id.id (update_kind up) v) result state.new }
    ensures bounded { RankAtMost state.old 30 result state.new }
{
    let alloc = state.alloc();
    let held = share(alloc, &v)?;
    state.push_value(ValueFrame::UpdateOperandPrimitive { id, up, held })?;
    to_primitive(state, v, Hint::Number)
}

/// The operand of a hook of `++` or `--` is a primitive value (11.3).
pub fn step_update_operand_primitive<'p>(
    state: &mut State<'p>,
    id: HookId,
    up: bool,
    held: Value,
    v: Value,
) -> Result<Act<'p>, NoMemory>
    ensures refines { Resumes state.old (ValueFrame.UpdateOperandPrimitive id up held) v result state.new }
    ensures bounded { RankAtMost state.old 12 result state.new }
{
    match number_of(&v) {
        Ok(n) => emit_next(state, id, update_kind(up), held, n),
        Err(NumberOutside) => Ok(Act::Fault(Fault::NumberOutside)),
    }
}

/// A hook emits the number after another one, or before it, and gives it.
fn emit_next<'p>(
    state: &mut State<'p>,
    id: HookId,
    op: UnKind,
    held: Value,
    n: Num,
) -> Result<Act<'p>, NoMemory>
    ensures refines { Evaluates state.old (lift (give_next op n) then λ w. note emits id.id (λ heap. Op.Unary op
        (seen_of heap held) (seen_of heap w)) then λ _. give w) result state.new }
    ensures bounded { RankAtMost state.old 12 result state.new }
{
    match next_number(op, n) {
        Ok(next) => emit_unary(state, id, op, held, Value::Num(next)),
        Err(NumberOutside) => Ok(Act::Fault(Fault::NumberOutside)),
    }
}

/// A hook emits what an operator on one operand gave, and gives it.
fn emit_unary<'p>(
    state: &mut State<'p>,
    id: HookId,
    op: UnKind,
    operand: Value,
    v: Value,
) -> Result<Act<'p>, NoMemory>
    ensures refines { Evaluates state.old (note emits id.id (λ heap. Op.Unary op (seen_of heap operand) (seen_of heap
        v)) then λ _. give v) result state.new }
    ensures bounded { RankAtMost state.old 6 result state.new }
{
    step_emit_unary(state, id.first(), op, operand, v)
}

/// A hook of `++` or `--` on a member (11.3, 11.4.4, 11.4.5), which gives the new value.
pub(crate) fn enter_update<'p>(
    state: &mut State<'p>,
    id: HookId,
    strict: bool,
    up: bool,
    values: &List<Value>,
) -> Result<Act<'p>, NoMemory>
    ensures refines { Evaluates state.old (update_member emits id.id strict (update_kind up) (first_of values.now)
        (second_of values.now) then λ r. give r.1) result state.new }
    ensures bounded { RankAtMost state.old 146 result state.new }
{
    let alloc = state.alloc();
    let noted = Noted { emits: true, id };
    let base = first_of(alloc, values)?;
    let key = second_of(alloc, values)?;
    update_member(state, noted, strict, up, true, base, key)
}
