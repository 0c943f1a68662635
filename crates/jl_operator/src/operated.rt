//! Operators as expressions, and what hooks emit of them and of what was got and called (11.3 to 11.10).
ghost use Rattle.std.specs.Prelude.{◌≡◌, ◌∷◌, ◌+◌};
ghost use Rattle.jl_effects.specs.Effects.{Emit, Look};
ghost use Rattle.jl_heap.specs.Describe.{seen_of};
ghost use Rattle.jl_heap.specs.Objects.{Objects};
ghost use Rattle.jl_meaning.specs.Parts.{give};
ghost use Rattle.jl_meaning.specs.forms.Operators.{operate, operate_on};
ghost use Rattle.jl_state.specs.Clauses.{Evaluates, RankAtMost, Resumes};
ghost use Rattle.jl_state.specs.EmitFrames.{emit_after};
ghost use Rattle.jl_state.specs.Rank.{rank_emit};
ghost use Rattle.jl_state.specs.Words.{noting};

use crate::binary::binary_result;
use crate::unary::unary_result;
use jl_ast::BinOp;
use jl_op::{Found, Op, OpId, UnKind};
use jl_state::{Act, Boxed, EmitFrame, Frame, State, ValueFrame};
use jl_text::{NoMemory, Text};
use jl_value::{ObjId, Value, share};

/// The observer is told of an operation, and then a frame goes on.
#[tactic(auto, using(crate::proofs::Operands::emits_for, crate::proofs::Operands::told_falls))]
pub fn emit_for<'p>(
    state: &mut State<'p>,
    id: OpId,
    op: Op,
    frame: EmitFrame,
) -> Result<Act<'p>, NoMemory>
    ensures refines { Evaluates state.old (Emit (id, op) (emit_after frame)) result state.new }
    ensures bounded { RankAtMost state.old (rank_emit frame + 2) result state.new }
{
    let alloc = state.alloc();
    let op = Boxed::of(alloc, op)?;
    state.stack.push(Frame::Told(Boxed::of(alloc, frame)?))?;
    Ok(Act::Emit(id, op))
}

/// The observer is told of an operation, and then a value is given.
#[tactic(auto, using(crate::proofs::Operands::emits_giving))]
pub fn emit<'p>(state: &mut State<'p>, id: OpId, op: Op, then: Value) -> Result<Act<'p>, NoMemory>
    ensures refines { Evaluates state.old (Emit (id, op) (give then)) result state.new }
    ensures bounded { RankAtMost state.old 5 result state.new }
{
    let op = Boxed::of(state.alloc(), op)?;
    state.stack.push(Frame::Give(then))?;
    Ok(Act::Emit(id, op))
}

/// A hook emits what an operator gave.
pub fn step_emit_binary<'p>(
    state: &mut State<'p>,
    id: OpId,
    op: BinOp,
    left: Value,
    right: Value,
    v: Value,
) -> Result<Act<'p>, NoMemory>
    ensures refines { Resumes state.old (ValueFrame.EmitBinary id op left right) v result state.new }
    ensures bounded { RankAtMost state.old 6 result state.new }
{
    let told = Op::Binary {
        op,
        left: state.store.seen(&left)?,
        right: state.store.seen(&right)?,
        result: state.store.seen(&v)?,
    };
    emit(state, id, told, v)
}

/// A hook emits what an operator on one operand gave.
pub fn step_emit_unary<'p>(
    state: &mut State<'p>,
    id: OpId,
    op: UnKind,
    operand: Value,
    v: Value,
) -> Result<Act<'p>, NoMemory>
    ensures refines { Resumes state.old (ValueFrame.EmitUnary id op operand) v result state.new }
    ensures bounded { RankAtMost state.old 6 result state.new }
{
    let told = Op::Unary {
        op,
        operand: state.store.seen(&operand)?,
        result: state.store.seen(&v)?,
    };
    emit(state, id, told, v)
}

/// A hook emits that a member was got, and what was found.
pub fn step_emit_get<'p>(
    state: &mut State<'p>,
    id: OpId,
    base: Value,
    name: Text,
    found: Found,
    v: Value,
) -> Result<Act<'p>, NoMemory>
    ensures refines { Resumes state.old (ValueFrame.EmitGet id base name found) v result state.new }
    ensures bounded { RankAtMost state.old 6 result state.new }
{
    let told = Op::GetField {
        base: state.store.seen(&base)?,
        name,
        value: state.store.seen(&v)?,
        found,
    };
    emit(state, id, told, v)
}

/// A hook emits what a call gave.
pub fn step_emit_invoke<'p>(
    state: &mut State<'p>,
    id: OpId,
    callee: ObjId,
    v: Value,
) -> Result<Act<'p>, NoMemory>
    ensures refines { Resumes state.old (ValueFrame.EmitInvoke id callee) v result state.new }
    ensures bounded { RankAtMost state.old 6 result state.new }
{
    let told = Op::InvokePost {
        callee,
        result: state.store.seen(&v)?,
    };
    emit(state, id, told, v)
}

/// An operator between two values, which a hook emits or the script performs with this id.
#[tactic(auto, unfolding(jl_meaning::specs::forms::Operators::operate))]
pub fn operate<'p>(
    state: &mut State<'p>,
    emits: bool,
    id: OpId,
    op: BinOp,
    a: Value,
    b: Value,
) -> Result<Act<'p>, NoMemory>
    ensures refines { Evaluates state.old (operate (noting emits) id.0 op a b) result state.new }
    ensures bounded { RankAtMost state.old 46 result state.new }
{
    let alloc = state.alloc();
    if emits {
        let left = share(alloc, &a)?;
        let right = share(alloc, &b)?;
        state.push_value(ValueFrame::EmitBinary {
            id,
            op,
            left,
            right,
        })?;
        binary_result(state, op, a, b)
    } else {
        binary_result(state, op, a, b)
    }
}

/// An operator on one value, which a hook emits or the script performs with this id.
#[tactic(auto, unfolding(jl_meaning::specs::forms::Operators::operate_on))]
pub fn operate_on<'p>(
    state: &mut State<'p>,
    emits: bool,
    id: OpId,
    op: UnKind,
    v: Value,
) -> Result<Act<'p>, NoMemory>
    ensures refines { Evaluates state.old (operate_on (noting emits) id.0 op v) result state.new }
    ensures bounded { RankAtMost state.old 46 result state.new }
{
    let alloc = state.alloc();
    if emits {
        let operand = share(alloc, &v)?;
        state.push_value(ValueFrame::EmitUnary { id, op, operand })?;
        unary_result(state, op, v)
    } else {
        unary_result(state, op, v)
    }
}
