//! Members assigned (11.13).
ghost use Rattle.std.specs.Prelude.{None, Some};
ghost use Rattle.jl_ast.specs.View.{view_expression};
ghost use Rattle.jl_meaning.specs.Expressions.{evaluate};
ghost use Rattle.jl_meaning.specs.forms.Members.{assign_member};
ghost use Rattle.jl_state.specs.Clauses.{Evaluates, RankAtMost, Resumes, Uses};
ghost use Rattle.jl_state.specs.Trees.{plain};
ghost use Rattle.jl_state.specs.Words.{context_of, table_of};

use crate::members::{by_script, member_name, quick_key};
use crate::put_members::step_put_member;
use crate::read_members::get_member;
use jl_algorithm::leaf_value;
use jl_ast::{BinOp, Expr};
use jl_op::OpId;
use jl_operator::operate;
use jl_state::{Act, Here, MemberUse, State, ValueFrame};
use jl_text::{NoMemory, Text};
use jl_value::{Value, share};

/// o[k] = e and o[k] op= e (11.13).
pub fn assign_member<'p>(
    state: &mut State<'p>,
    base: Value,
    key: Value,
    op: Option<BinOp>,
    value: &'p Box<Expr>,
    here: Here,
) -> Result<Act<'p>, NoMemory>
    ensures refines { Evaluates state.old (assign_member 0 (context_of state.old.calls here) base key op (evaluate
        (table_of state.old.functions) (plain (view_expression value.now.value)) (context_of state.old.calls here)))
        result state.new }
    ensures bounded { RankAtMost state.old 186 result state.new }
{
    let alloc = state.alloc();
    let found = quick_key(alloc, &base, &key)?;
    match found {
        Some(name) => assign_by_key(state, base, op, value, here, name),
        None => {
            let purpose = MemberUse::Assign {
                base: share(alloc, &base)?,
                op,
                value,
                here,
            };
            member_name(state, &base, key, purpose)
        }
    }
}

/// A member whose name has been found is assigned.
pub fn assign_by_key<'p>(
    state: &mut State<'p>,
    base: Value,
    op: Option<BinOp>,
    value: &'p Box<Expr>,
    here: Here,
    name: Text,
) -> Result<Act<'p>, NoMemory>
    ensures refines { Uses state.old (MemberUse.Assign base op value.entry here) name result state.new }
    ensures bounded { RankAtMost state.old 160 result state.new }
{
    match op {
        Some(op) => compute_by_key(state, base, op, value, here, name),
        None => put_by_key(state, base, value, here, name),
    }
}

/// A member whose name has been found gets the value of an expression.
fn put_by_key<'p>(
    state: &mut State<'p>,
    base: Value,
    value: &'p Box<Expr>,
    here: Here,
    name: Text,
) -> Result<Act<'p>, NoMemory>
    ensures refines { Uses state.old (MemberUse.Assign base None value.entry here) name result state.new }
    ensures bounded { RankAtMost state.old 160 result state.new }
{
    let found = leaf_value(&*state, value, here)?;
    match found {
        Some(v) => {
            state.take_step();
            step_put_member(state, false, OpId(0), base, name, here.strict, v)
        }
        None => {
            let frame = ValueFrame::PutMember {
                emits: false,
                id: OpId(0),
                base,
                name,
                strict: here.strict,
            };
            state.evaluate(frame, value, here)
        }
    }
}

/// A member whose name has been found gets what an operator makes of its value and another.
fn compute_by_key<'p>(
    state: &mut State<'p>,
    base: Value,
    op: BinOp,
    value: &'p Box<Expr>,
    here: Here,
    name: Text,
) -> Result<Act<'p>, NoMemory>
    ensures refines { Uses state.old (MemberUse.Assign base (Some op) value.entry here) name result state.new }
    ensures bounded { RankAtMost state.old 160 result state.new }
{
    let alloc = state.alloc();
    state.push_value(ValueFrame::ComputeMember {
        base: share(alloc, &base)?,
        name: name.share(alloc)?,
        op,
        value,
        here,
    })?;
    get_member(state, by_script(), base, name)
}

/// An assignment to `o.k` goes on with o.
pub fn step_assign_dot_base<'p>(
    state: &mut State<'p>,
    key: &'p Text,
    op: Option<BinOp>,
    value: &'p Box<Expr>,
    here: Here,
    v: Value,
) -> Result<Act<'p>, NoMemory>
    ensures refines { Resumes state.old (ValueFrame.AssignDotBase key.entry op value.entry here) v result state.new }
    ensures bounded { RankAtMost state.old 190 result state.new }
{
    let alloc = state.alloc();
    let key = Value::Text(key.share(alloc)?);
    assign_member(state, v, key, op, value, here)
}

/// An assignment to `o[k]` goes on with o.
pub fn step_assign_index_base<'p>(
    state: &mut State<'p>,
    key: &'p Expr,
    op: Option<BinOp>,
    value: &'p Box<Expr>,
    here: Here,
    v: Value,
) -> Result<Act<'p>, NoMemory>
    ensures refines { Resumes state.old (ValueFrame.AssignIndexBase key.entry op value.entry here) v result state.new }
    ensures bounded { RankAtMost state.old 194 result state.new }
{
    let found = leaf_value(&*state, key, here)?;
    match found {
        Some(k) => {
            state.take_step();
            assign_member(state, v, k, op, value, here)
        }
        None => {
            let frame = ValueFrame::AssignIndexKey {
                base: v,
                op,
                value,
                here,
            };
            state.evaluate(frame, key, here)
        }
    }
}

/// An assignment to `o[k]` goes on with k.
pub fn step_assign_index_key<'p>(
    state: &mut State<'p>,
    base: Value,
    op: Option<BinOp>,
    value: &'p Box<Expr>,
    here: Here,
    v: Value,
) -> Result<Act<'p>, NoMemory>
    ensures refines { Resumes state.old (ValueFrame.AssignIndexKey base op value.entry here) v result state.new }
    ensures bounded { RankAtMost state.old 190 result state.new }
{
    assign_member(state, base, v, op, value, here)
}

/// `o[k] op= e` goes on with the value of the member.
pub fn step_compute_member<'p>(
    state: &mut State<'p>,
    base: Value,
    name: Text,
    op: BinOp,
    value: &'p Box<Expr>,
    here: Here,
    v: Value,
) -> Result<Act<'p>, NoMemory>
    ensures refines { Resumes state.old (ValueFrame.ComputeMember base name op value.entry here) v result state.new }
    ensures bounded { RankAtMost state.old 124 result state.new }
{
    let strict = here.strict;
    let found = leaf_value(&*state, value, here)?;
    match found {
        Some(operand) => {
            state.take_step();
            step_compute_member_operand(state, base, name, op, v, strict, operand)
        }
        None => {
            let frame = ValueFrame::ComputeMemberOperand {
                base,
                name,
                op,
                held: v,
                strict,
            };
            state.evaluate(frame, value, here)
        }
    }
}

/// `o[k] op= e` goes on with the value of e.
pub fn step_compute_member_operand<'p>(
    state: &mut State<'p>,
    base: Value,
    name: Text,
    op: BinOp,
    held: Value,
    strict: bool,
    v: Value,
) -> Result<Act<'p>, NoMemory>
    ensures refines { Resumes state.old (ValueFrame.ComputeMemberOperand base name op held strict) v result state.new }
    ensures bounded { RankAtMost state.old 120 result state.new }
{
    state.push_value(ValueFrame::PutMember {
        emits: false,
        id: OpId(2),
        base,
        name,
        strict,
    })?;
    operate(state, false, OpId(1), op, held, v)
}
