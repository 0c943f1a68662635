//! Operators that wait for an operand (11.4 to 11.12, 11.14).
ghost use Rattle.std.specs.Prelude.{◌≡◌, ◌≤◌};
ghost use Rattle.jl_ast.specs.View.{view_expression};
ghost use Rattle.jl_meaning.specs.Expressions.{evaluate};
ghost use Rattle.jl_state.specs.Clauses.{RankAtMost, Resumes};
ghost use Rattle.jl_state.specs.Rank.{rank_act};
ghost use Rattle.jl_state.specs.Rest.{RefinesExpression};
ghost use Rattle.jl_state.specs.Trees.{plain};
ghost use Rattle.jl_state.specs.Words.{context_of, table_of};
ghost use Rattle.jl_state.specs.declared.state.State.{State as Machine};

use jl_algorithm::leaf_value;
use jl_ast::{BinOp, Expr};
use jl_conv::to_boolean;
use jl_op::{OpId, UnKind};
use jl_operator::{operate, operate_on};
use jl_state::{Act, Here, State, ValueFrame};
use jl_text::NoMemory;
use jl_value::Value;

/// `a && b` goes on with the value of a (11.11).
#[tactic(auto, unfolding(jl_meaning::specs::forms::Operators::decide))]
pub fn step_and<'p>(
    state: &mut State<'p>,
    right: &'p Box<Expr>,
    here: Here,
    v: Value,
) -> Result<Act<'p>, NoMemory>
    ensures refines { Resumes state.old (ValueFrame.And right.entry here) v result state.new }
    ensures bounded { RankAtMost state.old 5 result state.new }
{
    if to_boolean(&v) {
        Ok(value_of(right, here))
    } else {
        Ok(Act::Give(v))
    }
}

/// `a || b` goes on with the value of a (11.11).
#[tactic(auto, unfolding(jl_meaning::specs::forms::Operators::decide))]
pub fn step_or<'p>(
    state: &mut State<'p>,
    right: &'p Box<Expr>,
    here: Here,
    v: Value,
) -> Result<Act<'p>, NoMemory>
    ensures refines { Resumes state.old (ValueFrame.Or right.entry here) v result state.new }
    ensures bounded { RankAtMost state.old 5 result state.new }
{
    if to_boolean(&v) {
        Ok(Act::Give(v))
    } else {
        Ok(value_of(right, here))
    }
}

/// `a ? b : c` goes on with the value of a (11.12).
#[tactic(auto, unfolding(jl_meaning::specs::forms::Operators::decide))]
pub fn step_conditional<'p>(
    state: &mut State<'p>,
    first: &'p Box<Expr>,
    second: &'p Box<Expr>,
    here: Here,
    v: Value,
) -> Result<Act<'p>, NoMemory>
    ensures refines { Resumes state.old (ValueFrame.Conditional first.entry second.entry here) v result state.new }
    ensures bounded { RankAtMost state.old 5 result state.new }
{
    if to_boolean(&v) {
        Ok(value_of(first, here))
    } else {
        Ok(value_of(second, here))
    }
}

/// `a, b` goes on when a has been evaluated (11.14).
pub fn step_comma<'p>(
    state: &mut State<'p>,
    right: &'p Box<Expr>,
    here: Here,
    v: Value,
) -> Result<Act<'p>, NoMemory>
    ensures refines { Resumes state.old (ValueFrame.Comma right.entry here) v result state.new }
    ensures bounded { RankAtMost state.old 5 result state.new }
{
    Ok(value_of(right, here))
}

/// An operator with one operand goes on with its value (11.4).
pub fn step_operand<'p>(state: &mut State<'p>, op: UnKind, v: Value) -> Result<Act<'p>, NoMemory>
    ensures refines { Resumes state.old (ValueFrame.Operand op) v result state.new }
    ensures bounded { RankAtMost state.old 52 result state.new }
{
    operate_on(state, false, OpId(0), op, v)
}

/// An operator goes on with the value of its left operand (11.5 to 11.10).
pub fn step_left_operand<'p>(
    state: &mut State<'p>,
    op: BinOp,
    right: &'p Box<Expr>,
    here: Here,
    v: Value,
) -> Result<Act<'p>, NoMemory>
    ensures refines { Resumes state.old (ValueFrame.LeftOperand op right.entry here) v result state.new }
    ensures bounded { RankAtMost state.old 56 result state.new }
{
    let found = leaf_value(&*state, right, here)?;
    match found {
        Some(b) => {
            state.take_step();
            step_right_operand(state, op, v, b)
        }
        None => state.evaluate(ValueFrame::RightOperand { op, left: v }, right, here),
    }
}

/// An operator goes on with the value of its right operand (11.5 to 11.10).
pub fn step_right_operand<'p>(
    state: &mut State<'p>,
    op: BinOp,
    left: Value,
    v: Value,
) -> Result<Act<'p>, NoMemory>
    ensures refines { Resumes state.old (ValueFrame.RightOperand op left) v result state.new }
    ensures bounded { RankAtMost state.old 52 result state.new }
{
    operate(state, false, OpId(0), op, left, v)
}

/// An expression is evaluated, and its value is given on.
fn value_of<'p>(e: &'p Expr, here: Here) -> Act<'p>
    ensures refines { (s : Machine) → RefinesExpression s
        (evaluate (table_of s.functions) (plain (view_expression e.now)) (context_of s.calls here)) s result }
    ensures low { rank_act result ≤ 1 }
{
    Act::Evaluate(e, here)
}
