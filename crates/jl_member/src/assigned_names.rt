//! Names assigned (11.13, 12.2).
ghost use Rattle.jl_ast.specs.View.{view_expression};
ghost use Rattle.jl_meaning.specs.Expressions.{evaluate};
ghost use Rattle.jl_meaning.specs.Parts.{◌>>=◌ as ◌then◌};
ghost use Rattle.jl_meaning.specs.forms.Names.{assign_name, compute_name};
ghost use Rattle.jl_state.specs.Clauses.{Evaluates, RankAtMost, Resumes};
ghost use Rattle.jl_state.specs.Trees.{plain};
ghost use Rattle.jl_state.specs.ValueFrames.{value_after};
ghost use Rattle.jl_state.specs.Words.{context_of, table_of};

use jl_algorithm::{get_value, is_hooks, leaf_value, put_value};
use jl_ast::{BinOp, Expr};
use jl_op::OpId;
use jl_operator::operate;
use jl_state::{Act, Here, State, ValueFrame};
use jl_store::Reference;
use jl_text::{NoMemory, Text};
use jl_value::{Fault, Value, share};

/// A name gets the value of an expression (11.13.1), as does a variable (12.2).
pub fn assign_name<'p>(
    state: &mut State<'p>,
    name: &'p Text,
    value: &'p Expr,
    here: Here,
) -> Result<Act<'p>, NoMemory>
    ensures refines { Evaluates state.old (assign_name 0 (context_of state.old.calls here) name.now (evaluate
        (table_of state.old.functions) (plain (view_expression value.now)) (context_of state.old.calls here)))
        result state.new }
    ensures bounded { RankAtMost state.old 60 result state.new }
{
    if is_hooks(name) {
        return Ok(Act::Fault(Fault::Misuse));
    }
    let reference = state.store.identifier_reference(here.env, name);
    write_value(state, name, reference, value, here)
}

/// A name that has been resolved gets the value of an expression.
fn write_value<'p>(
    state: &mut State<'p>,
    name: &'p Text,
    reference: Reference,
    value: &'p Expr,
    here: Here,
) -> Result<Act<'p>, NoMemory>
    ensures refines { Evaluates state.old (evaluate (table_of state.old.functions) (plain (view_expression value.now))
        (context_of state.old.calls here) then value_after (table_of state.old.functions) state.old.calls
        (ValueFrame.WriteName (record { 0 = 0 }) name.entry reference here.strict)) result state.new }
    ensures bounded { RankAtMost state.old 50 result state.new }
{
    let found = leaf_value(&*state, value, here)?;
    match found {
        Some(v) => {
            state.take_step();
            step_write_name(state, OpId(0), name, reference, here.strict, v)
        }
        None => {
            let frame = ValueFrame::WriteName {
                id: OpId(0),
                name,
                reference,
                strict: here.strict,
            };
            state.evaluate(frame, value, here)
        }
    }
}

/// Goes on with a value that is written to a name (11.13.1, 12.2).
pub fn step_write_name<'p>(
    state: &mut State<'p>,
    id: OpId,
    name: &'p Text,
    reference: Reference,
    strict: bool,
    v: Value,
) -> Result<Act<'p>, NoMemory>
    ensures refines { Resumes state.old (ValueFrame.WriteName id name.entry reference strict) v result state.new }
    ensures bounded { RankAtMost state.old 46 result state.new }
{
    let alloc = state.alloc();
    let given = share(alloc, &v)?;
    put_value(state, strict, name, v, reference, given)
}

/// A name gets what an operator makes of its value and another (11.13.2).
pub fn compute_name<'p>(
    state: &mut State<'p>,
    name: &'p Text,
    op: BinOp,
    value: &'p Box<Expr>,
    here: Here,
) -> Result<Act<'p>, NoMemory>
    ensures refines { Evaluates state.old (compute_name 0 (context_of state.old.calls here) name.now op (evaluate
        (table_of state.old.functions) (plain (view_expression value.now.value)) (context_of state.old.calls here)))
        result state.new }
    ensures bounded { RankAtMost state.old 120 result state.new }
{
    if is_hooks(name) {
        return Ok(Act::Fault(Fault::Misuse));
    }
    let reference = state.store.identifier_reference(here.env, name);
    if let Reference::InEnvironment(env) = reference {
        let v = state.store.binding_value(env, name)?;
        let bound = Reference::InEnvironment(env);
        return step_compute_name(state, name, bound, op, value, here, v);
    }
    state.push_value(ValueFrame::ComputeName {
        name,
        reference,
        op,
        value,
        here,
    })?;
    get_value(state, name, reference)
}

/// Goes on with the value of a name that gets what an operator makes of that and another (11.13.2).
#[tactic(auto, using(crate::proofs::Quiet::performed))]
pub fn step_compute_name<'p>(
    state: &mut State<'p>,
    name: &'p Text,
    reference: Reference,
    op: BinOp,
    value: &'p Box<Expr>,
    here: Here,
    v: Value,
) -> Result<Act<'p>, NoMemory>
    ensures refines { Resumes state.old (ValueFrame.ComputeName name.entry reference op value.entry here) v result
        state.new }
    ensures bounded { RankAtMost state.old 104 result state.new }
{
    let strict = here.strict;
    let found = leaf_value(&*state, value, here)?;
    match found {
        Some(operand) => {
            state.take_step();
            step_compute_name_operand(state, name, reference, op, v, strict, operand)
        }
        None => {
            let frame = ValueFrame::ComputeNameOperand {
                name,
                reference,
                op,
                held: v,
                strict,
            };
            state.evaluate(frame, value, here)
        }
    }
}

/// Goes on with the other value.
pub fn step_compute_name_operand<'p>(
    state: &mut State<'p>,
    name: &'p Text,
    reference: Reference,
    op: BinOp,
    held: Value,
    strict: bool,
    v: Value,
) -> Result<Act<'p>, NoMemory>
    ensures refines { Resumes state.old (ValueFrame.ComputeNameOperand name.entry reference op held strict) v result
        state.new }
    ensures bounded { RankAtMost state.old 100 result state.new }
{
    state.push_value(ValueFrame::WriteName {
        id: OpId(2),
        name,
        reference,
        strict,
    })?;
    operate(state, false, OpId(1), op, held, v)
}
