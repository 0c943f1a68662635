//! Array literals (11.1.4).
ghost use Rattle.std.specs.Prelude.{◌+◌, ◌≡◌, IfOk};
ghost use Rattle.jl_ast.specs.View.{view_items};
ghost use Rattle.jl_effects.specs.Running.{Ends};
ghost use Rattle.jl_meaning.specs.FunctionObjects.{whole};
ghost use Rattle.jl_meaning.specs.Parts.{lift, ◌>>=◌ as ◌then◌};
ghost use Rattle.jl_meaning.specs.Parts as parts;
ghost use Rattle.jl_meaning.specs.forms.Literals.{end_array, index_name, new_array, put_element};
ghost use Rattle.jl_store.specs.Answers.{fault_seen, finish_of};
ghost use Rattle.jl_store.specs.BigStep.{BigStep};
ghost use Rattle.jl_state.specs.Rest.{RefinesExpression};
ghost use Rattle.jl_state.specs.Trees.{items_left, plain_forest};
ghost use Rattle.jl_state.specs.Words.{context_of, table_of};
ghost use Rattle.jl_literal.specs.Filling.{array_from};
ghost use Rattle.jl_literal.specs.inner.Elements.{after_holes, next_seen};
ghost use Rattle.jl_state.specs.Clauses.{Evaluates, RankAtMost, Resumes};

use crate::literals::give_array;
use jl_algorithm::{plain_change, value_change};
use jl_ast::Expr;
use jl_state::{Act, Here, Remaining, State, ValueFrame, split_first};
use jl_store::{AlgorithmFault, Finished, Store, count, index_name};
use jl_text::{List, NoMemory, word};
use jl_value::{Completion, Fault, ObjId, Value};
use std::alloc::Global;

/// What comes next in an array literal: an element with its index, before others, or the length.
#[derive(Drop)]
enum Next<'p> {
    Element(usize, &'p Expr, Remaining<'p, Option<Expr>>),
    Length(usize),
}

/// An array literal (11.1.4).
pub fn begin_array<'p>(
    state: &mut State<'p>,
    items: &'p List<Option<Expr>>,
    here: Here,
) -> Result<Act<'p>, NoMemory>
    ensures refines { Evaluates state.old (lift new_array then λ array. array_from (table_of state.old.functions)
        (plain_forest (view_items items.now)) array 0 (context_of state.old.calls here)) result state.new }
    ensures bounded { RankAtMost state.old 12 result state.new }
{
    let array = state.store.new_array()?;
    let rest = Remaining {
        list: items,
        from: 0,
    };
    fill(state, array, 0, rest, here)
}

/// An array literal goes on with the value of an element.
pub fn step_element<'p>(
    state: &mut State<'p>,
    array: ObjId,
    index: usize,
    rest: Remaining<'p, Option<Expr>>,
    here: Here,
    v: Value,
) -> Result<Act<'p>, NoMemory>
    ensures refines { Resumes state.old (ValueFrame.Element array index rest.entry here) v result state.new }
    ensures bounded { RankAtMost state.old 12 result state.new }
{
    let alloc = state.alloc();
    let next = next_index(index)?;
    let answer = put_element(alloc, &mut state.store, array, index, v)?;
    match answer {
        Finished::Gives(_) => fill(state, array, next, rest, here),
        Finished::Throws(thrown) => Ok(Act::Complete(Completion::Throw(thrown))),
        Finished::Fails(fault) => Ok(Act::Fault(fault_of(fault))),
    }
}

/// The elements that are left, from an index on, and then the length.
fn fill<'p>(
    state: &mut State<'p>,
    array: ObjId,
    index: usize,
    rest: Remaining<'p, Option<Expr>>,
    here: Here,
) -> Result<Act<'p>, NoMemory>
    ensures refines { Evaluates state.old (array_from (table_of state.old.functions) (plain_forest (view_items
        (items_left rest.entry))) array index (context_of state.old.calls here)) result state.new }
    ensures bounded { RankAtMost state.old 12 result state.new }
{
    match next_element(index, rest)? {
        Next::Length(length) => end_array(state, array, length),
        Next::Element(index, e, rest) => {
            let frame = ValueFrame::Element {
                array,
                index,
                rest,
                here,
            };
            state.evaluate(frame, e, here)
        }
    }
}

/// What comes next of the elements that are left, from an index on. Holes are passed over here, in no step: each is a
/// place of the tree.
fn next_element<'p>(
    mut index: usize,
    mut rest: Remaining<'p, Option<Expr>>,
) -> Result<Next<'p>, NoMemory>
    ensures { IfOk result (λ next. next_seen next
        ≡ after_holes (plain_forest (view_items (items_left rest.entry))) index) }
{
    while let Some((item, others)) = split_first(rest) {
        if let Some(e) = item {
            return Ok(Next::Element(index, e, others));
        }
        index = next_index(index)?;
        rest = others;
    }
    Ok(Next::Length(index))
}

/// The index after another one. No memory holds more elements than there are indices.
fn next_index(index: usize) -> Result<usize, NoMemory>
    ensures { IfOk result (λ next. next ≡ index + 1) }
{
    match index.checked_add(1) {
        Some(next) => Ok(next),
        None => Err(NoMemory),
    }
}

/// An element of an array literal.
#[tactic(auto, using(jl_store::proofs::PropertyChanges::elements, crate::proofs::Lengths::puts_element))]
fn put_element(
    alloc: Global,
    store: &mut Store,
    array: ObjId,
    index: usize,
    v: Value,
) -> Result<Finished<bool>, NoMemory>
    ensures { IfOk result (λ end. BigStep (put_element array index v) store.old store.new (finish_of end)) }
{
    let name = index_name(alloc, index)?;
    let change = plain_change(v);
    let answer = store.define_own_property(array, &name, change)?;
    Ok(answer)
}

/// An array that has been filled is given its length, and then it is given.
#[tactic(auto, using(crate::proofs::Lengths::primitive_length, jl_store::proofs::PropertyChanges::one_kind_value))]
fn end_array<'p>(state: &mut State<'p>, array: ObjId, length: usize) -> Result<Act<'p>, NoMemory>
    ensures refines { Evaluates state.old (end_array 0 array length) result state.new }
    ensures bounded { RankAtMost state.old 3 result state.new }
{
    let alloc = state.alloc();
    let name = word(alloc, "length")?;
    let number = count(length)?;
    let change = value_change(number);
    let answer = state.store.define_own_property(array, &name, change)?;
    match answer {
        Finished::Gives(_) => Ok(give_array(&state.store, array)),
        Finished::Throws(thrown) => Ok(Act::Complete(Completion::Throw(thrown))),
        Finished::Fails(fault) => Ok(Act::Fault(fault_of(fault))),
    }
}

/// A fault of an algorithm, as what ends the run.
fn fault_of(fault: AlgorithmFault) -> Fault
    ensures { result ≡ parts.fault_of (fault_seen fault) }
{
    match fault {
        AlgorithmFault::NumberOutside => Fault::NumberOutside,
        AlgorithmFault::StringTooLong => Fault::StringTooLong,
    }
}
