//! Members deleted (11.4.1).
ghost use Rattle.jl_heap.specs.Describe.{seen_of};
ghost use Rattle.jl_value.specs.declared.value.Value.TheVariants as value;
ghost use Rattle.jl_meaning.specs.Noting.{note, performs};
ghost use Rattle.jl_meaning.specs.Parts.{give, ◌>>=◌ as ◌then◌};
ghost use Rattle.jl_meaning.specs.forms.Members.{delete_member};
ghost use Rattle.jl_op.specs.declared.op.Op.TheVariants as op;
ghost use Rattle.jl_state.specs.Clauses.{Evaluates, RankAtMost, Resumes, Uses};
ghost use Rattle.jl_state.specs.Rest.{RefinesExpression};
ghost use Rattle.jl_state.specs.Words.{noting};

use crate::members::{by_script, member_name, quick_key};
use jl_algorithm::delete;
use jl_ast::Expr;
use jl_op::Op;
use jl_operator::emit;
use jl_state::{Act, Here, MemberUse, Noted, State, ValueFrame};
use jl_store::Answer;
use jl_text::{NoMemory, Text};
use jl_value::{Completion, Value, share};

/// `delete o[k]` (11.4.1).
#[tactic(auto, unfolding(jl_meaning::specs::forms::Members::delete_member))]
pub fn delete_member<'p>(
    state: &mut State<'p>,
    noted: Noted,
    strict: bool,
    base: Value,
    key: Value,
) -> Result<Act<'p>, NoMemory>
    ensures refines { Evaluates state.old (delete_member (noting noted.emits) noted.id.id strict base key) result
        state.new }
    ensures bounded { RankAtMost state.old 30 result state.new }
{
    let alloc = state.alloc();
    let found = quick_key(alloc, &base, &key)?;
    match found {
        Some(name) => delete_by_key(state, noted, base, strict, name),
        None => {
            let purpose = MemberUse::Delete {
                noted,
                base: share(alloc, &base)?,
                strict,
            };
            member_name(state, &base, key, purpose)
        }
    }
}

/// A member whose name has been found is deleted.
pub fn delete_by_key<'p>(
    state: &mut State<'p>,
    noted: Noted,
    base: Value,
    strict: bool,
    name: Text,
) -> Result<Act<'p>, NoMemory>
    ensures refines { Uses state.old (MemberUse.Delete noted base strict) name result state.new }
    ensures bounded { RankAtMost state.old 8 result state.new }
{
    match delete(state, strict, &base, &name)? {
        Answer::Gives(free) => note_deleted(state, noted, &base, name, free),
        Answer::Throws(thrown) => Ok(Act::Complete(Completion::Throw(thrown))),
    }
}

/// A hook emits that a member was deleted or may not be, or the script performs it, and whether it is gone is given.
fn note_deleted<'p>(
    state: &mut State<'p>,
    noted: Noted,
    base: &Value,
    name: Text,
    free: bool,
) -> Result<Act<'p>, NoMemory>
    ensures refines { Evaluates state.old (note (noting noted.emits) noted.id.id (λ heap. op.DeleteField (seen_of heap
        base.now) name free) then λ _. give (value.Bool free)) result state.new }
    ensures bounded { RankAtMost state.old 6 result state.new }
{
    if !noted.emits {
        return Ok(Act::Give(Value::Bool(free)));
    }
    let told = Op::DeleteField {
        base: state.store.seen(base)?,
        name,
        result: free,
    };
    emit(state, noted.id.first(), told, Value::Bool(free))
}

/// `delete` of what is no reference gives true (11.4.1, step 2).
pub fn step_delete_value<'p>(state: &mut State<'p>, v: Value) -> Result<Act<'p>, NoMemory>
    ensures refines { Resumes state.old ValueFrame.DeleteValue v result state.new }
    ensures bounded { RankAtMost state.old 3 result state.new }
{
    Ok(Act::Give(Value::Bool(true)))
}

/// `delete o.k` goes on with o.
pub fn step_delete_dot_base<'p>(
    state: &mut State<'p>,
    key: &'p Text,
    strict: bool,
    v: Value,
) -> Result<Act<'p>, NoMemory>
    ensures refines { Resumes state.old (ValueFrame.DeleteDotBase key.entry strict) v result state.new }
    ensures bounded { RankAtMost state.old 30 result state.new }
{
    let alloc = state.alloc();
    let key = Value::Text(key.share(alloc)?);
    delete_own(state, strict, v, key)
}

/// `delete o[k]` goes on with o.
pub fn step_delete_index_base<'p>(
    state: &mut State<'p>,
    key: &'p Box<Expr>,
    here: Here,
    v: Value,
) -> Result<Act<'p>, NoMemory>
    ensures refines { Resumes state.old (ValueFrame.DeleteIndexBase key.entry here) v result state.new }
    ensures bounded { RankAtMost state.old 34 result state.new }
{
    let frame = ValueFrame::DeleteIndexKey {
        base: v,
        strict: here.strict,
    };
    state.evaluate(frame, key, here)
}

/// `delete o[k]` goes on with k.
pub fn step_delete_index_key<'p>(
    state: &mut State<'p>,
    base: Value,
    strict: bool,
    v: Value,
) -> Result<Act<'p>, NoMemory>
    ensures refines { Resumes state.old (ValueFrame.DeleteIndexKey base strict) v result state.new }
    ensures bounded { RankAtMost state.old 30 result state.new }
{
    delete_own(state, strict, base, v)
}

/// `delete o[k]`, where the script performs it.
fn delete_own<'p>(
    state: &mut State<'p>,
    strict: bool,
    base: Value,
    key: Value,
) -> Result<Act<'p>, NoMemory>
    ensures refines { Evaluates state.old (delete_member performs 0 strict base key) result state.new }
    ensures bounded { RankAtMost state.old 30 result state.new }
{
    delete_member(state, by_script(), strict, base, key)
}
