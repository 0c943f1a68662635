//! `++` and `--` of members (11.3, 11.4.4, 11.4.5).
ghost use Rattle.std.specs.Prelude.{◌+◌, if◌then◌else◌};
ghost use Rattle.jl_heap.specs.Describe.{seen_of};
ghost use Rattle.jl_value.specs.declared.value.Value.TheVariants as value;
ghost use Rattle.jl_op.specs.UnaryKinds.{update_kind};
ghost use Rattle.jl_meaning.specs.Noting.{note};
ghost use Rattle.jl_meaning.specs.Parts.{give, ◌>>=◌ as ◌then◌};
ghost use Rattle.jl_meaning.specs.forms.Members.{put_member, update_expression, update_member};
ghost use Rattle.jl_op.specs.declared.op.Op.TheVariants as op;
ghost use Rattle.jl_state.specs.Clauses.{Evaluates, RankAtMost, Resumes, Uses};
ghost use Rattle.jl_state.specs.Words.{context_of, noting};

use crate::members::{by_script, member_name, quick_key};
use crate::nexts::{next_of, value_of_update};
use crate::put_members::put_member;
use crate::read_members::get_member;
use jl_algorithm::to_primitive;
use jl_ast::Expr;
use jl_num::{Num, NumberOutside};
use jl_op::{Op, update_kind};
use jl_operator::emit_for;
use jl_state::{Act, EmitFrame, Here, Hint, MemberUse, Noted, State, ValueFrame};
use jl_text::{NoMemory, Text};
use jl_value::{Fault, Value, share};

/// `++` or `--` of a member (11.3, 11.4.4, 11.4.5): the new value, or the number that it was.
pub fn update_member<'p>(
    state: &mut State<'p>,
    noted: Noted,
    strict: bool,
    up: bool,
    prefix: bool,
    base: Value,
    key: Value,
) -> Result<Act<'p>, NoMemory>
    ensures refines { Evaluates state.old (update_member (noting noted.emits) noted.id.id strict (update_kind up) base
        key then λ v. give (if prefix then v.1 else value.Num v.0)) result state.new }
    ensures bounded { RankAtMost state.old 146 result state.new }
{
    let alloc = state.alloc();
    let found = quick_key(alloc, &base, &key)?;
    match found {
        Some(name) => update_by_key(state, noted, base, up, prefix, strict, name),
        None => {
            let purpose = MemberUse::Update {
                noted,
                base: share(alloc, &base)?,
                up,
                prefix,
                strict,
            };
            member_name(state, &base, key, purpose)
        }
    }
}

/// `++` or `--` of a member whose name has been found.
pub fn update_by_key<'p>(
    state: &mut State<'p>,
    noted: Noted,
    base: Value,
    up: bool,
    prefix: bool,
    strict: bool,
    name: Text,
) -> Result<Act<'p>, NoMemory>
    ensures refines { Uses state.old (MemberUse.Update noted base up prefix strict) name result state.new }
    ensures bounded { RankAtMost state.old 120 result state.new }
{
    let alloc = state.alloc();
    state.push_value(ValueFrame::UpdateMember {
        noted,
        base: share(alloc, &base)?,
        name: name.share(alloc)?,
        up,
        prefix,
        strict,
    })?;
    get_member(state, noted, base, name)
}

/// `++` or `--` of a member as an expression of the script.
fn update_expression<'p>(
    state: &mut State<'p>,
    strict: bool,
    up: bool,
    prefix: bool,
    base: Value,
    key: Value,
) -> Result<Act<'p>, NoMemory>
    ensures refines { Evaluates state.old (update_expression 0 (context_of state.old.calls (record {
      env = 0;
      strict =
          strict;
    })) base key up prefix) result state.new }
    ensures bounded { RankAtMost state.old 146 result state.new }
{
    let noted = by_script();
    update_member(state, noted, strict, up, prefix, base, key)
}

/// `++` or `--` of `o.k` goes on with o.
pub fn step_update_dot_base<'p>(
    state: &mut State<'p>,
    key: &'p Text,
    up: bool,
    prefix: bool,
    strict: bool,
    v: Value,
) -> Result<Act<'p>, NoMemory>
    ensures refines { Resumes state.old (ValueFrame.UpdateDotBase key.entry up prefix strict) v result state.new }
    ensures bounded { RankAtMost state.old 150 result state.new }
{
    let alloc = state.alloc();
    let key = Value::Text(key.share(alloc)?);
    update_expression(state, strict, up, prefix, v, key)
}

/// `++` or `--` of `o[k]` goes on with o.
#[tactic(auto, unfolding(jl_meaning::specs::forms::Members::update_expression))]
pub fn step_update_index_base<'p>(
    state: &mut State<'p>,
    key: &'p Expr,
    up: bool,
    prefix: bool,
    here: Here,
    v: Value,
) -> Result<Act<'p>, NoMemory>
    ensures refines { Resumes state.old (ValueFrame.UpdateIndexBase key.entry up prefix here) v result state.new }
    ensures bounded { RankAtMost state.old 154 result state.new }
{
    let frame = ValueFrame::UpdateIndexKey {
        base: v,
        up,
        prefix,
        strict: here.strict,
    };
    state.evaluate(frame, key, here)
}

/// `++` or `--` of `o[k]` goes on with k.
pub fn step_update_index_key<'p>(
    state: &mut State<'p>,
    base: Value,
    up: bool,
    prefix: bool,
    strict: bool,
    v: Value,
) -> Result<Act<'p>, NoMemory>
    ensures refines { Resumes state.old (ValueFrame.UpdateIndexKey base up prefix strict) v result state.new }
    ensures bounded { RankAtMost state.old 150 result state.new }
{
    update_expression(state, strict, up, prefix, base, v)
}

/// Goes on with the value of the member, which is converted to a primitive one.
pub fn step_update_member<'p>(
    state: &mut State<'p>,
    noted: Noted,
    base: Value,
    name: Text,
    up: bool,
    prefix: bool,
    strict: bool,
    v: Value,
) -> Result<Act<'p>, NoMemory>
    ensures refines { Resumes state.old (ValueFrame.UpdateMember noted base name up prefix strict) v result state.new }
    ensures bounded { RankAtMost state.old 90 result state.new }
{
    if let Value::Num(n) = &v {
        let held = Value::Num(*n);
        return step_update_member_primitive(state, noted, base, name, up, prefix, strict, held, v);
    }
    let alloc = state.alloc();
    let held = share(alloc, &v)?;
    state.push_value(ValueFrame::UpdateMemberPrimitive {
        noted,
        base,
        name,
        up,
        prefix,
        strict,
        held,
    })?;
    to_primitive(state, v, Hint::Number)
}

/// Goes on with the primitive value: the number after or before it is put to the member.
pub fn step_update_member_primitive<'p>(
    state: &mut State<'p>,
    noted: Noted,
    base: Value,
    name: Text,
    up: bool,
    prefix: bool,
    strict: bool,
    held: Value,
    v: Value,
) -> Result<Act<'p>, NoMemory>
    ensures refines { Resumes state.old (ValueFrame.UpdateMemberPrimitive noted base name up prefix strict held) v
        result state.new }
    ensures bounded { RankAtMost state.old 64 result state.new }
{
    match next_of(up, &v) {
        Ok((n, next)) => {
            let given = value_of_update(prefix, n, next);
            put_next(state, noted, base, name, up, strict, &held, next, given)
        }
        Err(NumberOutside) => Ok(Act::Fault(Fault::NumberOutside)),
    }
}

/// The number after or before what a member held is put to it, and a value given. A hook emits both first.
fn put_next<'p>(
    state: &mut State<'p>,
    noted: Noted,
    base: Value,
    name: Text,
    up: bool,
    strict: bool,
    held: &Value,
    next: Num,
    gives: Value,
) -> Result<Act<'p>, NoMemory>
    ensures refines { Evaluates state.old (note (noting noted.emits) (noted.id.id + 1) (λ heap. op.Unary (update_kind
        up) (seen_of heap held.now) (seen_of heap (value.Num next))) then (λ _. put_member (noting noted.emits)
        (noted.id.id + 2) strict base name (value.Num next) then λ _. give gives)) result state.new }
    ensures bounded { RankAtMost state.old 62 result state.new }
{
    let id = noted.id.third();
    let value = Value::Num(next);
    if !noted.emits {
        return put_member(state, false, id, strict, base, name, value, gives);
    }
    let told = Op::Unary {
        op: update_kind(up),
        operand: state.store.seen(held)?,
        result: state.store.seen(&value)?,
    };
    let frame = EmitFrame::PutMember {
        id,
        base,
        name,
        value,
        strict,
        gives,
    };
    emit_for(state, noted.id.second(), told, frame)
}
