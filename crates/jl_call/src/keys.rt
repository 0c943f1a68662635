//! Keys of members, and what their names are for (9.8, 11.2.1).
ghost use Rattle.std.specs.Prelude.{◌+◌};
ghost use Rattle.jl_meaning.specs.Parts.{lift, ◌>>=◌ as ◌then◌};
ghost use Rattle.jl_meaning.specs.forms.Hooks.{first_of, second_of};
ghost use Rattle.jl_meaning.specs.forms.Members.{member_name};
ghost use Rattle.jl_state.specs.Clauses.{Evaluates, RankAtMost, Resumes, Uses};
ghost use Rattle.jl_state.specs.Rank.{rank_key};
ghost use Rattle.jl_state.specs.ValueFrames.{key_after};
ghost use Rattle.jl_state.specs.Words.{table_of};

use crate::closing::start_closing;
use crate::values::{first_of, second_of};
use jl_ast::{BinOp, Expr};
use jl_member::{assign_by_key, delete_by_key, get_by_key, get_member, member_name, update_by_key};
use jl_operator::text_of;
use jl_state::{Act, Here, HookId, MemberUse, Noted, Pending, State, ValueFrame};
use jl_text::{List, NoMemory, Text};
use jl_value::{Value, share};

/// The key of a member is a primitive value (9.8).
pub fn step_key<'p>(
    state: &mut State<'p>,
    purpose: MemberUse<'p>,
    v: Value,
) -> Result<Act<'p>, NoMemory>
    ensures refines { Resumes state.old (ValueFrame.Key purpose.entry) v result state.new }
    ensures bounded { RankAtMost state.old (rank_key purpose.entry + 2) result state.new }
{
    let alloc = state.alloc();
    let name = text_of(alloc, &v)?;
    use_name(state, purpose, name)
}

/// Something is done with the name of a member.
fn use_name<'p>(
    state: &mut State<'p>,
    purpose: MemberUse<'p>,
    name: Text,
) -> Result<Act<'p>, NoMemory>
    ensures refines { Uses state.old purpose.entry name result state.new }
    ensures bounded { RankAtMost state.old (rank_key purpose.entry + 2) result state.new }
{
    match purpose {
        MemberUse::Get { noted, base } => get_by_key(state, noted, base, name),
        MemberUse::Call { base, args, here } => { call_by_key(state, base, args, here, name) }
        MemberUse::Assign {
            base,
            op,
            value,
            here,
        } => assign_by_key(state, base, op, value, here, name),
        MemberUse::Delete {
            noted,
            base,
            strict,
        } => delete_by_key(state, noted, base, strict, name),
        MemberUse::Update {
            noted,
            base,
            up,
            prefix,
            strict,
        } => update_by_key(state, noted, base, up, prefix, strict, name),
        MemberUse::Put {
            id,
            base,
            args,
            here,
        } => start_closing(state, Pending::Put { id, base, name }, args, here),
        MemberUse::Compute {
            id,
            op,
            base,
            args,
            here,
        } => compute_by_key(state, id, op, base, args, here, name),
        MemberUse::Method {
            id,
            base,
            args,
            here,
        } => method_by_key(state, id, base, args, here, name),
    }
}

/// The value of a member is got, and called (11.2.3).
pub(crate) fn call_by_key<'p>(
    state: &mut State<'p>,
    base: Value,
    args: &'p List<Expr>,
    here: Here,
    name: Text,
) -> Result<Act<'p>, NoMemory>
    ensures refines { Uses state.old (MemberUse.Call base args.entry here) name result state.new }
    ensures bounded { RankAtMost state.old 160 result state.new }
{
    let alloc = state.alloc();
    let object = share(alloc, &base)?;
    state.push_value(ValueFrame::Callee {
        this: base,
        by_new: false,
        args,
        here,
    })?;
    let noted = Noted {
        emits: false,
        id: HookId::own(),
    };
    get_member(state, noted, object, name)
}

/// A hook gets the value of a member, with which an assignment computes (11.13.2).
fn compute_by_key<'p>(
    state: &mut State<'p>,
    id: HookId,
    op: BinOp,
    base: Value,
    args: &'p List<Expr>,
    here: Here,
    name: Text,
) -> Result<Act<'p>, NoMemory>
    ensures refines { Uses state.old (MemberUse.Compute id op base args.entry here) name result state.new }
    ensures bounded { RankAtMost state.old 160 result state.new }
{
    let alloc = state.alloc();
    let object = share(alloc, &base)?;
    let key = name.share(alloc)?;
    state.push_value(ValueFrame::ComputePending {
        id,
        op,
        base,
        name,
        args,
        here,
    })?;
    get_member(state, Noted { emits: true, id }, object, key)
}

/// A hook gets the value of a member, which its second call calls (11.2.3).
fn method_by_key<'p>(
    state: &mut State<'p>,
    id: HookId,
    base: Value,
    args: &'p List<Expr>,
    here: Here,
    name: Text,
) -> Result<Act<'p>, NoMemory>
    ensures refines { Uses state.old (MemberUse.Method id base args.entry here) name result state.new }
    ensures bounded { RankAtMost state.old 160 result state.new }
{
    let alloc = state.alloc();
    let object = share(alloc, &base)?;
    state.push_value(ValueFrame::MethodPending {
        id,
        base,
        args,
        here,
    })?;
    get_member(state, Noted { emits: true, id }, object, name)
}

/// The name of the member is found that a hook is asked for, of which it gets the base and the key.
pub(crate) fn name_member<'p>(
    state: &mut State<'p>,
    values: &List<Value>,
    purpose: MemberUse<'p>,
) -> Result<Act<'p>, NoMemory>
    ensures refines { Evaluates state.old (lift (member_name (first_of values.now) (second_of values.now)) then
        key_after (table_of state.old.functions) state.old.calls purpose.entry) result state.new }
    ensures bounded { RankAtMost state.old (rank_key purpose.entry + 20) result state.new }
{
    let alloc = state.alloc();
    let base = first_of(alloc, values)?;
    let key = second_of(alloc, values)?;
    member_name(state, &base, key, purpose)
}
