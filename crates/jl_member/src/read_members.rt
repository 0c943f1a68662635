//! Members got (8.7.1, 11.2.1).
ghost use Rattle.std.specs.Prelude.{◌≡◌};
ghost use Rattle.jl_meaning.specs.Noting.{emits};
ghost use Rattle.jl_meaning.specs.Properties.{found_of, property_of_value};
ghost use Rattle.jl_meaning.specs.forms.Members.{get_member, read_member};
ghost use Rattle.jl_state.specs.Clauses.{Evaluates, RankAtMost, Resumes, Uses};
ghost use Rattle.jl_state.specs.Words.{noting};

use crate::members::{by_script, member_name, quick_key};
use jl_algorithm::{get, leaf_value};
use jl_ast::Expr;
use jl_op::{Found, OpId};
use jl_state::{Act, Here, MemberUse, Noted, State, ValueFrame};
use jl_store::Store;
use jl_text::{NoMemory, Text};
use jl_value::{Value, is_nothing, share};

/// What operations tell of the property of a value under a name (8.12.1, 8.12.2).
pub(crate) fn found_on(store: &Store, base: &Value, name: &Text) -> Found
    ensures { result ≡ found_of (property_of_value store.now base.now name.now) }
{
    match store.property_of_value(base, name) {
        Some(property) => property.as_told(),
        None => Found::Absent,
    }
}

/// GetValue of a member (8.7.1).
pub fn get_member<'p>(
    state: &mut State<'p>,
    noted: Noted,
    base: Value,
    name: Text,
) -> Result<Act<'p>, NoMemory>
    ensures refines { Evaluates state.old (get_member (noting noted.emits) noted.id.id base name) result state.new }
    ensures bounded { RankAtMost state.old 14 result state.new }
{
    if noted.emits {
        get_and_emit(state, noted.id.first(), base, name)
    } else {
        get(state, &base, &name)
    }
}

/// GetValue of a member, which a hook emits afterwards.
fn get_and_emit<'p>(
    state: &mut State<'p>,
    id: OpId,
    base: Value,
    name: Text,
) -> Result<Act<'p>, NoMemory>
    ensures refines { Evaluates state.old (get_member emits id.0 base name) result state.new }
    ensures bounded { RankAtMost state.old 14 result state.new }
{
    let alloc = state.alloc();
    let found = found_on(&state.store, &base, &name);
    state.push_value(ValueFrame::EmitGet {
        id,
        base: share(alloc, &base)?,
        name: name.share(alloc)?,
        found,
    })?;
    get(state, &base, &name)
}

/// The value of a member whose name has been found.
pub fn get_by_key<'p>(
    state: &mut State<'p>,
    noted: Noted,
    base: Value,
    name: Text,
) -> Result<Act<'p>, NoMemory>
    ensures refines { Uses state.old (MemberUse.Get noted base) name result state.new }
    ensures bounded { RankAtMost state.old 16 result state.new }
{
    get_member(state, noted, base, name)
}

/// o[k] (11.2.1).
pub fn read_member<'p>(state: &mut State<'p>, base: Value, key: Value) -> Result<Act<'p>, NoMemory>
    ensures refines { Evaluates state.old (read_member 0 base key) result state.new }
    ensures bounded { RankAtMost state.old 38 result state.new }
{
    let alloc = state.alloc();
    let noted = by_script();
    let found = quick_key(alloc, &base, &key)?;
    match found {
        Some(name) => get_member(state, noted, base, name),
        None => {
            let purpose = MemberUse::Get {
                noted,
                base: share(alloc, &base)?,
            };
            member_name(state, &base, key, purpose)
        }
    }
}

/// `o.k` goes on with o.
pub fn step_dot_base<'p>(
    state: &mut State<'p>,
    key: &'p Text,
    v: Value,
) -> Result<Act<'p>, NoMemory>
    ensures refines { Resumes state.old (ValueFrame.DotBase key.entry) v result state.new }
    ensures bounded { RankAtMost state.old 40 result state.new }
{
    let alloc = state.alloc();
    let name = key.share(alloc)?;
    if is_nothing(&v) {
        return read_member(state, v, Value::Text(name));
    }
    get_member(state, by_script(), v, name)
}

/// `o[k]` goes on with o.
pub fn step_index_base<'p>(
    state: &mut State<'p>,
    key: &'p Box<Expr>,
    here: Here,
    v: Value,
) -> Result<Act<'p>, NoMemory>
    ensures refines { Resumes state.old (ValueFrame.IndexBase key.entry here) v result state.new }
    ensures bounded { RankAtMost state.old 44 result state.new }
{
    let found = leaf_value(&*state, key, here)?;
    match found {
        Some(k) => {
            state.take_step();
            read_member(state, v, k)
        }
        None => state.evaluate(ValueFrame::IndexKey { base: v }, key, here),
    }
}

/// `o[k]` goes on with k.
pub fn step_index_key<'p>(state: &mut State<'p>, base: Value, v: Value) -> Result<Act<'p>, NoMemory>
    ensures refines { Resumes state.old (ValueFrame.IndexKey base) v result state.new }
    ensures bounded { RankAtMost state.old 40 result state.new }
{
    read_member(state, base, v)
}
