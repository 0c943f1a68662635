//! Object literals (11.1.5).
ghost use Rattle.std.specs.Prelude.{◌+◌, ◌*◌, ◌≡◌, length, None, Some};
ghost use Rattle.jl_ast.specs.View.{view_entries, view_entry, view_expression};
ghost use Rattle.jl_heap.specs.Define.{IsOneKind};
ghost use Rattle.jl_meaning.specs.Defining.{plain_change};
ghost use Rattle.jl_meaning.specs.Expressions.{equip_one, evaluate};
ghost use Rattle.jl_meaning.specs.Parts.{lift, ◌>>=◌ as ◌then◌};
ghost use Rattle.jl_meaning.specs.forms.Literals.{accessor_change, define_entry, new_plain_object};
ghost use Rattle.jl_state.specs.Trees.{items_left, plain, plain_forest};
ghost use Rattle.jl_state.specs.Words.{context_of, table_of};
ghost use Rattle.jl_literal.specs.Filling.{object_from};
ghost use Rattle.jl_state.specs.Clauses.{Evaluates, RankAtMost, Resumes};

use crate::literals::give_object;
use jl_algorithm::{define_own_property, leaf_value, plain_change};
use jl_ast::{Entry, Expr};
use jl_heap::Change;
use jl_state::{Act, AfterDefine, Here, Remaining, State, ValueFrame, split_first};
use jl_text::{List, NoMemory, Text};
use jl_value::{ObjId, Value};

/// An object literal (11.1.5).
pub fn begin_object<'p>(
    state: &mut State<'p>,
    entries: &'p List<Entry>,
    here: Here,
) -> Result<Act<'p>, NoMemory>
    ensures refines { Evaluates state.old (lift new_plain_object then λ object. object_from (table_of
        state.old.functions) (plain_forest (view_entries entries.now)) object (context_of state.old.calls here))
        result state.new }
    ensures bounded { RankAtMost state.old (60 * length entries.now + 62) result state.new }
{
    let object = state.store.new_plain_object()?;
    let rest = Remaining {
        list: entries,
        from: 0,
    };
    equip(state, object, rest, here)
}

/// An object literal goes on with the value of a property.
#[tactic(auto, using(crate::proofs::Lengths::one_kind_accessor, jl_store::proofs::PropertyChanges::one_kind_plain))]
pub fn step_entry_value<'p>(
    state: &mut State<'p>,
    object: ObjId,
    key: &'p Text,
    rest: Remaining<'p, Entry>,
    here: Here,
    v: Value,
) -> Result<Act<'p>, NoMemory>
    ensures refines { Resumes state.old (ValueFrame.EntryValue object key.entry rest.entry here) v result state.new }
    ensures bounded { RankAtMost state.old (60 * length (items_left rest.entry) + 112) result state.new }
{
    let change = plain_change(v);
    define_entry(state, object, key, change, rest, here)
}

/// An object literal goes on when a property has been defined.
pub fn step_entries<'p>(
    state: &mut State<'p>,
    object: ObjId,
    rest: Remaining<'p, Entry>,
    here: Here,
    v: Value,
) -> Result<Act<'p>, NoMemory>
    ensures refines { Resumes state.old (ValueFrame.Entries object rest.entry here) v result state.new }
    ensures bounded { RankAtMost state.old (60 * length (items_left rest.entry) + 62) result state.new }
{
    equip(state, object, rest, here)
}

/// The properties that are left.
fn equip<'p>(
    state: &mut State<'p>,
    object: ObjId,
    rest: Remaining<'p, Entry>,
    here: Here,
) -> Result<Act<'p>, NoMemory>
    ensures refines { Evaluates state.old (object_from (table_of state.old.functions) (plain_forest (view_entries
        (items_left rest.entry))) object (context_of state.old.calls here)) result state.new }
    ensures bounded { RankAtMost state.old (60 * length (items_left rest.entry) + 62) result state.new }
{
    match split_first(rest) {
        None => Ok(give_object(&state.store, object)),
        Some((entry, others)) => equip_one(state, object, entry, others, here),
    }
}

/// One property, and then those that are left.
#[tactic(auto, using(crate::proofs::Lengths::one_kind_accessor, jl_store::proofs::PropertyChanges::one_kind_plain))]
fn equip_one<'p>(
    state: &mut State<'p>,
    object: ObjId,
    entry: &'p Entry,
    rest: Remaining<'p, Entry>,
    here: Here,
) -> Result<Act<'p>, NoMemory>
    ensures refines { Evaluates state.old (equip_one (table_of state.old.functions) (plain (view_entry entry.now))
        object (context_of state.old.calls here) then λ _. object_from (table_of state.old.functions) (plain_forest
        (view_entries (items_left rest.entry))) object (context_of state.old.calls here)) result state.new }
    ensures bounded { RankAtMost state.old (60 * length (items_left rest.entry) + 112) result state.new }
{
    match entry {
        Entry::Value(key, e) => equip_value(state, object, &key.text, e, rest, here),
        Entry::Get(key, function) => {
            let getter = state.store.make_function(here.strict, here.env, function)?;
            let change = accessor_change(Some(Some(getter)), None);
            define_entry(state, object, &key.text, change, rest, here)
        }
        Entry::Set(key, function) => {
            let setter = state.store.make_function(here.strict, here.env, function)?;
            let change = accessor_change(None, Some(Some(setter)));
            define_entry(state, object, &key.text, change, rest, here)
        }
    }
}

/// A property with a value, and then those that are left.
#[tactic(auto, using(jl_store::proofs::PropertyChanges::one_kind_plain))]
fn equip_value<'p>(
    state: &mut State<'p>,
    object: ObjId,
    key: &'p Text,
    e: &'p Expr,
    rest: Remaining<'p, Entry>,
    here: Here,
) -> Result<Act<'p>, NoMemory>
    ensures refines { Evaluates state.old (evaluate (table_of state.old.functions) (plain (view_expression e.now))
        (context_of state.old.calls here) then λ v. (define_entry object key.now (plain_change v) then λ _. object_from
        (table_of state.old.functions) (plain_forest (view_entries (items_left rest.entry))) object (context_of
        state.old.calls here))) result state.new }
    ensures bounded { RankAtMost state.old (60 * length (items_left rest.entry) + 112) result state.new }
{
    let found = leaf_value(&*state, e, here)?;
    match found {
        Some(v) => {
            state.take_step();
            let change = plain_change(v);
            define_entry(state, object, key, change, rest, here)
        }
        None => {
            let frame = ValueFrame::EntryValue {
                object,
                key,
                rest,
                here,
            };
            state.evaluate(frame, e, here)
        }
    }
}

/// A property is defined, and then those that are left.
fn define_entry<'p>(
    state: &mut State<'p>,
    object: ObjId,
    key: &'p Text,
    change: Change,
    rest: Remaining<'p, Entry>,
    here: Here,
) -> Result<Act<'p>, NoMemory>
    requires { IsOneKind change }
    ensures refines { Evaluates state.old (define_entry object key.now change then λ _. object_from (table_of
        state.old.functions) (plain_forest (view_entries (items_left rest.entry))) object (context_of
        state.old.calls here)) result state.new }
    ensures bounded { RankAtMost state.old (60 * length (items_left rest.entry) + 112) result state.new }
{
    state.push_value(ValueFrame::Entries { object, rest, here })?;
    define_own_property(state, object, key, change, AfterDefine::Literal)
}

/// A getter or a setter is asked for (11.1.5).
fn accessor_change(get: Option<Option<ObjId>>, set: Option<Option<ObjId>>) -> Change
    ensures { result ≡ accessor_change get set }
{
    Change {
        value: None,
        writable: None,
        get,
        set,
        enumerable: Some(true),
        configurable: Some(true),
    }
}
