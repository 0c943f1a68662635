//! Objects sealed, frozen, and closed to more properties (15.2.3.8 to 15.2.3.13).
ghost use Rattle.std.specs.Option.{option_map_or};
ghost use Rattle.std.specs.Prelude.{◌≡◌, ◌&&◌, drop, not, true};
ghost use Rattle.jl_effects.specs.Effects.{Step};
ghost use Rattle.jl_heap.specs.Define.{IsOneKind};
ghost use Rattle.jl_lib_object.specs.inner.Parts.{restrict_and_give, stays_writable, test_and_give, test_one};
ghost use Rattle.jl_meaning.specs.Parts.{give, ◌>>=◌ as ◌then◌};
ghost use Rattle.jl_meaning.specs.Properties.{get_own_property};
ghost use Rattle.jl_meaning.specs.builtins.Descriptors.{change_of, own_names};
ghost use Rattle.jl_meaning.specs.builtins.Object.{are_all, object_is_extensible, object_prevent_extensions};
ghost use Rattle.jl_meaning.specs.builtins.Object.{redefine, redefine_all};
ghost use Rattle.jl_progress.specs.Objects.{is_restricted_property, restricted_property};
ghost use Rattle.jl_state.specs.Clauses.{Computes, RankAtMost};
ghost use Rattle.jl_state.specs.Words.{call_of};
ghost use Rattle.jl_store.specs.LookUps.{property_found};

use crate::describing::own_property;
use crate::own_names::{name_from, own_names};
use crate::waiting::{first_object, wait_object};
use jl_algorithm::define_own_property;
use jl_builtin::go_on;
use jl_heap::{Change, Prop};
use jl_progress::{Integrity, ObjectProgress, Progress};
use jl_state::{Act, AfterDefine, Invocation, State};
use jl_store::{Answer, Found, Store};
use jl_text::{List, NoMemory, Text};
use jl_value::{Completion, ObjId, Value};

/// Whether a property that can be written still can when it is sealed or frozen.
fn stays_writable(integrity: Integrity, writable: bool) -> bool
    ensures { result ≡ stays_writable integrity writable }
{
    match integrity {
        Integrity::Sealed => writable,
        Integrity::Frozen => false,
    }
}

/// What becomes of a property of an object that is sealed or frozen.
fn restricted_property(integrity: Integrity, property: Prop) -> Prop
    ensures { result ≡ restricted_property integrity property }
{
    match property {
        Prop::Plain {
            value,
            writable,
            enumerable,
            configurable: _,
        } => Prop::Plain {
            value,
            writable: stays_writable(integrity, writable),
            enumerable,
            configurable: false,
        },
        Prop::Accessor {
            get,
            set,
            enumerable,
            configurable: _,
        } => Prop::Accessor {
            get,
            set,
            enumerable,
            configurable: false,
        },
    }
}

/// A property as a change that gives all of it.
fn change_of(property: Prop) -> Change
    ensures value { result ≡ change_of property }
    ensures one_kind { IsOneKind result }
{
    match property {
        Prop::Plain {
            value,
            writable,
            enumerable,
            configurable,
        } => Change {
            value: Some(value),
            writable: Some(writable),
            get: None,
            set: None,
            enumerable: Some(enumerable),
            configurable: Some(configurable),
        },
        Prop::Accessor {
            get,
            set,
            enumerable,
            configurable,
        } => Change {
            value: None,
            writable: None,
            get: Some(get),
            set: Some(set),
            enumerable: Some(enumerable),
            configurable: Some(configurable),
        },
    }
}

/// A property of a name is sealed or frozen; one that is gone stays so.
fn redefine<'p>(
    state: &mut State<'p>,
    integrity: Integrity,
    object: ObjId,
    name: &Text,
) -> Result<Act<'p>, NoMemory>
    ensures refines { Computes state.old (redefine (restricted_property integrity) object name.now then λ _. give
        Value.Undefined) result state.new }
    ensures bounded { RankAtMost state.old 40 result state.new }
{
    let alloc = state.alloc();
    let Some(property) = own_property(alloc, &state.store, object, name)? else {
        return Ok(Act::Give(Value::Undefined));
    };
    let change = change_of(restricted_property(integrity, property));
    let purpose = AfterDefine::Builtin {
        gives: Value::Undefined,
    };
    define_own_property(state, object, name, change, purpose)
}

/// A turn takes a step, and a property is sealed or frozen; those of the names from an index on wait.
fn restrict_one<'p>(
    state: &mut State<'p>,
    integrity: Integrity,
    object: ObjId,
    name: &Text,
    names: List<Text>,
    from: usize,
) -> Result<Act<'p>, NoMemory>
    ensures refines { Computes state.old (Step (redefine (restricted_property integrity) object name.now then λ _.
        restrict_and_give integrity object (drop from names))) result state.new }
    ensures bounded { RankAtMost state.old 1 result state.new }
{
    if !state.spend() {
        return Ok(Act::Spent);
    }
    wait_object(
        state,
        ObjectProgress::Restrict {
            integrity,
            object,
            names,
            from,
        },
    )?;
    redefine(state, integrity, object, name)
}

/// The properties of the names from an index on are sealed or frozen, and no more may be added.
pub(crate) fn restrict_from<'p>(
    state: &mut State<'p>,
    integrity: Integrity,
    object: ObjId,
    names: List<Text>,
    from: usize,
) -> Result<Act<'p>, NoMemory>
    ensures refines { Computes state.old (restrict_and_give integrity object (drop from names)) result state.new }
    ensures bounded { RankAtMost state.old 3 result state.new }
{
    let alloc = state.alloc();
    match name_from(alloc, names.items(), from)? {
        None => {
            state.store.prevent_extensions(object);
            Ok(Act::Give(Value::Obj(object)))
        }
        Some((name, next)) => restrict_one(state, integrity, object, &name, names, next),
    }
}

/// All properties of an object are sealed or frozen.
fn restrict_all<'p>(
    state: &mut State<'p>,
    integrity: Integrity,
    object: ObjId,
) -> Result<Act<'p>, NoMemory>
    ensures refines { Computes state.old (restrict_and_give integrity object (own_names state.old.store object.0))
        result state.new }
    ensures bounded { RankAtMost state.old 3 result state.new }
{
    let alloc = state.alloc();
    let names = own_names(alloc, &state.store, object)?;
    restrict_from(state, integrity, object, names, 0)
}

/// `Object.seal(O)` and `Object.freeze(O)` (15.2.3.8, 15.2.3.9).
pub(crate) fn redefine_all<'p>(
    state: &mut State<'p>,
    integrity: Integrity,
    call: &Invocation,
) -> Result<Act<'p>, NoMemory>
    ensures refines { Computes state.old (redefine_all (restricted_property integrity) (call_of call.now)) result
        state.new }
    ensures bounded { RankAtMost state.old 3 result state.new }
{
    let alloc = state.alloc();
    match first_object(alloc, &mut state.store, call)? {
        Answer::Throws(thrown) => Ok(Act::Complete(Completion::Throw(thrown))),
        Answer::Gives(object) => restrict_all(state, integrity, object),
    }
}

/// Whether a property can neither be written nor configured.
fn is_fixed(writable: bool, configurable: bool) -> bool
    ensures { result ≡ (not writable && not configurable) }
{
    !writable && !configurable
}

/// Whether a property that was found is sealed or frozen.
fn is_restricted(integrity: Integrity, found: &Found<'_>) -> bool
    ensures { result ≡ is_restricted_property integrity (property_found found.now) }
{
    match integrity {
        Integrity::Sealed => !found.is_configurable(),
        Integrity::Frozen => is_fixed(found.is_writable(), found.is_configurable()),
    }
}

/// Whether an own property is sealed or frozen; one that is gone is.
fn is_kept(store: &Store, integrity: Integrity, object: ObjId, name: &Text) -> bool
    ensures { result ≡ option_map_or (is_restricted_property integrity)
        (get_own_property store.now object.0 name.now) true }
{
    match store.get_own_property(object, name) {
        Some(found) => is_restricted(integrity, &found),
        None => true,
    }
}

/// Whether all so far hold, and this one too.
fn both(holds: bool, next: bool) -> bool
    ensures { result ≡ (holds && next) }
{
    holds && next
}

/// A turn takes a step, and a property is tested; those of the names from an index on wait.
fn test_one<'p>(
    state: &mut State<'p>,
    integrity: Integrity,
    object: ObjId,
    holds: bool,
    name: &Text,
    names: List<Text>,
    from: usize,
) -> Result<Act<'p>, NoMemory>
    ensures refines { Computes state.old (Step (test_one integrity object holds name.now (drop from names))) result
        state.new }
    ensures bounded { RankAtMost state.old 1 result state.new }
{
    if !state.spend() {
        return Ok(Act::Spent);
    }
    let kept = is_kept(&state.store, integrity, object, name);
    let progress = ObjectProgress::Test {
        integrity,
        object,
        holds: both(holds, kept),
        names,
        from,
    };
    go_on(state, Progress::Object(progress))
}

/// The properties of the names from an index on are tested, and whether more may be added.
pub(crate) fn test_from<'p>(
    state: &mut State<'p>,
    integrity: Integrity,
    object: ObjId,
    holds: bool,
    names: List<Text>,
    from: usize,
) -> Result<Act<'p>, NoMemory>
    ensures refines { Computes state.old (test_and_give integrity object holds (drop from names)) result state.new }
    ensures bounded { RankAtMost state.old 3 result state.new }
{
    let alloc = state.alloc();
    match name_from(alloc, names.items(), from)? {
        None => {
            let closed = both(holds, !state.store.is_extensible(object));
            Ok(Act::Give(Value::Bool(closed)))
        }
        Some((name, next)) => test_one(state, integrity, object, holds, &name, names, next),
    }
}

/// All properties of an object are tested.
fn test_all<'p>(
    state: &mut State<'p>,
    integrity: Integrity,
    object: ObjId,
) -> Result<Act<'p>, NoMemory>
    ensures refines { Computes state.old (test_and_give integrity object true (own_names state.old.store object.0))
        result state.new }
    ensures bounded { RankAtMost state.old 3 result state.new }
{
    let alloc = state.alloc();
    let names = own_names(alloc, &state.store, object)?;
    test_from(state, integrity, object, true, names, 0)
}

/// `Object.isSealed(O)` and `Object.isFrozen(O)` (15.2.3.11, 15.2.3.12).
pub(crate) fn are_all<'p>(
    state: &mut State<'p>,
    integrity: Integrity,
    call: &Invocation,
) -> Result<Act<'p>, NoMemory>
    ensures refines { Computes state.old (are_all (is_restricted_property integrity) (call_of call.now)) result
        state.new }
    ensures bounded { RankAtMost state.old 3 result state.new }
{
    let alloc = state.alloc();
    match first_object(alloc, &mut state.store, call)? {
        Answer::Throws(thrown) => Ok(Act::Complete(Completion::Throw(thrown))),
        Answer::Gives(object) => test_all(state, integrity, object),
    }
}

/// `Object.preventExtensions(O)` (15.2.3.10).
pub(crate) fn object_prevent_extensions<'p>(
    state: &mut State<'p>,
    call: &Invocation,
) -> Result<Act<'p>, NoMemory>
    ensures refines { Computes state.old (object_prevent_extensions (call_of call.now)) result state.new }
    ensures bounded { RankAtMost state.old 3 result state.new }
{
    let alloc = state.alloc();
    match first_object(alloc, &mut state.store, call)? {
        Answer::Throws(thrown) => Ok(Act::Complete(Completion::Throw(thrown))),
        Answer::Gives(object) => {
            state.store.prevent_extensions(object);
            Ok(Act::Give(Value::Obj(object)))
        }
    }
}

/// `Object.isExtensible(O)` (15.2.3.13).
pub(crate) fn object_is_extensible<'p>(
    state: &mut State<'p>,
    call: &Invocation,
) -> Result<Act<'p>, NoMemory>
    ensures refines { Computes state.old (object_is_extensible (call_of call.now)) result state.new }
    ensures bounded { RankAtMost state.old 3 result state.new }
{
    let alloc = state.alloc();
    match first_object(alloc, &mut state.store, call)? {
        Answer::Throws(thrown) => Ok(Act::Complete(Completion::Throw(thrown))),
        Answer::Gives(object) => {
            let extensible = state.store.is_extensible(object);
            Ok(Act::Give(Value::Bool(extensible)))
        }
    }
}
