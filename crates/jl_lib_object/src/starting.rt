//! The builtins of objects and functions.
ghost use Rattle.jl_meaning.specs.builtins.Function.{function_algorithm, names_of};
ghost use Rattle.jl_meaning.specs.builtins.Object.{object_algorithm};
ghost use Rattle.jl_state.specs.Clauses.{Computes, RankAtMost};
ghost use Rattle.jl_state.specs.Words.{call_of, table_of};

use crate::binding::function_bind;
use crate::calling::{function_apply, function_call};
use crate::defining::{object_create, object_define_properties, object_define_property};
use crate::describing::object_get_own_property_descriptor;
use crate::function_text::function_to_string;
use crate::integrity::{are_all, object_is_extensible, object_prevent_extensions, redefine_all};
use crate::objects::{
    object_call, object_get_prototype_of, object_is_prototype_of, object_to_string, object_value_of,
};
use crate::own_names::{object_get_own_property_names, object_keys};
use crate::own_tests::this_has;
use jl_algorithm::throw_native;
use jl_builtin::unsupported;
use jl_progress::{Integrity, OwnTest};
use jl_state::{Act, Invocation, State};
use jl_text::NoMemory;
use jl_value::{Builtin, ErrorKind, Fault, FunctionBuiltin, ObjectBuiltin, Value};

/// Begins a builtin of Object or its prototype with a call that it borrows.
fn begin_object<'p>(
    state: &mut State<'p>,
    builtin: ObjectBuiltin,
    call: &Invocation,
) -> Result<Act<'p>, NoMemory>
    ensures refines { Computes state.old (object_algorithm builtin (call_of call.now)) result state.new }
    ensures bounded { RankAtMost state.old 96 result state.new }
{
    match builtin {
        ObjectBuiltin::Constructor => object_call(state, call),
        ObjectBuiltin::GetPrototypeOf => object_get_prototype_of(state, call),
        ObjectBuiltin::GetOwnPropertyDescriptor => object_get_own_property_descriptor(state, call),
        ObjectBuiltin::GetOwnPropertyNames => object_get_own_property_names(state, call),
        ObjectBuiltin::Create => object_create(state, call),
        ObjectBuiltin::DefineProperty => object_define_property(state, call),
        ObjectBuiltin::DefineProperties => object_define_properties(state, call),
        ObjectBuiltin::Seal => redefine_all(state, Integrity::Sealed, call),
        ObjectBuiltin::Freeze => redefine_all(state, Integrity::Frozen, call),
        ObjectBuiltin::PreventExtensions => object_prevent_extensions(state, call),
        ObjectBuiltin::IsSealed => are_all(state, Integrity::Sealed, call),
        ObjectBuiltin::IsFrozen => are_all(state, Integrity::Frozen, call),
        ObjectBuiltin::IsExtensible => object_is_extensible(state, call),
        ObjectBuiltin::Keys => object_keys(state, call),
        ObjectBuiltin::ToString => object_to_string(state, call),
        ObjectBuiltin::ToLocaleString => Ok(unsupported(Builtin::Object(builtin))),
        ObjectBuiltin::ValueOf => object_value_of(state, call),
        ObjectBuiltin::HasOwnProperty => this_has(state, OwnTest::IsThere, call),
        ObjectBuiltin::IsPrototypeOf => object_is_prototype_of(state, call),
        ObjectBuiltin::PropertyIsEnumerable => this_has(state, OwnTest::IsEnumerable, call),
    }
}

/// Begins a builtin of Object or its prototype.
pub fn start_object<'p>(
    state: &mut State<'p>,
    builtin: ObjectBuiltin,
    call: Invocation,
) -> Result<Act<'p>, NoMemory>
    ensures refines { Computes state.old (object_algorithm builtin (call_of call)) result state.new }
    ensures bounded { RankAtMost state.old 400 result state.new }
{
    begin_object(state, builtin, &call)
}

/// Begins a builtin of functions with a call that it borrows.
fn begin_function<'p>(
    state: &mut State<'p>,
    builtin: FunctionBuiltin,
    call: &Invocation,
) -> Result<Act<'p>, NoMemory>
    ensures refines { Computes state.old (function_algorithm (names_of (table_of state.old.functions)) builtin (call_of
        call.now)) result state.new }
    ensures bounded { RankAtMost state.old 96 result state.new }
{
    match builtin {
        FunctionBuiltin::Constructor => Ok(Act::Fault(Fault::CodeFromText)),
        FunctionBuiltin::Prototype => Ok(Act::Give(Value::Undefined)),
        FunctionBuiltin::ToString => function_to_string(state, call),
        FunctionBuiltin::Apply => function_apply(state, call),
        FunctionBuiltin::Call => function_call(state, call),
        FunctionBuiltin::Bind => function_bind(state, call),
        FunctionBuiltin::Bound => Ok(unsupported(Builtin::BOUND)),
        FunctionBuiltin::Thrower => throw_native(state, ErrorKind::TypeError, "forbidden"),
    }
}

/// Begins a builtin of functions: of Function, its prototype, or the one that throws a TypeError (13.2.3).
pub fn start_function<'p>(
    state: &mut State<'p>,
    builtin: FunctionBuiltin,
    call: Invocation,
) -> Result<Act<'p>, NoMemory>
    ensures refines { Computes state.old (function_algorithm (names_of (table_of state.old.functions)) builtin (call_of
        call)) result state.new }
    ensures bounded { RankAtMost state.old 400 result state.new }
{
    begin_function(state, builtin, &call)
}
