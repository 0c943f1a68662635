//! How builtins of objects and functions go on with the value that they waited for.
ghost use Rattle.std.specs.Prelude.{◌≡◌, ◌+◌};
ghost use Rattle.jl_progress.specs.Functions.{function_after, rank_function};
ghost use Rattle.jl_progress.specs.Objects.{object_after, rank_object};
ghost use Rattle.jl_state.specs.Clauses.{Computes, RankAtMost};

use crate::calling::{step_element, step_length, step_length_primitive};
use crate::defining::{define_from, step_defined_name, step_descriptor};
use crate::describing::step_described_name;
use crate::descriptors::step_field;
use crate::integrity::{restrict_from, test_from};
use crate::own_tests::step_own_name;
use jl_progress::{DescriptorUse, FunctionProgress, ObjectProgress};
use jl_state::{Act, State};
use jl_text::NoMemory;
use jl_value::Value;

/// Goes on with the value that a builtin of Object or its prototype waited for.
pub fn resume_object<'p>(
    state: &mut State<'p>,
    progress: ObjectProgress,
    v: Value,
) -> Result<Act<'p>, NoMemory>
    ensures refines { Computes state.old (object_after progress v) result state.new }
    ensures bounded { RankAtMost state.old (rank_object progress + 2) result state.new }
{
    match progress {
        ObjectProgress::DescribedName { object } => step_described_name(state, object, &v),
        ObjectProgress::DefinedName { object, descriptor } => {
            step_defined_name(state, object, &descriptor, &v)
        }
        ObjectProgress::Field {
            field,
            descriptor,
            change,
            purpose,
        } => step_field(state, field, descriptor, change, purpose, v),
        ObjectProgress::Descriptor {
            object,
            descriptors,
            changes,
            name,
            names,
            from,
        } => {
            let purpose = DescriptorUse::Next {
                object,
                descriptors,
                changes,
                name,
                names,
                from,
            };
            step_descriptor(state, purpose, &v)
        }
        ObjectProgress::Define {
            object,
            changes,
            from,
        } => define_from(state, object, changes, from),
        ObjectProgress::Restrict {
            integrity,
            object,
            names,
            from,
        } => restrict_from(state, integrity, object, names, from),
        ObjectProgress::Test {
            integrity,
            object,
            holds,
            names,
            from,
        } => test_from(state, integrity, object, holds, names, from),
        ObjectProgress::OwnName { test, this } => step_own_name(state, test, &this, &v),
    }
}

/// Goes on with the value that `Function.prototype.apply` waited for (15.3.4.3).
pub fn resume_function<'p>(
    state: &mut State<'p>,
    progress: FunctionProgress,
    v: Value,
) -> Result<Act<'p>, NoMemory>
    ensures refines { Computes state.old (function_after progress v) result state.new }
    ensures bounded { RankAtMost state.old (rank_function progress + 2) result state.new }
{
    match progress {
        FunctionProgress::Length {
            function,
            this,
            list,
        } => step_length(state, function, this, list, v),
        FunctionProgress::LengthPrimitive {
            function,
            this,
            list,
        } => step_length_primitive(state, function, this, list, &v),
        FunctionProgress::Element {
            function,
            this,
            list,
            args,
            from,
            length,
        } => step_element(state, function, this, list, args, from, length, v),
    }
}
