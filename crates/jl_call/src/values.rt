//! The values that a hook gets, of which there are as many as it looks at.
ghost use Rattle.std.specs.Prelude.{◌≡◌, IfOk};
ghost use Rattle.jl_meaning.specs.forms.Hooks.{first_of, second_of};

use jl_text::{List, NoMemory};
use jl_value::{Value, share};
use std::alloc::Global;

/// The first of these values, or undefined where there is none.
pub(crate) fn first_of(alloc: Global, values: &List<Value>) -> Result<Value, NoMemory>
    ensures { IfOk result (λ v. v ≡ first_of values.now) }
{
    match values.items().first() {
        Some(value) => share(alloc, value),
        None => Ok(Value::Undefined),
    }
}

/// The second of these values, or undefined where there is none.
#[tactic(auto, using(crate::proofs::Seconds::seconds))]
pub(crate) fn second_of(alloc: Global, values: &List<Value>) -> Result<Value, NoMemory>
    ensures { IfOk result (λ v. v ≡ second_of values.now) }
{
    match values.items().get(1) {
        Some(value) => share(alloc, value),
        None => Ok(Value::Undefined),
    }
}
