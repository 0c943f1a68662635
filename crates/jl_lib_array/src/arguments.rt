//! Arguments that may be missing.
ghost use Rattle.std.specs.Prelude.{◌≡◌, slice_get, IfOk};

use jl_text::{List, NoMemory};
use jl_value::{Value, share};
use std::alloc::Global;

/// The second argument, if it is given.
pub(crate) fn second(alloc: Global, args: &List<Value>) -> Result<Option<Value>, NoMemory>
    ensures { IfOk result (λ v. v ≡ slice_get args.now 1) }
{
    match args.items().get(1) {
        Some(v) => Ok(Some(share(alloc, v)?)),
        None => Ok(None),
    }
}
