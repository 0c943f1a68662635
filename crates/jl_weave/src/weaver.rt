//! What is woven: which kinds of operations are told of.
ghost use Rattle.std.specs.Prelude.{◌≡◌};
ghost use Rattle.jl_op.specs.KindSets.{is_member};

use jl_op::{KindSet, OpKind};
use std::alloc::Global;

/// Weaves parts of a script, and tells of operations of some kinds.
#[derive(Clone, Copy)]
pub struct Weaver {
    pub alloc: Global,
    pub kinds: KindSet,
}

impl Weaver {
    /// Whether operations of this kind are told of.
    pub fn tells(&self, kind: OpKind) -> bool
        ensures { result ≡ is_member self.now.kinds kind }
    {
        self.kinds.has(kind)
    }
}
