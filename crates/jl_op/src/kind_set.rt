ghost use Rattle.std.specs.Prelude.{◌≡◌, ◌≢◌, ◌<◌, true, false};
ghost use Rattle.jl_op.specs.Kinds.{number_of};

use crate::kind::OpKind;

/// A set of kinds of operations.
#[derive(Clone, Copy)]
pub struct KindSet {
    members: [bool; 23],
}

impl KindSet {
    ghost use Rattle.jl_op.specs.declared.kind.OpKind.{OpKind as Kind};
    ghost use Rattle.jl_op.specs.KindSets.{is_member};

    /// The set of all kinds.
    pub fn all() -> KindSet
        ensures { (kind : Kind) → is_member result kind ≡ true }
    {
        KindSet {
            members: [true; 23],
        }
    }

    /// The empty set.
    pub fn none() -> KindSet
        ensures { (kind : Kind) → is_member result kind ≡ false }
    {
        KindSet {
            members: [false; 23],
        }
    }

    /// This set with one more kind. A kind that was in it stays so.
    pub fn with(self, kind: OpKind) -> KindSet
        ensures added { is_member result kind ≡ true }
        ensures others { (other : Kind) → other ≢ kind → is_member result other ≡ is_member self other }
    {
        let mut members = self.members;
        members[index(kind)] = true;
        KindSet { members }
    }

    /// Whether the kind is in the set.
    pub fn has(self, kind: OpKind) -> bool
        ensures { result ≡ is_member self kind }
    {
        self.members[index(kind)]
    }
}

/// The index of a kind in the list of all kinds.
fn index(kind: OpKind) -> usize
    ensures number { result ≡ number_of kind }
    ensures within { result < 23 }
{
    kind as usize
}
