use crate::inner::Inner;
use std::marker::Model;

/// What an object that isn't there holds, to be lent: nothing.
#[derive(Drop)]
pub(crate) struct Absent {
    inner: Inner,
}

impl Model for Absent {
    ghost use Rattle.std.specs.Prelude.{◌≡◌};
    ghost use Rattle.jl_heap.specs.declared.inner.Inner.{Inner};
    ghost use Rattle.jl_heap.specs.declared.inner.Inner.TheVariants.{Nothing};

    ghost Value = { Inner };

    ghost view = { λ a. a.inner };

    ghost invariant = { λ a. a.inner ≡ Nothing };
}

impl Absent {
    ghost use Rattle.std.specs.Prelude.{◌≡◌};

    pub(crate) fn new() -> Absent {
        Absent {
            inner: Inner::Nothing,
        }
    }

    pub(crate) fn inner(&self) -> &Inner
        ensures { result.now ≡ Inner.Nothing }
    {
        &self.inner
    }
}
