//! Values that lie in boxes.
ghost use Rattle.std.specs.Prelude.{◌≡◌, IfOk};

use jl_text::NoMemory;
use std::alloc::Global;
use std::marker::Model;

/// A value that lies in a box, so that what holds it stays small. Contracts see the value.
#[derive(Drop)]
pub struct Boxed<T> {
    inside: Box<T>,
}

impl<T> Model for Boxed<T> {
    ghost Value = { T };

    ghost coded = { T.code };

    ghost view = { λ b. b.inside.value };
}

impl<T: Drop> Boxed<T> {
    /// This value, in a box.
    pub fn of(alloc: Global, value: T) -> Result<Boxed<T>, NoMemory>
        ensures { IfOk result (λ boxed. boxed ≡ value) }
    {
        Ok(Boxed {
            inside: Box::new(alloc, value)?,
        })
    }
}

impl<T> Boxed<T> {
    ghost use Rattle.std.specs.Borrow.{sem};
    ghost use Rattle.jl_state.specs.Lending.{LendsValue};

    /// The value, to be read.
    pub fn get(&self) -> &T
        ensures { result.now ≡ self.now }
    {
        &*self.inside
    }

    /// The value, to be changed in place.
    pub fn get_mut(&mut self) -> &mut T
        ensures* comes_back { sem 𝓛 (LendsValue T.row self.entry result) }
        ensures value { result.now ≡ self.old }
    {
        &mut *self.inside
    }

    /// The value, out of its box.
    pub fn into_inner(self) -> T
        ensures { result ≡ self }
    {
        Box::into_inner(self.inside)
    }
}
