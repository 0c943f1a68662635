// Facts of operations, as the line of an operation has them.
ghost use Rattle.std.specs.Prelude.{◌≡◌, ◌<◌, ◌^◌, ℕ, List, [], ◌∷◌, true, IfOk, OnOk, MatchOption};
ghost use Rattle.std.specs.Fmt.{decimal};
ghost use Rattle.std.specs.List.{AllByRecursion};
ghost use Rattle.jl_record.specs.Bounded.{Appends};
ghost use Rattle.jl_record.specs.Facts.{a_truth, a_number, a_count, an_object, a_text, a_value, a_found};
ghost use Rattle.jl_record.specs.Facts.{a_callee, a_binary, a_unary, some_values, IsFact, mark};
ghost use Rattle.jl_record.specs.Parts.{is_at_end};
ghost use Rattle.jl_record.specs.Reading.{IsFirst, NoneIsFirst, IsKnown, AreOf, AreOfNone, after_space};
ghost use Rattle.jl_record.specs.Storing.{HasItsClass, values_in};
ghost use Rattle.jl_value.specs.declared.value.Seen.{Seen as OneSeen};

use crate::bounded::Bounded;
use crate::cuts::after_space;
use crate::facts::{count_front, found_front, name_front, object_front, small_front, truth_front};
use crate::named::Named;
use crate::signs::{binary_front, callee_front, unary_front};
use crate::value_lists::values_front;
use crate::values::value_front;
use crate::written::{write_callee, write_name, write_truth, write_value, write_values};
use jl_ast::BinOp;
use jl_op::{Callee, Found, UnKind};
use jl_text::{List as Items, Text};
use jl_value::{ObjId, Seen};
use std::alloc::{AllocError, Global};

/// A fact of an operation.
pub(crate) trait Fact: Sized + Drop {
    /// It is one that a stored run may have.
    ghost is: { Self → Type 0 };

    /// How it is written.
    ghost written: { Self → List ℕ };

    /// The values in it.
    ghost values: { Self → List OneSeen } = { λ _. [] };

    /// The fact that comes first, and what follows it.
    fn front(alloc: Global, units: &[u16]) -> Result<Option<(Self, &[u16])>, AllocError>
        ensures { IfOk result (λ found. MatchOption found (NoneIsFirst is written units.now)
            (λ x. IsFirst is written units.now x.0 x.1.now)) };

    /// What begins with a fact, and ends a part behind it, begins with no other.
    fn known()
        ensures { IsKnown is written };

    /// Appends the fact as it is written. A stored run may have it, if each value in it has its class.
    fn write(&self, alloc: Global, text: &mut Bounded) -> Result<(), AllocError>
        ensures limit { text.new.limit ≡ text.old.limit }
        ensures holds { OnOk result (Appends text.old text.new (written self.now)) }
        ensures fact { OnOk result (AllByRecursion HasItsClass (values self.now) → is self.now) };
}

impl Fact for bool {
    ghost is = { IsFact a_truth };

    ghost written = { mark a_truth };

    fn front(_alloc: Global, units: &[u16]) -> Result<Option<(bool, &[u16])>, AllocError> {
        Ok(truth_front(units))
    }

    fn known() {}

    fn write(&self, _alloc: Global, text: &mut Bounded) -> Result<(), AllocError> {
        write_truth(text, *self)
    }
}

impl Fact for u32 {
    ghost is = { IsFact a_number };

    ghost written = { mark a_number };

    fn front(_alloc: Global, units: &[u16]) -> Result<Option<(u32, &[u16])>, AllocError> {
        Ok(small_front(units))
    }

    fn known() {}

    fn write(&self, _alloc: Global, text: &mut Bounded) -> Result<(), AllocError> {
        text.number(u64::from(*self))
    }
}

impl Fact for Seen {
    ghost is = { IsFact a_value };

    ghost written = { mark a_value };

    ghost values = { values_in a_value };

    fn front(alloc: Global, units: &[u16]) -> Result<Option<(Seen, &[u16])>, AllocError> {
        value_front(alloc, units)
    }

    fn known() {}

    fn write(&self, alloc: Global, text: &mut Bounded) -> Result<(), AllocError> {
        write_value(alloc, text, self)
    }
}

impl Fact for Text {
    ghost is = { IsFact a_text };

    ghost written = { mark a_text };

    fn front(alloc: Global, units: &[u16]) -> Result<Option<(Text, &[u16])>, AllocError> {
        name_front(alloc, units)
    }

    fn known() {}

    fn write(&self, alloc: Global, text: &mut Bounded) -> Result<(), AllocError> {
        text.quoted(alloc, self.units())
    }
}

impl Fact for u64 {
    ghost is = { IsFact a_count };

    ghost written = { mark a_count };

    fn front(_alloc: Global, units: &[u16]) -> Result<Option<(u64, &[u16])>, AllocError> {
        Ok(count_front(units))
    }

    fn known() {}

    fn write(&self, _alloc: Global, text: &mut Bounded) -> Result<(), AllocError> {
        text.number(*self)
    }
}

impl Fact for ObjId {
    ghost is = { IsFact an_object };

    ghost written = { mark an_object };

    fn front(_alloc: Global, units: &[u16]) -> Result<Option<(ObjId, &[u16])>, AllocError> {
        Ok(object_front(units))
    }

    fn known() {}

    fn write(&self, _alloc: Global, text: &mut Bounded) -> Result<(), AllocError> {
        text.number(self.0 as u64)
    }
}

impl Fact for Found {
    ghost is = { IsFact a_found };

    ghost written = { mark a_found };

    fn front(_alloc: Global, units: &[u16]) -> Result<Option<(Found, &[u16])>, AllocError> {
        Ok(found_front(units))
    }

    fn known() {}

    fn write(&self, _alloc: Global, text: &mut Bounded) -> Result<(), AllocError> {
        text.word(self.spelling())
    }
}

impl Fact for Callee {
    ghost is = { IsFact a_callee };

    ghost written = { mark a_callee };

    fn front(alloc: Global, units: &[u16]) -> Result<Option<(Callee, &[u16])>, AllocError> {
        callee_front(alloc, units)
    }

    fn known() {}

    fn write(&self, alloc: Global, text: &mut Bounded) -> Result<(), AllocError> {
        write_callee(alloc, text, *self)
    }
}

impl Fact for BinOp {
    ghost is = { IsFact a_binary };

    ghost written = { mark a_binary };

    fn front(alloc: Global, units: &[u16]) -> Result<Option<(BinOp, &[u16])>, AllocError> {
        binary_front(alloc, units)
    }

    fn known() {}

    fn write(&self, alloc: Global, text: &mut Bounded) -> Result<(), AllocError> {
        write_name(alloc, text, self.spelling())
    }
}

impl Fact for UnKind {
    ghost is = { IsFact a_unary };

    ghost written = { mark a_unary };

    fn front(alloc: Global, units: &[u16]) -> Result<Option<(UnKind, &[u16])>, AllocError> {
        unary_front(alloc, units)
    }

    fn known() {}

    fn write(&self, alloc: Global, text: &mut Bounded) -> Result<(), AllocError> {
        write_name(alloc, text, self.spelling())
    }
}

impl Fact for Items<Seen> {
    ghost is = { IsFact some_values };

    ghost written = { mark some_values };

    ghost values = { values_in some_values };

    fn front(alloc: Global, units: &[u16]) -> Result<Option<(Items<Seen>, &[u16])>, AllocError> {
        values_front(alloc, units)
    }

    fn known() {}

    fn write(&self, alloc: Global, text: &mut Bounded) -> Result<(), AllocError> {
        write_values(alloc, text, self.items())
    }
}

/// Facts one after another, each after a space.
pub(crate) trait Facts: Sized + Drop {
    /// They are facts that a stored run may have.
    ghost are: { Self → Type 0 };

    /// How they are written.
    ghost written: { Self → List ℕ };

    /// The facts that the units are.
    fn read(alloc: Global, units: &[u16]) -> Result<Option<Self>, AllocError>
        ensures { IfOk result (λ found. MatchOption found (AreOfNone are written units.now)
            (AreOf are written units.now)) };

    /// A part ends before them.
    fn ended()
        ensures { (facts : Self) → is_at_end (written facts) ≡ true };
}

impl Facts for () {
    ghost are = { λ _. Unit {0} };

    ghost written = { λ _. [] };

    fn read(_alloc: Global, units: &[u16]) -> Result<Option<()>, AllocError> {
        if units.is_empty() {
            Ok(Some(()))
        } else {
            Ok(None)
        }
    }

    fn ended() {}
}

impl<A: Fact, B: Facts> Facts for (A, B) {
    ghost are = { λ facts. A.is facts.0 × B.are facts.1 };

    ghost written = { λ facts. after_space (A.written facts.0) (B.written facts.1) };

    fn read(alloc: Global, units: &[u16]) -> Result<Option<(A, B)>, AllocError> {
        let Some(rest) = after_space(units) else {
            return Ok(None);
        };
        A::known();
        B::ended();
        let Some((fact, rest)) = A::front(alloc, rest)? else {
            return Ok(None);
        };
        let Some(others) = B::read(alloc, rest)? else {
            return Ok(None);
        };
        Ok(Some((fact, others)))
    }

    fn ended() {}
}
