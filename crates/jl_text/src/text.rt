ghost use Rattle.std.specs.Prelude.{◌≡◌, ◌+◌, ◌≤◌, ◌<◌, ◌↔◌, ◌++◌, length, slice_range, IfOk, IsErrOf};
ghost use Rattle.jl_text.specs.inner.Held.{units_held, IsKept};
ghost use Rattle.std.specs.Cmp.Lexicographic.{slice_cmp};
ghost use Rattle.std.specs.Ordering.{nat_cmp};
ghost use Rattle.std.specs.Cmp;
ghost use Rattle.std.specs.Cmp.Lexicographic.{pointwise, nat_list_eq_equiv, nat_list_cmp_total, texts_ties, texts_po};
ghost use Rattle.jl_text.specs.Limits.{most_units};
ghost use Rattle.jl_text.specs.declared.text.TextFault.TheVariants.{NoMemory};
ghost use Rattle.std.specs.Hash as fed;
ghost use Rattle.jl_text.specs.Fed.{fed_units, four_units};
ghost use Rattle.jl_text.specs.Search.{first_place, last_place, IsFirstPlace, IsLastPlace};

use crate::search::{first_place, last_place};
use std::alloc::{AllocError, AllocFailed, Global};
use std::cmp::Ordering;
use std::hash::{Hash, Hasher};
use std::marker::Model;
use std::rc::Rc;
use thiserror::Error;

/// The greatest number of UTF-16 units in a `Text`.
pub const MOST_UNITS: usize = 1_048_576;

/// The most units that lie beside the count of a text's owners, and take no list of their own.
pub(crate) const FEW: usize = 11;

/// The first `count` of these units.
#[derive(Drop)]
struct FewUnits {
    count: u8,
    units: [u16; FEW],
}

/// Where the units of a text lie.
#[derive(Drop)]
enum Units {
    Few(FewUnits),
    Many(Vec<u16>),
}

/// A shared list of at most `MOST_UNITS` UTF-16 units. Contracts see it as that list.
#[derive(Drop)]
pub struct Text {
    units: Rc<Units>,
}

impl Model for Text {
    ghost use Rattle.std.specs.Prelude.{List, ℕ};
    ghost use Rattle.jl_text.specs.inner.Held.{units_held, IsKept};

    ghost Value = { List ℕ };

    ghost view = { λ t. units_held t.units.value };

    ghost invariant = { λ t. IsKept t.units.value };
}

/// Why no text was made.
#[derive(Debug, Drop, Error)]
pub enum TextFault {
    /// The text would have more than `MOST_UNITS` units.
    #[error("a text of more than 1,048,576 units")]
    TooLong,
    /// No memory was left.
    #[error("out of memory")]
    NoMemory,
}

impl From<AllocError> for TextFault {
    ghost from_gives = { λ _ e. e ≡ NoMemory };

    fn from(_error: AllocError) -> TextFault {
        TextFault::NoMemory
    }
}

impl<T: Drop> From<AllocFailed<T>> for TextFault {
    ghost from_gives = { λ _ e. e ≡ NoMemory };

    fn from(_error: AllocFailed<T>) -> TextFault {
        TextFault::NoMemory
    }
}

impl Text {
    /// The text of these units, if they are no more than `MOST_UNITS`.
    pub fn from_units(alloc: Global, units: &[u16]) -> Result<Text, TextFault>
        ensures made { IfOk result (λ t. t ≡ units.now) }
        ensures long { IsErrOf result TextFault.TooLong ↔ (1048577 ≤ length units.now) }
    {
        if units.len() > MOST_UNITS {
            return Err(TextFault::TooLong);
        }
        Ok(of_units(alloc, units)?)
    }

    /// The units of `a` and then those of `b`, if they are no more than `MOST_UNITS` together.
    pub fn concat(alloc: Global, a: &Text, b: &Text) -> Result<Text, TextFault>
        ensures made { IfOk result (λ t. t ≡ a.now ++ b.now) }
        ensures long { IsErrOf result TextFault.TooLong ↔ (1048577 ≤ length (a.now ++ b.now)) }
    {
        let front = a.units();
        let back = b.units();
        if front.len() + back.len() > MOST_UNITS {
            return Err(TextFault::TooLong);
        }
        if front.len() + back.len() <= FEW {
            return Ok(few_of_both(alloc, front, back)?);
        }
        let mut units = Vec::with_capacity(alloc, front.len() + back.len())?;
        units.extend_from_slice(front)?;
        units.extend_from_slice(back)?;
        Ok(shared(alloc, Units::Many(units))?)
    }

    /// The units, at most `MOST_UNITS`.
    pub fn units(&self) -> &[u16]
        ensures same { result.now ≡ self.now }
        ensures short { length self.now ≤ most_units }
    {
        match &*self.units {
            Units::Few(few) => &few.units[..usize::from(few.count)],
            Units::Many(units) => units.as_slice(),
        }
    }

    /// The same text. It takes no memory for units but where no further owner of them can be counted: there they are
    /// copied.
    pub fn share(&self, alloc: Global) -> Result<Text, AllocError>
        ensures { IfOk result (λ t. t ≡ self.now) }
    {
        if let Ok(units) = self.units.clone() {
            return Ok(Text { units });
        }
        of_units(alloc, self.units())
    }

    /// The units from the place `from` to the one before `to`.
    pub fn slice(&self, alloc: Global, from: usize, to: usize) -> Result<Text, AllocError>
        requires ordered { from ≤ to }
        requires within { to ≤ length self.now }
        ensures { IfOk result (λ t. t ≡ slice_range self.now from to) }
    {
        of_units(alloc, &self.units()[from..to])
    }

    /// The least place at or after `from` at which `part` stands, in time linear in both lengths and in no memory.
    pub fn find(&self, part: &Text, from: usize) -> Option<usize>
        ensures value { result ≡ first_place self.now part.now from }
        ensures least { IsFirstPlace self.now part.now from result }
    {
        first_place(self.units(), part.units(), from)
    }

    /// The greatest place at or before `from` at which `part` stands, in time linear in both lengths and in no memory.
    pub fn find_last(&self, part: &Text, from: usize) -> Option<usize>
        ensures value { result ≡ last_place self.now part.now from }
        ensures greatest { IsLastPlace self.now part.now from result }
    {
        last_place(self.units(), part.units(), from)
    }

    /// The order of two texts as strings are compared (11.8.5): by the first unit in which they differ, and where one
    /// is the front of the other, the shorter one first.
    pub fn compare(a: &Text, b: &Text) -> Ordering
        ensures { result ≡ slice_cmp nat_cmp a.now b.now }
    {
        a.units().cmp(&b.units())
    }
}

/// The text of these units.
fn of_units(alloc: Global, units: &[u16]) -> Result<Text, AllocError>
    requires { length units.now ≤ most_units }
    ensures { IfOk result (λ t. t ≡ units.now) }
{
    if units.len() <= FEW {
        return few(alloc, units);
    }
    let units = Vec::from_slice(alloc, units)?;
    shared(alloc, Units::Many(units))
}

/// The text of few units.
pub(crate) fn few(alloc: Global, units: &[u16]) -> Result<Text, AllocError>
    requires { length units.now ≤ 11 }
    ensures { IfOk result (λ t. t ≡ units.now) }
{
    let mut all = [0; FEW];
    all[..units.len()].copy_from_slice(units);
    let count = units.len() as u8;
    shared(alloc, Units::Few(FewUnits { count, units: all }))
}

/// The text of the units of both lists, few together.
fn few_of_both(alloc: Global, front: &[u16], back: &[u16]) -> Result<Text, AllocError>
    requires { length front.now + length back.now ≤ 11 }
    ensures { IfOk result (λ t. t ≡ front.now ++ back.now) }
{
    let count = front.len() + back.len();
    let mut all = [0; FEW];
    all[..front.len()].copy_from_slice(front);
    all[front.len()..count].copy_from_slice(back);
    let count = count as u8;
    shared(alloc, Units::Few(FewUnits { count, units: all }))
}

/// The text of units that it shares with its copies.
fn shared(alloc: Global, units: Units) -> Result<Text, AllocError>
    requires { IsKept units }
    ensures { IfOk result (λ t. t ≡ units_held units) }
{
    let units = Rc::new(alloc, units)?;
    Ok(Text { units })
}

/// Texts are equal where they have the same units.
impl PartialEq for Text {
    ghost use Rattle.std.specs.Prelude.{nat_eq};

    ghost eq = { pointwise nat_eq };

    ghost laws = { Cmp.partial_equiv_from_equiv nat_list_eq_equiv };

    fn eq(&self, other: &Text) -> bool {
        self.units() == other.units()
    }
}

impl Eq for Text {
    ghost laws = { nat_list_eq_equiv };
}

impl PartialOrd for Text {
    ghost use Rattle.std.specs.Prelude.{Some};

    ghost partial_cmp = { λ a b. Some (slice_cmp nat_cmp a b) };

    ghost laws = { texts_po };

    fn partial_cmp(&self, other: &Text) -> Option<Ordering> {
        Some(self.cmp(other))
    }
}

/// Texts stand in the order of `Text::compare`, so that they can be the keys of an ordered map.
impl Ord for Text {
    ghost use Rattle.std.specs.Prelude.{refl};

    ghost cmp = { slice_cmp nat_cmp };

    ghost total = { nat_list_cmp_total };

    ghost matches_partial_cmp = { λ _ _. refl };

    ghost matches_eq = { texts_ties };

    fn cmp(&self, other: &Text) -> Ordering {
        Text::compare(self, other)
    }
}

/// Texts are hashed four units at a time, so that they can be the keys of a map of hashes.
impl Hash for Text {
    ghost use Rattle.std.proofs.Common.{ap};
    ghost use Rattle.std.specs.Cmp.Lexicographic.{bytes_decides};
    ghost use Rattle.jl_text.specs.Fed.{fed_units};

    ghost hash_input = { fed_units };

    ghost respects_eq = { λ x y same. ap fed_units ((bytes_decides x y).0 same) };

    fn hash<H: Hasher>(&self, state: &mut H) {
        let mut rest = self.units();
        while let [a, b, c, d, tail @ ..] = rest {
            state.write_u64(four_units(*a, *b, *c, *d));
            rest = tail;
        }
        state.write_u64(last_units(rest));
    }
}

/// Four units as one number.
fn four_units(a: u16, b: u16, c: u16, d: u16) -> u64
    ensures { result ≡ four_units a b c d }
{
    let low = u64::from(a) + u64::from(b) * 65536;
    let high = u64::from(c) + u64::from(d) * 65536;
    low + high * 4294967296
}

/// Fewer than four units as one number, which also says how many they are.
fn last_units(units: &[u16]) -> u64
    requires { length units.now < 4 }
    ensures { fed_units units.now ≡ fed.u64 result }
{
    match units {
        [a, b, c] => four_units(*a, *b, *c, 3),
        [a, b] => four_units(*a, *b, 0, 2),
        [a] => four_units(*a, 0, 0, 1),
        _ => 0,
    }
}
