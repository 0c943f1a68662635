ghost use Rattle.std.specs.Prelude.{◌≡◌, ◌++◌, ◌∷◌, [], IfOk, IsNone, OnErr, OnOk};
ghost use Rattle.std.specs.Option.{option_copied, option_copied_mut};
ghost use Rattle.jl_named.specs.Named.{item_named};
ghost use Rattle.jl_named.specs.inner.Placed.{ArePlacesOf, IsKept};

use jl_text::{NoMemory, Text};
use std::alloc::Global;
use std::collections::BTreeMap;
use std::marker::Model;

/// The greatest number of items that are looked through one by one.
const FEW: usize = 8;

/// An item, and its name.
#[derive(Drop)]
pub struct Named<T> {
    pub name: Text,
    pub item: T,
}

/// Items under names, in the order in which they were added. Contracts see the list of them. Among up to eight a name
/// is found by a walk, and among more in an ordered map, so that whoever chooses the names can't make a call take
/// longer than the logarithm of their number.
#[derive(Drop)]
pub struct NamedList<T> {
    entries: Vec<Named<T>>,
    /// The place of each name among the entries, where there are more than `FEW`.
    places: BTreeMap<Text, usize>,
}

impl<T> Model for NamedList<T> {
    ghost use Rattle.std.specs.Prelude.{List};
    ghost use Rattle.jl_named.specs.declared.named_list.Named.{Named};
    ghost use Rattle.jl_named.specs.inner.Placed.{IsKept};

    ghost Value = { List (Named T) };

    ghost view = { λ l. l.entries.items };

    ghost invariant = { λ l. IsKept l.entries.items l.places };
}

impl<T> NamedList<T> {
    ghost use Rattle.std.specs.Borrow.{sem};
    ghost use Rattle.jl_named.specs.Named.{AreApart};
    ghost use Rattle.jl_named.specs.Lending.{LendsItem};
    ghost use Rattle.jl_named.specs.inner.Placed.{place_of};

    /// No items. It takes no memory.
    pub fn new(alloc: Global) -> NamedList<T>
        ensures { result ≡ [] }
    {
        NamedList {
            entries: Vec::new(alloc),
            places: BTreeMap::new(alloc),
        }
    }

    /// The item under a name.
    pub fn get(&self, name: &Text) -> Option<&T>
        ensures value { option_copied result ≡ item_named name.now self.now }
        ensures kept { AreApart self.now }
    {
        let at = self.place(name)?;
        let entry = self.entries.get(at)?;
        Some(&entry.item)
    }

    /// The item under a name, to be changed in place.
    pub fn get_mut(&mut self, name: &Text) -> Option<&mut T>
        ensures* comes_back { sem 𝓛 (LendsItem T.row self.entry name.now result) }
        ensures value { option_copied_mut result ≡ item_named name.now self.old }
        ensures kept { AreApart self.old }
    {
        let at = self.place(name)?;
        let entry = self.entries.get_mut(at)?;
        Some(&mut entry.item)
    }

    /// The place of a name in the list.
    fn place(&self, name: &Text) -> Option<usize>
        ensures value { result ≡ place_of name.now self.now }
        ensures kept { AreApart self.now }
    {
        if self.entries.len() <= FEW {
            self.entries.iter().position(|entry| entry.name == *name)
        } else {
            self.places.get(name).copied()
        }
    }
}

impl<T: Drop> NamedList<T> {
    /// Adds an item under a new name; it comes last. Where no memory is left, all is as before.
    pub fn push(&mut self, alloc: Global, name: Text, item: T) -> Result<(), NoMemory>
        requires { IsNone (item_named name self.old) }
        ensures ok { OnOk result (self.new ≡ self.old ++ record { name = name; item = item } ∷ []) }
        ensures err { OnErr result (self.new ≡ self.old) }
    {
        self.entries.reserve(1)?;
        note_place(&mut self.places, alloc, self.entries.as_slice(), &name)?;
        self.entries.push_reserved(Named { name, item });
        Ok(())
    }
}

/// Notes the place of a name that comes after a list, where there are more than `FEW` then.
fn note_place<T>(
    places: &mut BTreeMap<Text, usize>,
    alloc: Global,
    entries: &[Named<T>],
    name: &Text,
) -> Result<(), NoMemory>
    requires new { IsNone (item_named name.now entries.now) }
    requires kept { IsKept entries.now places.old }
    ensures ok { OnOk result
        ((item : T) → IsKept (entries.now ++ record { name = name.now; item = item } ∷ []) places.new) }
    ensures err { OnErr result (IsKept entries.now places.new) }
{
    let count = entries.len();
    if count < FEW {
        return Ok(());
    }
    if count == FEW {
        *places = places_of(alloc, entries)?;
    }
    places.insert(name.share(alloc)?, count)?;
    Ok(())
}

/// The place of each name in a list.
fn places_of<T>(alloc: Global, entries: &[Named<T>]) -> Result<BTreeMap<Text, usize>, NoMemory>
    ensures { IfOk result (λ places. ArePlacesOf entries.now places) }
{
    let mut places = BTreeMap::new(alloc);
    let mut at = entries.len();
    while at > 0 {
        at -= 1;
        places.insert(entries[at].name.share(alloc)?, at)?;
    }
    Ok(places)
}
