ghost use Rattle.std.specs.Prelude.{◌≡◌, ◌<◌, ◌^◌, ◌&&◌, ◌||◌, false, nat_eq, is_some, ℕ, List, [], All, IfOk, OnOk};
ghost use Rattle.std.specs.Prelude.{◌++◌};
ghost use Rattle.indexmap.specs.IndexMap.{get};
ghost use Rattle.indexmap.specs.IndexSet.{contains};
ghost use Rattle.jl_op.specs.Map.{BeginsIn};
ghost use Rattle.jl_op.specs.Operations.{Operation};
ghost use Rattle.jl_profile.specs.Births.{all_made, all_unused, begins_new, births_in, is_the};
ghost use Rattle.jl_profile.specs.Births.{made_by, object_of, used_by};
ghost use Rattle.jl_profile.specs.inner.Observed.{IsProfileOf, borne, new_ends_by};

use crate::births::{Births, Way};
use crate::rows::{count_births, keyed, list};
use indexmap::{IndexMap, IndexSet};
use jl_op::{Observer, Op, OpId, OpMap};
use jl_text::Lines;
use jl_value::Value;
use std::alloc::{AllocError, Global};

/// Where an object was born: at the operation with this id, in this way.
#[derive(Clone, Copy)]
pub(crate) struct Birth {
    pub(crate) id: OpId,
    pub(crate) way: Way,
}

/// An observer that keeps where objects were born, and which of them were used later. It takes a constant time for each
/// operation, on average. Once it finds no memory left, it refuses each later one.
#[derive(Drop)]
pub struct Profile {
    born: IndexMap<usize, Birth>,
    used: IndexSet<usize>,
    news: IndexSet<u32>,
    refused: bool,
}

impl Observer for Profile {
    ghost stands_for = { λ p observed. IsProfileOf p.born.entries (λ object. is_some (get nat_eq p.born object))
        (contains nat_eq p.used) (contains nat_eq p.news) observed };

    ghost has_refused = { λ p. p.refused };

    fn see(&mut self, id: OpId, op: &Op) -> Result<(), AllocError> {
        if self.refused {
            return Err(AllocError);
        }
        self.refused = true;
        note_use(&mut self.used, &self.born, op)?;
        note_birth(&mut self.born, &self.news, id, op)?;
        note_new(&mut self.news, id, op)?;
        self.refused = false;
        Ok(())
    }
}

impl Profile {
    /// One that observed nothing.
    pub fn new(alloc: Global) -> Profile
        ensures stands { ⟦<Profile as Observer>⟧.stands_for result [] }
        ensures ready { ⟦<Profile as Observer>⟧.has_refused result ≡ false }
    {
        Profile {
            born: IndexMap::new(alloc),
            used: IndexSet::new(alloc),
            news: IndexSet::new(alloc),
            refused: false,
        }
    }

    /// The births in the operations that it observed: for each line, column and way with one, in this order, how many
    /// there are, and how many are of objects that no later operation uses. `map` has the part of the source for each
    /// id, and `lines` are those of the source. An id that the map lacks is in no row.
    pub fn births(
        &self,
        alloc: Global,
        map: &OpMap,
        lines: &Lines,
    ) -> Result<Vec<Births>, AllocError>
        requires { All (BeginsIn lines.now) map.now }
        ensures found { IfOk result (λ births. (observed : List Operation)
            → ⟦<Profile as Observer>⟧.stands_for self.now observed
            → births.items ≡ births_in lines.now map.now observed) }
        ensures fit { IfOk result (λ births. (all_made births.items < 2 ^ 64) × (all_unused births.items < 2 ^ 64)) }
    {
        let keyed = keyed(alloc, &self.born, map, lines)?;
        let counts = count_births(alloc, &keyed, &self.used)?;
        list(alloc, &counts)
    }
}

/// Notes the object that an operation uses, if it was born.
fn note_use(
    used: &mut IndexSet<usize>,
    born: &IndexMap<usize, Birth>,
    op: &Op,
) -> Result<(), AllocError>
    ensures { OnOk result ((object : ℕ) → contains nat_eq used.new object
        ≡ (contains nat_eq used.old object
        || (is_some (get nat_eq born.now object) && is_the object (used_by op.now)))) }
{
    if let Some(object) = used_by(op)
        && born.contains_key(&object)
    {
        used.insert(object)?;
    }
    Ok(())
}

/// Notes the object that an operation makes, if it wasn't born before.
fn note_birth(
    born: &mut IndexMap<usize, Birth>,
    news: &IndexSet<u32>,
    id: OpId,
    op: &Op,
) -> Result<(), AllocError>
    ensures { OnOk result (born.new.entries
        ≡ born.old.entries
        ++ borne (made_by (new_ends_by (contains nat_eq news.now) id.0) op.now) born.old.entries id) }
{
    if let Some((way, object)) = made_by(op, new_ends(news, id))
        && !born.contains_key(&object)
    {
        born.insert(object, Birth { id, way })?;
    }
    Ok(())
}

/// Notes the id of an operation that begins a call by `new`.
fn note_new(news: &mut IndexSet<u32>, id: OpId, op: &Op) -> Result<(), AllocError>
    ensures { OnOk result ((known : ℕ) → contains nat_eq news.new known
        ≡ (contains nat_eq news.old known || (begins_new op.now && nat_eq known id.0))) }
{
    if let Op::InvokePre { by_new: true, .. } = op {
        news.insert(id.0)?;
    }
    Ok(())
}

/// Whether the call that ends with this id is one by `new`.
fn new_ends(news: &IndexSet<u32>, id: OpId) -> bool
    ensures { result ≡ new_ends_by (contains nat_eq news.now) id.0 }
{
    match id.0.checked_sub(1) {
        Some(begin) => news.contains(&begin),
        None => false,
    }
}

/// The object that an operation uses.
fn used_by(op: &Op) -> Option<usize>
    ensures { result ≡ used_by op.now }
{
    match op {
        Op::GetField { base, .. } | Op::PutField { base, .. } | Op::DeleteField { base, .. } => {
            object_of(&base.value)
        }
        Op::InvokePre { callee, .. } => Some(callee.0),
        Op::ForIn { object } => object_of(&object.value),
        _ => None,
    }
}

/// The object that an operation makes, and the way, where it is known whether it ends a call by `new`.
fn made_by(op: &Op, by_new: bool) -> Option<(Way, usize)>
    ensures { result ≡ made_by by_new op.now }
{
    match op {
        Op::ArrayLiteral { obj } => Some((Way::Array, obj.0)),
        Op::ObjectLiteral { obj } => Some((Way::Object, obj.0)),
        Op::FunctionLiteral { obj, .. } => Some((Way::Function, obj.0)),
        Op::InvokePost { result, .. } if by_new => Some((Way::New, object_of(&result.value)?)),
        _ => None,
    }
}

/// The object that a value is, by its number.
fn object_of(value: &Value) -> Option<usize>
    ensures { result ≡ object_of value.now }
{
    match value {
        Value::Obj(id) => Some(id.0),
        _ => None,
    }
}
