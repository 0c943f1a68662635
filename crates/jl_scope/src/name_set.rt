//! Sets of names.
ghost use Rattle.std.specs.Prelude.{◌≡◌, [], not, IfOk, OnOk};
ghost use Rattle.jl_scope.specs.Names.{among, with_name};
ghost use Rattle.jl_scope.specs.NameSets.{SameNames};

use jl_text::NoMemory;
use std::alloc::Global;
use std::collections::BTreeSet;
use std::marker::Model;

/// Names, each once. They are kept in order and not hashed, so whoever chooses the names can't make a call take longer
/// than the logarithm of their number. Contracts see them as a list of texts.
#[derive(Drop)]
pub struct NameSet<'a> {
    names: BTreeSet<&'a [u16]>,
}

impl<'a> Model for NameSet<'a> {
    ghost use Rattle.std.specs.Prelude.{List, ℕ, map};

    ghost Value = { List (List ℕ) };

    ghost view = { λ s. map (λ n. n.now) s.names.keys };
}

impl<'a> NameSet<'a> {
    /// No name.
    pub fn new(alloc: Global) -> NameSet<'a>
        ensures { result ≡ [] }
    {
        NameSet {
            names: BTreeSet::new(alloc),
        }
    }

    /// Whether a name is there.
    pub fn contains(&self, name: &[u16]) -> bool
        ensures { result ≡ among name.now self.now }
    {
        self.names.contains(name)
    }

    /// Adds a name, and tells whether it is new.
    pub fn insert(&mut self, name: &'a [u16]) -> Result<bool, NoMemory>
        ensures added { IfOk result (λ added. added ≡ not (among name.now self.old)) }
        ensures names { OnOk result (SameNames self.new (with_name self.old name.now)) }
    {
        let added = self.names.insert(name)?;
        Ok(added)
    }
}
