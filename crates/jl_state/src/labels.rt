//! The labels before a statement (12.12).
ghost use Rattle.std.specs.Prelude.{◌≡◌, [], IfOk};

use jl_text::{List, NoMemory, Text};
use std::alloc::Global;
use std::marker::Model;

/// The labels before a statement, the innermost one first. Few statements have one, so they lie in a box. Contracts see
/// their list.
#[derive(Drop)]
pub struct Labels<'p> {
    list: Option<Box<List<&'p Text>>>,
}

impl<'p> Model for Labels<'p> {
    ghost use Rattle.std.specs.Borrow.{Bor};
    ghost use Rattle.std.specs.Option.{option_map_or};
    ghost use Rattle.std.specs.Prelude.{[], List, ℕ};

    ghost Value = { List (Bor (List ℕ)) };

    ghost view = { λ l. option_map_or (λ b. b.value) l.list [] };
}

impl<'p> Labels<'p> {
    /// No labels. It takes no memory.
    pub fn none() -> Labels<'p>
        ensures { result ≡ [] }
    {
        Labels { list: None }
    }

    /// These labels.
    pub fn of(alloc: Global, list: List<&'p Text>) -> Result<Labels<'p>, NoMemory>
        ensures { IfOk result (λ labels. labels ≡ list.entry) }
    {
        Ok(Labels {
            list: Some(Box::new(alloc, list)?),
        })
    }

    /// The labels, to be read.
    pub fn items(&self) -> &[&'p Text]
        ensures { result.now ≡ self.now }
    {
        match &self.list {
            Some(list) => list.items(),
            None => &[],
        }
    }
}
