ghost use Rattle.std.specs.Prelude.{◌≡◌, []};

use super::traits::Shelf;
use std::marker::Model;

/// A shelf that lends what it was handed, and nothing before.
#[derive(Drop)]
pub struct Same {
    text: Option<Vec<u16>>,
}

impl Model for Same {
    ghost use Rattle.std.specs.Prelude.{List, ℕ};
    ghost use Rattle.jl_port.specs.Shelves.{units_of};

    ghost Value = { List ℕ };

    ghost view = { λ s. units_of s.text };
}

impl Same {
    /// A shelf that was handed nothing.
    pub fn new() -> Same
        ensures { result ≡ [] }
    {
        Same { text: None }
    }
}

impl Shelf for Same {
    ghost handed = { λ s. s };

    ghost lent = { λ s. s };

    fn put(&mut self, text: Vec<u16>)
        ensures { self.new ≡ text.items }
    {
        self.text = Some(text);
    }

    fn lend(&self) -> &[u16] {
        match &self.text {
            Some(text) => text.as_slice(),
            None => &[],
        }
    }
}

/// A shelf that keeps what it was handed, and always lends another text.
#[derive(Drop)]
pub struct Swapped {
    text: Option<Vec<u16>>,
    other: Vec<u16>,
}

impl Model for Swapped {
    ghost use Rattle.jl_port.specs.Shelves.{Swap, units_of};

    ghost Value = { Swap };

    ghost view = { λ s. record { handed = units_of s.text; lent = s.other.items } };
}

impl Swapped {
    /// A shelf that lends this text.
    pub fn new(other: Vec<u16>) -> Swapped
        ensures { result ≡ record { handed = []; lent = other.items } }
    {
        Swapped { text: None, other }
    }
}

impl Shelf for Swapped {
    ghost handed = { λ s. s.handed };

    ghost lent = { λ s. s.lent };

    fn put(&mut self, text: Vec<u16>)
        ensures { self.new ≡ record { handed = text.items; lent = self.old.lent } }
    {
        self.text = Some(text);
    }

    fn lend(&self) -> &[u16] {
        self.other.as_slice()
    }
}
