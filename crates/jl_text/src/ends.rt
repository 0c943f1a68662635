// Units that are read from the front of a slice, or from its back.
ghost use Rattle.std.specs.Prelude.{◌≡◌, ℕ, ◌+◌, ◌-◌, ◌<◌, ◌≤◌, ◌↔◌, true, length, slice_index};
ghost use Rattle.jl_text.specs.inner.Seeking.{Agrees};

/// Units by their places, counted from one end.
pub(crate) trait Units: Copy {
    // How many there are.
    ghost size: { Self → ℕ };

    // The unit at a place.
    ghost unit: { Self → ℕ → ℕ };

    fn len(self) -> usize
        ensures { result ≡ size self };

    fn at(self, place: usize) -> u16
        requires { place < size self }
        ensures { result ≡ unit self place };

    /// Whether `part` stands at the place `at`, by a comparison of slices.
    fn stands(self, part: Self, at: usize) -> bool
        requires fits { at + size part ≤ size self }
        ensures { (result ≡ true) ↔ Agrees (unit self) (unit part) at 0 (size part) };
}

/// The places are counted from the first unit.
#[derive(Clone, Copy)]
pub(crate) struct FromFront<'a>(pub(crate) &'a [u16]);

impl Units for FromFront<'_> {
    ghost size = { λ s. length s.0.now };

    ghost unit = { λ s place. slice_index s.0.now place };

    fn len(self) -> usize {
        self.0.len()
    }

    fn at(self, place: usize) -> u16 {
        self.0[place]
    }

    fn stands(self, part: Self, at: usize) -> bool {
        &self.0[at..at + part.0.len()] == part.0
    }
}

/// The places are counted from the last unit.
#[derive(Clone, Copy)]
pub(crate) struct FromBack<'a>(pub(crate) &'a [u16]);

impl Units for FromBack<'_> {
    ghost size = { λ s. length s.0.now };

    ghost unit = { λ s place. slice_index s.0.now (length s.0.now - 1 - place) };

    fn len(self) -> usize {
        self.0.len()
    }

    fn at(self, place: usize) -> u16 {
        self.0[self.0.len() - 1 - place]
    }

    fn stands(self, part: Self, at: usize) -> bool {
        let end = self.0.len() - at;
        &self.0[end - part.0.len()..end] == part.0
    }
}
