//! The ids that a walk gives out.
ghost use Rattle.std.specs.Prelude.{◌≡◌, ◌+◌, ◌<◌, if◌then◌else◌};
ghost use Rattle.jl_weave.specs.inner.Woven.{HasIds};

/// The ids from `next` on, which no node has taken yet.
#[derive(Drop)]
pub struct Ids {
    next: u32,
}

impl Ids {
    /// The ids from this one on.
    pub fn starting_at(next: u32) -> Ids
        ensures { result.next ≡ next }
    {
        Ids { next }
    }

    /// The first of so many ids, which are then taken.
    pub fn take(&mut self, count: u32) -> u32
        requires { HasIds self.old.next count }
        ensures first { result ≡ self.old.next }
        ensures taken { self.new.next ≡ self.old.next + count }
    {
        let first = self.next;
        self.next += count;
        first
    }

    /// The next id, which is taken if so.
    pub fn take_one_if(&mut self, is_taken: bool) -> u32
        requires { HasIds self.old.next (if is_taken then 1 else 0) }
        ensures first { result ≡ self.old.next }
        ensures taken { self.new.next ≡ self.old.next + (if is_taken then 1 else 0) }
    {
        self.take(if is_taken { 1 } else { 0 })
    }
}
