//! How a run comes out.
ghost use Rattle.std.specs.Prelude.{◌≡◌};

use jl_state::Act;
use jl_store::Store;
use jl_text::List;
use jl_value::Outcome;

/// What comes after an act.
#[derive(Drop)]
pub enum Next<'p> {
    Act(Act<'p>),
    Over(Outcome),
}

/// A run that is over, or spent.
#[derive(Drop)]
pub struct Run {
    pub outcome: Outcome,
    /// What the script printed, in UTF-8.
    pub output: List<u8>,
    /// The objects and environments as the script left them.
    pub store: Store,
    /// How many steps were taken.
    pub steps: u64,
    /// How many operations the observer was told of.
    pub hooks: u64,
}
