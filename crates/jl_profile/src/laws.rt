//! What the definitions of this crate come to.
ghost use Rattle.jl_profile.specs.Laws.{KindsAreEnough};

/// Operations of kinds that the profile doesn't look at change no row.
pub fn kinds_are_enough()
    ensures { KindsAreEnough }
{}
