ghost use Rattle.std.specs.Prelude.{◌≡◌, ◌<◌, ◌^◌};
ghost use Rattle.jl_profile.specs.Births.{all_made, all_unused};

use crate::births::Births;

/// How many objects were made, and how many of them were never used.
#[derive(Clone, Copy, PartialEq, Eq, Debug)]
pub struct Total {
    pub made: u64,
    pub unused: u64,
}

/// The sums of rows, where they fit their type, as those of each profile do.
#[tactic(auto, using(std::proofs::lemmas::List::Sums::sum_by_more_le, std::proofs::lemmas::List::Sums::sum_by_more))]
pub fn sums(births: &[Births]) -> Total
    requires made { all_made births.now < 2 ^ 64 }
    requires unused { all_unused births.now < 2 ^ 64 }
    ensures made { result.made ≡ all_made births.now }
    ensures unused { result.unused ≡ all_unused births.now }
{
    let mut total = Total { made: 0, unused: 0 };
    for row in births {
        total.made += row.made;
        total.unused += row.unused;
    }
    total
}
