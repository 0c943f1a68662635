ghost use Rattle.jl_heap.specs.Chain.{FindFollowsPrototypes};
ghost use Rattle.jl_heap.specs.Laws.{NonConfigurableStays, CutsOneByOne, ReadOnlyStays, OthersStay, UnitsStay};

/// A property that can be neither configured nor written stays as it is, whatever is asked of its object (8.6.1).
pub fn read_only_stays()
    ensures { ReadOnlyStays }
{}

/// A property that can't be configured is there after any delete (8.12.7).
pub fn non_configurable_stays()
    ensures { NonConfigurableStays }
{}

/// A change on one object, or a delete, changes no other.
pub fn others_stay()
    ensures { OthersStay }
{}

/// A change under the name of a unit of a String object, where no property is stored under it, leaves all objects as
/// they are (15.5.5.2).
pub fn units_stay()
    ensures { UnitsStay }
{}

/// An array is cut as if its elements were deleted one by one, from the greatest index down, until one can't be
/// (15.4.5.1, step 3.l).
pub fn cuts_one_by_one()
    ensures { CutsOneByOne }
{}

/// What is found under a name is the own property, or else what is found under it on the prototype (8.12.2).
pub fn find_follows_prototypes()
    ensures { FindFollowsPrototypes }
{}
