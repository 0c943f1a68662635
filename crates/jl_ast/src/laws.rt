ghost use Rattle.jl_ast.specs.Laws.{PlacesKeepHeights, NumbersKeepHeights, PlacesKeepNumbers, NumbersCountTheTable};

/// A program is as high without its places.
pub fn places_keep_heights()
    ensures { PlacesKeepHeights }
{}

/// A program is as high however its functions are numbered.
pub fn numbers_keep_heights()
    ensures { NumbersKeepHeights }
{}

/// The functions of a program get the same numbers without its places.
pub fn places_keep_numbers()
    ensures { PlacesKeepNumbers }
{}

/// In a program that is numbered, the function at an index of the table has that number.
pub fn numbers_count_the_table()
    ensures { NumbersCountTheTable }
{}
