ghost use Rattle.jl_value.specs.Laws.{SameValuesAreEqual, IndicesAreDigits, OneIndex, OneBuiltin, AllAreInTheTable};

/// Two values are the same exactly where they are equal (9.12).
pub fn same_values_are_equal()
    ensures { SameValuesAreEqual }
{}

/// The index of units is n exactly where they are the digits of n and n is below 2^32 - 1 (15.4).
pub fn indices_are_digits()
    ensures { IndicesAreDigits }
{}

/// Units are the digits of one index at most (15.4).
pub fn one_index()
    ensures { OneIndex }
{}

/// No two builtins have the same path.
pub fn one_builtin()
    ensures { OneBuiltin }
{}

/// Each builtin passes a test that all of the table pass.
pub fn all_are_in_the_table()
    ensures { AllAreInTheTable }
{}
