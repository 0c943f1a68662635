ghost use Rattle.jl_num.specs.Laws.{ResultsAreNumbers, QuotientsAreExact, RemaindersAreExact, PowersMultiply};
ghost use Rattle.jl_num.specs.Laws.{IntegersStandForNumbers, DigitsWriteNumbers};

/// What an operation on numbers of a script gives is one.
pub fn results_are_numbers()
    ensures { ResultsAreNumbers }
{}

/// The quotient of two whole numbers is q exactly where q times the divisor is the dividend and q is a number of a
/// script (11.5.2).
pub fn quotients_are_exact()
    ensures { QuotientsAreExact }
{}

/// A remainder is smaller in size than the divisor, has the sign of the dividend, and with a multiple of the divisor
/// adds up to the dividend (11.5.3).
pub fn remainders_are_exact()
    ensures { RemaindersAreExact }
{}

/// A power has one factor more than that of the exponent before, and so is the product of as many factors as its
/// exponent says (15.8.2.13).
pub fn powers_multiply()
    ensures { PowersMultiply }
{}

/// What ToInt32, ToUint32 and ToUint16 give has 32 or 16 bits, and differs from the number by a multiple of 2^32 or
/// 2^16 (9.5 to 9.7).
pub fn integers_stand_for_numbers()
    ensures { IntegersStandForNumbers }
{}

/// Read as a numeral, the digits of a number in a radix of 2 to 36 give that number, and no 0 stands before them
/// (9.8.1).
pub fn digits_write_numbers()
    ensures { DigitsWriteNumbers }
{}
