//! What the builtins of numbers and of Math keep while they wait for a value (15.7, 15.8).
use jl_num::Num;
use jl_text::List;
use jl_value::Value;

/// What is given of one number (15.8.2).
#[derive(Clone, Copy)]
pub enum NumberFunction {
    /// Its size without its sign, by `Math.abs` (15.8.2.1).
    Absolute,
    /// A whole number near it, which is the number itself, by `Math.ceil`, `Math.floor` and `Math.round` (15.8.2.6,
    /// 15.8.2.9, 15.8.2.15).
    Whole,
}

/// Which of several numbers is given (15.8.2.11, 15.8.2.12).
#[derive(Clone, Copy)]
pub enum Extreme {
    /// The greatest, by `Math.max`.
    Greatest,
    /// The least, by `Math.min`.
    Least,
}

/// What a builtin of numbers or of Math has done so far.
#[derive(Drop)]
pub enum NumberProgress {
    /// `Number` waits for its argument as a primitive value (15.7.1.1, 15.7.2.1).
    Given {
        by_new: bool,
    },
    /// `Number.prototype.toString` waits for the radix as a primitive value (15.7.4.2).
    Radix {
        number: Num,
    },
    /// A function of one number waits for it as a primitive value (15.8.2).
    Argument {
        function: NumberFunction,
    },
    /// `Math.max` or `Math.min` waits for an argument as a primitive value: the number so far, if there is one, all
    /// arguments, and the index of the one after it (15.8.2.11, 15.8.2.12).
    Extreme {
        extreme: Extreme,
        so_far: Option<Num>,
        args: List<Value>,
        from: usize,
    },
    /// `Math.pow` waits for the base as a primitive value, and has the exponent still to convert (15.8.2.13).
    Base {
        exponent: Value,
    },
    /// It waits for the exponent as a primitive value.
    Exponent {
        base: Num,
    },
}
