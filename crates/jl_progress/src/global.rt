//! What the functions of the global object keep while they wait for a value (15.1.2).
use jl_text::{List, Text};
use jl_value::Value;

/// What is asked of a number (15.1.2.4, 15.1.2.5).
#[derive(Clone, Copy)]
pub enum NumberTest {
    /// Whether it is NaN, by `isNaN`.
    IsNan,
    /// Whether it is neither NaN nor an infinity, by `isFinite`.
    IsFinite,
}

/// What a function of the global object has done so far.
#[derive(Drop)]
pub enum GlobalProgress {
    /// `print`: the line so far, without the space before the argument that is converted, whether that is the first,
    /// all arguments, and the index of the one after it.
    Print {
        line: List<u16>,
        is_first: bool,
        args: List<Value>,
        from: usize,
    },
    /// `parseInt` waits for the string as a primitive value, and has the radix still to convert (15.1.2.2).
    Numeral {
        radix: Value,
    },
    /// It waits for the radix as a primitive value.
    Radix {
        units: Text,
    },
    /// `isNaN` or `isFinite` waits for its argument as a primitive value (15.1.2.4, 15.1.2.5).
    Test {
        test: NumberTest,
    },
}
