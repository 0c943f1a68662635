//! What the builtins of strings keep while they wait for a value (15.5).
use jl_num::Num;
use jl_text::{List, Text};
use jl_value::{ObjId, StringMethod, Value};

/// How a unit of a string is given (15.5.4.4, 15.5.4.5).
#[derive(Clone, Copy)]
pub enum UnitForm {
    /// As a string, by `charAt`.
    Text,
    /// As a number, by `charCodeAt`.
    Code,
}

/// Which place of a part in a string is searched for (15.5.4.7, 15.5.4.8).
#[derive(Clone, Copy)]
pub enum Search {
    /// The first, by `indexOf`.
    First,
    /// The last, by `lastIndexOf`.
    Last,
}

/// What is cut out of a string (15.5.4.13, 15.5.4.15).
#[derive(Clone, Copy)]
pub enum Cut {
    /// What `slice` gives, which counts places below zero from the end.
    Slice,
    /// What `substring` gives, which takes its two places in either order.
    Substring,
}

/// What a builtin of strings has done so far.
#[derive(Drop)]
pub enum StringProgress {
    /// `String` waits for its argument as a primitive value (15.5.1.1, 15.5.2.1).
    Given {
        by_new: bool,
    },
    /// `String.fromCharCode` waits for an argument as a primitive value: the units so far, all arguments, and the index
    /// of the one after it (15.5.3.2).
    CharCode {
        units: List<u16>,
        args: List<Value>,
        from: usize,
    },
    /// A method waits for `this` as a primitive value, with all arguments (15.5.4).
    This {
        method: StringMethod,
        args: List<Value>,
    },
    /// `charAt` or `charCodeAt` waits for the position as a primitive value (15.5.4.4, 15.5.4.5).
    Position {
        form: UnitForm,
        units: Text,
    },
    /// `concat` waits for an argument as a primitive value: the units so far, all arguments, and the index of the one
    /// after it (15.5.4.6).
    Joined {
        units: List<u16>,
        args: List<Value>,
        from: usize,
    },
    /// `indexOf` or `lastIndexOf` waits for the part as a primitive value, and has the position still to convert
    /// (15.5.4.7, 15.5.4.8).
    Part {
        search: Search,
        units: Text,
        position: Value,
    },
    /// It waits for the position as a primitive value.
    Place {
        search: Search,
        units: Text,
        part: Text,
    },
    /// `slice` or `substring` waits for the start as a primitive value, and has the end still to convert (15.5.4.13,
    /// 15.5.4.15).
    Start {
        cut: Cut,
        units: Text,
        end: Value,
    },
    /// It waits for the end as a primitive value.
    End {
        cut: Cut,
        units: Text,
        start: Num,
    },
    /// `split` has made its array and waits for the limit as a primitive value, with the separator still to convert
    /// (15.5.4.14).
    Limit {
        units: Text,
        array: ObjId,
        separator: Value,
    },
    /// It waits for the separator as a primitive value.
    Separator {
        units: Text,
        array: ObjId,
        limit: u32,
    },
}
