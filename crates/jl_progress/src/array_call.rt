//! What the functions of arrays keep while they wait that look, search, or call a function for each element (15.4.4.10,
//! 15.4.4.14 to 15.4.4.22).
use jl_text::List;
use jl_value::{ObjId, Value};

/// Whether turns go up from an index to a length, or down to 0.
#[derive(Clone, Copy)]
pub enum Direction {
    Up,
    Down,
}

/// What goes through elements and calls a function for each.
#[derive(Clone, Copy)]
pub enum WalkFor {
    /// `every` and `some`, for which an answer that is false, or one that is true, is wanted (15.4.4.16, 15.4.4.17).
    Any { wanted: bool },
    /// `forEach` (15.4.4.18).
    ForEach,
    /// `map` (15.4.4.19).
    Map,
    /// `filter` (15.4.4.20).
    Filter,
    /// `reduce` and `reduceRight` (15.4.4.21, 15.4.4.22).
    Reduce { direction: Direction },
}

/// What the length of an array is asked for.
#[derive(Clone, Copy)]
pub enum LengthFor {
    /// `slice`, which has made its array (15.4.4.10).
    Slice { array: ObjId },
    /// `indexOf` and `lastIndexOf` (15.4.4.14, 15.4.4.15).
    Search { direction: Direction },
    /// One that calls a function for each element.
    Walk { purpose: WalkFor },
}

/// The object whose elements are gone through, its length as it was at first, the function that is called for each, and
/// the function's `this` (15.4.4.16, steps 1 to 5).
#[derive(Drop)]
pub struct Walk {
    pub object: ObjId,
    pub length: usize,
    pub function: ObjId,
    pub this: Value,
}

/// What is done with what the function gives, and what has been made of it so far.
#[derive(Drop)]
pub enum Task {
    /// An answer that is true, or one that is false, is wanted (15.4.4.16, 15.4.4.17).
    Any {
        wanted: bool,
    },
    /// Nothing is done with it (15.4.4.18).
    ForEach,
    /// The answers become the elements of a new array (15.4.4.19).
    Map {
        array: ObjId,
    },
    /// Elements with a true answer are added to a new array, the next of them at an index (15.4.4.20).
    Filter {
        array: ObjId,
        to: usize,
    },
    /// An answer is handed on to the next turn (15.4.4.21, 15.4.4.22).
    Reduce {
        so_far: Option<Value>,
        direction: Direction,
    },
}

/// What such a function has done so far. Where a turn begins, `at` is its index, or where turns go down one more than
/// its index.
#[derive(Drop)]
pub enum ArrayCallProgress {
    /// It waits for the length (15.4.4.10, step 3).
    Length {
        object: ObjId,
        args: List<Value>,
        purpose: LengthFor,
    },
    /// It waits for the length as a primitive value (15.4.4.10, step 4).
    LengthPrimitive {
        object: ObjId,
        args: List<Value>,
        purpose: LengthFor,
    },
    /// `slice` waits for its start as a primitive value (15.4.4.10, step 5).
    SliceStart {
        object: ObjId,
        array: ObjId,
        length: usize,
        end: Value,
    },
    /// `slice` waits for its end as a primitive value (15.4.4.10, step 7).
    SliceEnd {
        object: ObjId,
        array: ObjId,
        length: usize,
        start: usize,
    },
    /// A turn of `slice` begins, of so many (15.4.4.10, step 10).
    CopyTurn {
        object: ObjId,
        start: usize,
        array: ObjId,
        count: usize,
        at: usize,
    },
    /// `slice` waits for the element of a turn.
    CopyElement {
        object: ObjId,
        start: usize,
        array: ObjId,
        count: usize,
        index: usize,
    },
    /// A search waits for where it begins, as a primitive value (15.4.4.14, step 5).
    SearchFrom {
        object: ObjId,
        length: usize,
        sought: Value,
        direction: Direction,
    },
    /// A turn of a search begins (15.4.4.14, step 9).
    SearchTurn {
        object: ObjId,
        length: usize,
        sought: Value,
        direction: Direction,
        at: usize,
    },
    /// A search waits for the element at an index.
    SearchElement {
        object: ObjId,
        length: usize,
        sought: Value,
        direction: Direction,
        index: usize,
    },
    /// A turn begins, in which the function is called where there is an element (15.4.4.16, step 7).
    Turn {
        walk: Walk,
        task: Task,
        at: usize,
    },
    /// It waits for the element at an index.
    Element {
        walk: Walk,
        task: Task,
        index: usize,
    },
    /// It waits for what the function gives for an element.
    Answer {
        walk: Walk,
        task: Task,
        index: usize,
        element: Value,
    },
}
