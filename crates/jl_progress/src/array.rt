//! What the functions of arrays that change or copy keep while they wait for a value (15.4.4.2 to 15.4.4.13).
use jl_text::{List, Text};
use jl_value::{ObjId, Value};

/// A function of arrays that begins with the length of what it is called on.
#[derive(Drop)]
pub enum LengthFunction {
    /// `join` (15.4.4.5).
    Join,
    /// `pop` (15.4.4.6).
    Pop,
    /// `push` (15.4.4.7).
    Push,
    /// `reverse` (15.4.4.8).
    Reverse,
    /// `shift` (15.4.4.9).
    Shift,
    /// `sort` without a function to compare by (15.4.4.11).
    Sort,
    /// `splice` (15.4.4.12), with the new array for the elements that go.
    Splice { array: ObjId },
    /// `unshift` (15.4.4.13).
    Unshift,
}

/// Elements of an object from an index on that become elements of a new array from another on: `k` have been copied,
/// and so many are left.
#[derive(Drop)]
pub struct Copying {
    pub object: ObjId,
    pub start: usize,
    pub array: ObjId,
    pub first: usize,
    pub left: usize,
    pub k: usize,
}

/// What `splice` does with an object of this length: from an index on so many elements go, and these come (15.4.4.12).
#[derive(Drop)]
pub struct Splicing {
    pub object: ObjId,
    pub array: ObjId,
    pub length: usize,
    pub start: usize,
    pub removed: usize,
    pub items: List<Value>,
}

/// What follows when elements have been copied.
#[derive(Drop)]
pub enum AfterCopying {
    /// `concat` appends its other items from an index on; the next element has the index `next`.
    Concat {
        next: usize,
        items: List<Value>,
        from: usize,
    },
    /// `splice` makes room for the elements that come.
    Splice(Splicing),
}

/// Elements of an object that are moved: the one at `k` after `from` goes to `k` after `to`, and so many are left.
#[derive(Drop)]
pub struct Moving {
    pub object: ObjId,
    pub from: usize,
    pub to: usize,
    pub left: usize,
}

/// What follows when elements have been moved.
#[derive(Drop)]
pub enum AfterMoving {
    /// `shift` deletes the last element, and gives the first one.
    Shift { first: Value, last: usize },
    /// `splice` deletes the elements at the end.
    Delete(Splicing),
    /// `splice` puts the elements that come.
    Put(Splicing),
    /// `unshift` puts its arguments.
    Unshift { args: List<Value>, length: usize },
}

/// What follows when values have been put.
#[derive(Drop)]
pub enum AfterPutting {
    /// `push` puts the length, which is the index after them.
    Push,
    /// `unshift` puts this length.
    Unshift { length: usize },
    /// `splice` puts this length, and gives the new array.
    Splice { array: ObjId, length: usize },
    /// `sort` deletes the elements from there up to this length.
    Sort { length: usize },
}

/// A turn of `reverse` (15.4.4.8): the lower of the two indices, the length, and how many turns are left after it.
#[derive(Drop)]
pub struct Reversing {
    pub object: ObjId,
    pub length: usize,
    pub lower: usize,
    pub left: usize,
}

/// The turns of `join` (15.4.4.5): the next index, and how many turns are left from there.
#[derive(Drop)]
pub struct Joining {
    pub object: ObjId,
    pub separator: Text,
    pub left: usize,
    pub k: usize,
}

/// The turns in which `sort` reads (15.4.4.11): the next index, and how many are left from there.
#[derive(Drop)]
pub struct Reading {
    pub object: ObjId,
    pub length: usize,
    pub left: usize,
    pub k: usize,
}

/// What a function of arrays that changes or copies has done so far.
#[derive(Drop)]
pub enum ArrayProgress {
    /// `toString` waits for the property `join` (15.4.4.2).
    Join {
        object: ObjId,
    },
    /// A function waits for the length.
    Length {
        function: LengthFunction,
        object: ObjId,
        args: List<Value>,
    },
    /// It waits for the length as a primitive value.
    LengthPrimitive {
        function: LengthFunction,
        object: ObjId,
        args: List<Value>,
    },
    /// `concat` comes to its item at `from`, whose first element gets the index `next` (15.4.4.4).
    ConcatItem {
        array: ObjId,
        next: usize,
        items: List<Value>,
        from: usize,
    },
    /// It waits for the length of an item that is an array; the item after it is at `from`.
    ConcatLength {
        array: ObjId,
        next: usize,
        item: ObjId,
        items: List<Value>,
        from: usize,
    },
    /// A turn begins in which an element is copied.
    CopyTurn {
        copying: Copying,
        then: AfterCopying,
    },
    /// That turn waits for the element.
    CopyElement {
        copying: Copying,
        then: AfterCopying,
    },
    /// `join` waits for its separator as a primitive value (15.4.4.5).
    JoinSeparator {
        object: ObjId,
        length: usize,
    },
    /// It waits for the first element; `joining` is of the turns after it.
    JoinFirst {
        joining: Joining,
    },
    /// It waits for the first element as a primitive value.
    JoinFirstPrimitive {
        joining: Joining,
    },
    /// A turn begins, with the line so far.
    JoinTurn {
        joining: Joining,
        line: List<u16>,
    },
    /// That turn waits for the element; `joining` is of the turns after it, and the line ends with the separator.
    JoinElement {
        joining: Joining,
        line: List<u16>,
    },
    /// It waits for the element as a primitive value.
    JoinElementPrimitive {
        joining: Joining,
        line: List<u16>,
    },
    /// `pop` waits for the last element (15.4.4.6).
    PopElement {
        object: ObjId,
        last: usize,
    },
    /// A turn begins in which the value at `from` is put at an index.
    PutTurn {
        object: ObjId,
        index: usize,
        values: List<Value>,
        from: usize,
        then: AfterPutting,
    },
    /// A turn of `reverse` begins, if `left` isn't 0 (15.4.4.8).
    ReverseTurn {
        reversing: Reversing,
    },
    /// That turn waits for the lower element; `left` is of the turns after it.
    ReverseLower {
        reversing: Reversing,
    },
    /// It waits for the upper element.
    ReverseUpper {
        reversing: Reversing,
        low: Value,
    },
    /// The lower element has been put; the upper one gets this value, or is deleted.
    ReverseExchange {
        reversing: Reversing,
        low: Option<Value>,
    },
    /// `shift` waits for the first element (15.4.4.9).
    ShiftFirst {
        object: ObjId,
        last: usize,
    },
    /// A turn begins in which an element is moved, from `k` up.
    MoveUp {
        moving: Moving,
        k: usize,
        then: AfterMoving,
    },
    /// That turn waits for the element; `left` is of the turns after it.
    MoveUpElement {
        moving: Moving,
        k: usize,
        then: AfterMoving,
    },
    /// A turn begins in which an element is moved, down to 0.
    MoveDown {
        moving: Moving,
        then: AfterMoving,
    },
    /// That turn waits for the element; `left` is of the turns after it, and so the index.
    MoveDownElement {
        moving: Moving,
        then: AfterMoving,
    },
    /// A turn of `sort` begins in which an element is read, after those that have been read, each with the string that
    /// it is compared by (15.4.4.11).
    SortTurn {
        reading: Reading,
        read: List<(Option<Text>, Value)>,
    },
    /// That turn waits for the element; `reading` is of the turns after it.
    SortElement {
        reading: Reading,
        read: List<(Option<Text>, Value)>,
    },
    /// It waits for the element as a primitive value.
    SortPrimitive {
        reading: Reading,
        read: List<(Option<Text>, Value)>,
        element: Value,
    },
    /// A turn of `sort` begins in which the element at an index is deleted.
    DeleteUp {
        object: ObjId,
        index: usize,
        left: usize,
    },
    /// `splice` waits for its first argument as a primitive value (15.4.4.12).
    SpliceStart {
        object: ObjId,
        array: ObjId,
        length: usize,
        args: List<Value>,
    },
    /// It waits for its second argument as a primitive value.
    SpliceCount {
        object: ObjId,
        array: ObjId,
        length: usize,
        start: usize,
        args: List<Value>,
    },
    /// A turn of `splice` begins in which an element after the new end is deleted, down to that end.
    DeleteDown {
        splicing: Splicing,
        left: usize,
    },
}
