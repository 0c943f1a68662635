//! Algorithms of the standard that wait for a value.
use crate::boxed::Boxed;
use jl_ast::BinOp;
use jl_num::Num;
use jl_op::UnKind;
use jl_progress::Progress;
use jl_value::{ObjId, Value};

/// The type that is wanted of a conversion to a primitive value, if any (9.1).
#[derive(Clone, Copy)]
pub enum Hint {
    None,
    Number,
    Text,
}

/// What is asked of a data property beside its value (8.10). A field of none isn't given.
#[derive(Clone, Copy)]
pub struct Attributes {
    pub writable: Option<bool>,
    pub enumerable: Option<bool>,
    pub configurable: Option<bool>,
}

/// What a property is defined for, when it has been.
#[derive(Drop)]
pub enum AfterDefine {
    /// A put (8.12.5), which throws where it isn't done and is asked to, and then gives a value.
    Put { throwing: bool, gives: Value },
    /// A builtin, which throws where it isn't done, and then gives a value.
    Builtin { gives: Value },
    /// A literal, which goes on.
    Literal,
}

/// An algorithm of the standard that waits for a value, of a call or of a conversion to a primitive value.
#[derive(Drop)]
pub enum AlgorithmFrame {
    /// [[DefaultValue]] waits for a method (8.12.8).
    Method {
        object: ObjId,
        hint: Hint,
        is_second: bool,
    },
    /// It waits for what the method gives.
    MethodResult {
        object: ObjId,
        hint: Hint,
        is_second: bool,
    },
    /// An operator on two numbers waits for the left one.
    LeftNumber {
        op: BinOp,
        right: Value,
    },
    /// It waits for the right one.
    RightNumber {
        op: BinOp,
        left: Num,
    },
    /// `+` waits for its left operand (11.6.1).
    LeftSummand {
        right: Value,
    },
    /// It waits for the right one.
    RightSummand {
        left: Value,
    },
    /// A relation waits for its left operand (11.8.5).
    LeftCompared {
        op: BinOp,
        right: Value,
    },
    /// It waits for the right one.
    RightCompared {
        op: BinOp,
        left: Value,
    },
    /// An equality of an object with another value (11.9.3).
    EqualTo {
        other: Value,
        is_negative: bool,
    },
    /// `instanceof` waits for the prototype (15.3.5.3).
    InstanceOf {
        value: Value,
    },
    /// `in` waits for the name (11.8.7).
    In {
        object: ObjId,
    },
    /// An operator on a number (11.4).
    NumberOperand {
        op: UnKind,
    },
    /// The length of an array is converted a first time (15.4.5.1).
    LengthCount {
        array: ObjId,
        length: Value,
        attributes: Attributes,
        purpose: Boxed<AfterDefine>,
    },
    /// And a second time.
    LengthNumber {
        array: ObjId,
        count: u32,
        attributes: Attributes,
        purpose: Boxed<AfterDefine>,
    },
    /// `typeof` waits for the value of a name (11.4.3).
    TypeOf,
    /// A setter was called, or anything whose value doesn't count: this is given.
    Then(Value),
    /// A builtin.
    Builtin(Boxed<Progress>),
}
