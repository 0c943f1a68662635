use jl_value::{ObjId, Value};

/// An own property with its attributes (8.6.1).
#[derive(Drop)]
pub enum Prop {
    /// A data property.
    Plain {
        value: Value,
        writable: bool,
        enumerable: bool,
        configurable: bool,
    },
    /// An accessor property. A getter or setter that isn't there stands for undefined.
    Accessor {
        get: Option<ObjId>,
        set: Option<ObjId>,
        enumerable: bool,
        configurable: bool,
    },
}

/// What is asked of a property: a Property Descriptor (8.10). A field of none isn't given; a getter or setter that is
/// given may be undefined.
#[derive(Drop)]
pub struct Change {
    pub value: Option<Value>,
    pub writable: Option<bool>,
    pub get: Option<Option<ObjId>>,
    pub set: Option<Option<ObjId>>,
    pub enumerable: Option<bool>,
    pub configurable: Option<bool>,
}

/// Whether a property is as it was asked for, or the change was rejected.
#[derive(Clone, Copy, PartialEq, Eq, Debug)]
pub enum Defined {
    Done,
    Rejected,
}
