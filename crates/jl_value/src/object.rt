/// An object, by its place among all objects, which are never given up.
#[derive(Clone, Copy, PartialEq, Eq, Debug)]
pub struct ObjId(pub usize);

/// The objects that a run begins with and that are no functions of their own (clause 15).
impl ObjId {
    /// The prototype of Object (15.2.4).
    pub const OBJECT_PROTOTYPE: ObjId = ObjId(0);

    /// The global object (15.1).
    pub const GLOBAL: ObjId = ObjId(1);

    /// The prototype of Function (15.3.4).
    pub const FUNCTION_PROTOTYPE: ObjId = ObjId(2);

    /// The prototype of Array (15.4.4).
    pub const ARRAY_PROTOTYPE: ObjId = ObjId(3);

    /// The prototype of String (15.5.4).
    pub const STRING_PROTOTYPE: ObjId = ObjId(4);

    /// The prototype of Number (15.7.4).
    pub const NUMBER_PROTOTYPE: ObjId = ObjId(5);

    /// The prototype of Boolean (15.6.4).
    pub const BOOLEAN_PROTOTYPE: ObjId = ObjId(6);

    /// The prototype of Error (15.11.4).
    pub const ERROR_PROTOTYPE: ObjId = ObjId(7);

    /// The prototype of EvalError (15.11.7.7).
    pub const EVAL_ERROR_PROTOTYPE: ObjId = ObjId(8);

    /// The prototype of RangeError (15.11.7.7).
    pub const RANGE_ERROR_PROTOTYPE: ObjId = ObjId(9);

    /// The prototype of ReferenceError (15.11.7.7).
    pub const REFERENCE_ERROR_PROTOTYPE: ObjId = ObjId(10);

    /// The prototype of SyntaxError (15.11.7.7).
    pub const SYNTAX_ERROR_PROTOTYPE: ObjId = ObjId(11);

    /// The prototype of TypeError (15.11.7.7).
    pub const TYPE_ERROR_PROTOTYPE: ObjId = ObjId(12);

    /// The prototype of URIError (15.11.7.7).
    pub const URI_ERROR_PROTOTYPE: ObjId = ObjId(13);

    /// The object Math (15.8).
    pub const MATH: ObjId = ObjId(14);

    /// The object `console`.
    pub const CONSOLE: ObjId = ObjId(15);

    /// How many there are.
    pub(crate) const INTRINSICS: usize = 16;
}

/// The class of an object, its [[Class]] (8.6.2), or `Primitive` for a value that is none.
#[derive(Clone, Copy, PartialEq, Eq, Debug)]
pub enum Class {
    Primitive,
    Object,
    Function,
    Array,
    String,
    Number,
    Boolean,
    Error,
    Arguments,
    Math,
}
