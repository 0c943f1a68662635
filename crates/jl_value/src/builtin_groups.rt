//! The builtins by the sections of clause 15, each in the order of the table.

/// A function of Object or of its prototype (15.2).
#[derive(Clone, Copy, PartialEq, Eq, Debug)]
pub enum ObjectBuiltin {
    Constructor,
    GetPrototypeOf,
    GetOwnPropertyDescriptor,
    GetOwnPropertyNames,
    Create,
    DefineProperty,
    DefineProperties,
    Seal,
    Freeze,
    PreventExtensions,
    IsSealed,
    IsFrozen,
    IsExtensible,
    Keys,
    ToString,
    ToLocaleString,
    ValueOf,
    HasOwnProperty,
    IsPrototypeOf,
    PropertyIsEnumerable,
}

/// Function, its prototype and the functions of that (15.3).
#[derive(Clone, Copy, PartialEq, Eq, Debug)]
pub enum FunctionBuiltin {
    Constructor,
    Prototype,
    ToString,
    Apply,
    Call,
    Bind,
    /// Any function that `bind` made (15.3.4.5).
    Bound,
    /// The function that throws a TypeError (13.2.3).
    Thrower,
}

/// A function of Array or of its prototype (15.4).
#[derive(Clone, Copy, PartialEq, Eq, Debug)]
pub enum ArrayBuiltin {
    Constructor,
    IsArray,
    ToString,
    ToLocaleString,
    Concat,
    Join,
    Pop,
    Push,
    Reverse,
    Shift,
    Slice,
    Sort,
    Splice,
    Unshift,
    IndexOf,
    LastIndexOf,
    Every,
    Some,
    ForEach,
    Map,
    Filter,
    Reduce,
    ReduceRight,
}

/// String, `String.fromCharCode`, and what gives the string that a String object stands for (15.5).
#[derive(Clone, Copy, PartialEq, Eq, Debug)]
pub enum StringBuiltin {
    Constructor,
    FromCharCode,
    ToString,
    ValueOf,
}

/// A function of the prototype of String that begins with `this` as a string (15.5.4).
#[derive(Clone, Copy, PartialEq, Eq, Debug)]
pub enum StringMethod {
    CharAt,
    CharCodeAt,
    Concat,
    IndexOf,
    LastIndexOf,
    Slice,
    Split,
    Substring,
    ToLowerCase,
    ToUpperCase,
    Trim,
}

/// A function of the prototype of String that is left out (15.5.4).
#[derive(Clone, Copy, PartialEq, Eq, Debug)]
pub enum LeftOutStringMethod {
    ToLocaleLowerCase,
    ToLocaleUpperCase,
    LocaleCompare,
    Replace,
    Match,
    Search,
}

/// A function of the global object that constructs nothing (15.1.2), or `console.log`.
#[derive(Clone, Copy, PartialEq, Eq, Debug)]
pub enum GlobalBuiltin {
    Print,
    ConsoleLog,
    ParseInt,
    IsNaN,
    IsFinite,
}

/// Number, or a function of its prototype (15.7).
#[derive(Clone, Copy, PartialEq, Eq, Debug)]
pub enum NumberBuiltin {
    Constructor,
    ToString,
    ValueOf,
    ToFixed,
    ToExponential,
    ToPrecision,
    ToLocaleString,
}

/// Boolean, or a function of its prototype (15.6).
#[derive(Clone, Copy, PartialEq, Eq, Debug)]
pub enum BooleanBuiltin {
    Constructor,
    ToString,
    ValueOf,
}

/// Error, a native error, or `Error.prototype.toString` (15.11).
#[derive(Clone, Copy, PartialEq, Eq, Debug)]
pub enum ErrorBuiltin {
    Error,
    EvalError,
    RangeError,
    ReferenceError,
    SyntaxError,
    TypeError,
    UriError,
    ToString,
}

/// A function of Math (15.8.2).
#[derive(Clone, Copy, PartialEq, Eq, Debug)]
pub enum MathBuiltin {
    Abs,
    Ceil,
    Floor,
    Max,
    Min,
    Pow,
    Round,
}
