//! What is made of the first objects that a run begins with, step by step (clause 15).
use jl_value::{
    ArrayBuiltin, BooleanBuiltin, Builtin, Class, ErrorBuiltin, FunctionBuiltin, NumberBuiltin,
    ObjId, ObjectBuiltin, StringBuiltin,
};

/// A name that no builtin has.
#[derive(Clone, Copy)]
pub(crate) enum Word {
    Console,
    Constructor,
    Length,
    Math,
    Message,
    NaN,
    Name,
    Prototype,
    Undefined,
}

/// A value that a property begins with, or that an object stands for.
#[derive(Clone, Copy)]
pub(crate) enum Initial {
    Undefined,
    NaN,
    False,
    /// The empty string.
    Empty,
    Count(u8),
    Object(ObjId),
    /// The object of a builtin.
    Function(Builtin),
    /// The path of a builtin.
    Name(Builtin),
}

/// What an object begins with beside its properties.
#[derive(Clone, Copy)]
pub(crate) enum Inside {
    Nothing,
    /// It is the function of a builtin.
    Native(Builtin),
    Wrapped(Initial),
}

/// What is made next.
#[derive(Clone, Copy)]
pub(crate) enum Step {
    Nothing,
    /// An object, with its prototype.
    Object(Class, Option<ObjId>, Inside),
    /// A property of an object that can be written and deleted.
    Changeable(ObjId, Word, Initial),
    /// A property that stays as it is.
    Constant(ObjId, Word, Initial),
    /// The functions that the table has for an object become its properties.
    Functions(ObjId),
    /// An object is extensible no more.
    Close(ObjId),
}

const OBJECT: Builtin = Builtin::Object(ObjectBuiltin::Constructor);

const FUNCTION: Builtin = Builtin::Function(FunctionBuiltin::Constructor);

const ARRAY: Builtin = Builtin::Array(ArrayBuiltin::Constructor);

const STRING: Builtin = Builtin::String(StringBuiltin::Constructor);

const NUMBER: Builtin = Builtin::Number(NumberBuiltin::Constructor);

const BOOLEAN: Builtin = Builtin::Boolean(BooleanBuiltin::Constructor);

const ERROR: Builtin = Builtin::Error(ErrorBuiltin::Error);

const EVAL_ERROR: Builtin = Builtin::Error(ErrorBuiltin::EvalError);

const RANGE_ERROR: Builtin = Builtin::Error(ErrorBuiltin::RangeError);

const REFERENCE_ERROR: Builtin = Builtin::Error(ErrorBuiltin::ReferenceError);

const SYNTAX_ERROR: Builtin = Builtin::Error(ErrorBuiltin::SyntaxError);

const TYPE_ERROR: Builtin = Builtin::Error(ErrorBuiltin::TypeError);

const URI_ERROR: Builtin = Builtin::Error(ErrorBuiltin::UriError);

/// The steps, object by object.
pub(crate) const STEPS: [Step; 59] = [
    // Object.prototype (15.2.4)
    Step::Object(Class::Object, None, Inside::Nothing),
    Step::Changeable(
        ObjId::OBJECT_PROTOTYPE,
        Word::Constructor,
        Initial::Function(OBJECT),
    ),
    Step::Functions(ObjId::OBJECT_PROTOTYPE),
    // The global object (15.1)
    Step::Object(
        Class::Object,
        Some(ObjId::OBJECT_PROTOTYPE),
        Inside::Nothing,
    ),
    Step::Constant(ObjId::GLOBAL, Word::NaN, Initial::NaN),
    Step::Constant(ObjId::GLOBAL, Word::Undefined, Initial::Undefined),
    Step::Changeable(ObjId::GLOBAL, Word::Math, Initial::Object(ObjId::MATH)),
    Step::Changeable(
        ObjId::GLOBAL,
        Word::Console,
        Initial::Object(ObjId::CONSOLE),
    ),
    Step::Functions(ObjId::GLOBAL),
    // Function.prototype (15.3.4)
    Step::Object(
        Class::Function,
        Some(ObjId::OBJECT_PROTOTYPE),
        Inside::Native(Builtin::FUNCTION_PROTOTYPE),
    ),
    Step::Changeable(
        ObjId::FUNCTION_PROTOTYPE,
        Word::Constructor,
        Initial::Function(FUNCTION),
    ),
    Step::Constant(ObjId::FUNCTION_PROTOTYPE, Word::Length, Initial::Count(0)),
    Step::Functions(ObjId::FUNCTION_PROTOTYPE),
    // Array.prototype (15.4.4), which has its length as an array
    Step::Object(Class::Array, Some(ObjId::OBJECT_PROTOTYPE), Inside::Nothing),
    Step::Changeable(
        ObjId::ARRAY_PROTOTYPE,
        Word::Constructor,
        Initial::Function(ARRAY),
    ),
    Step::Functions(ObjId::ARRAY_PROTOTYPE),
    // String.prototype (15.5.4)
    Step::Object(
        Class::String,
        Some(ObjId::OBJECT_PROTOTYPE),
        Inside::Wrapped(Initial::Empty),
    ),
    Step::Changeable(
        ObjId::STRING_PROTOTYPE,
        Word::Constructor,
        Initial::Function(STRING),
    ),
    Step::Constant(ObjId::STRING_PROTOTYPE, Word::Length, Initial::Count(0)),
    Step::Functions(ObjId::STRING_PROTOTYPE),
    // Number.prototype (15.7.4)
    Step::Object(
        Class::Number,
        Some(ObjId::OBJECT_PROTOTYPE),
        Inside::Wrapped(Initial::Count(0)),
    ),
    Step::Changeable(
        ObjId::NUMBER_PROTOTYPE,
        Word::Constructor,
        Initial::Function(NUMBER),
    ),
    Step::Functions(ObjId::NUMBER_PROTOTYPE),
    // Boolean.prototype (15.6.4)
    Step::Object(
        Class::Boolean,
        Some(ObjId::OBJECT_PROTOTYPE),
        Inside::Wrapped(Initial::False),
    ),
    Step::Changeable(
        ObjId::BOOLEAN_PROTOTYPE,
        Word::Constructor,
        Initial::Function(BOOLEAN),
    ),
    Step::Functions(ObjId::BOOLEAN_PROTOTYPE),
    // Error.prototype (15.11.4), and those of the native errors (15.11.7.7)
    Step::Object(Class::Error, Some(ObjId::OBJECT_PROTOTYPE), Inside::Nothing),
    Step::Changeable(
        ObjId::ERROR_PROTOTYPE,
        Word::Constructor,
        Initial::Function(ERROR),
    ),
    Step::Changeable(ObjId::ERROR_PROTOTYPE, Word::Name, Initial::Name(ERROR)),
    Step::Changeable(ObjId::ERROR_PROTOTYPE, Word::Message, Initial::Empty),
    Step::Functions(ObjId::ERROR_PROTOTYPE),
    Step::Object(Class::Error, Some(ObjId::ERROR_PROTOTYPE), Inside::Nothing),
    Step::Changeable(
        ObjId::EVAL_ERROR_PROTOTYPE,
        Word::Constructor,
        Initial::Function(EVAL_ERROR),
    ),
    Step::Changeable(
        ObjId::EVAL_ERROR_PROTOTYPE,
        Word::Name,
        Initial::Name(EVAL_ERROR),
    ),
    Step::Changeable(ObjId::EVAL_ERROR_PROTOTYPE, Word::Message, Initial::Empty),
    Step::Object(Class::Error, Some(ObjId::ERROR_PROTOTYPE), Inside::Nothing),
    Step::Changeable(
        ObjId::RANGE_ERROR_PROTOTYPE,
        Word::Constructor,
        Initial::Function(RANGE_ERROR),
    ),
    Step::Changeable(
        ObjId::RANGE_ERROR_PROTOTYPE,
        Word::Name,
        Initial::Name(RANGE_ERROR),
    ),
    Step::Changeable(ObjId::RANGE_ERROR_PROTOTYPE, Word::Message, Initial::Empty),
    Step::Object(Class::Error, Some(ObjId::ERROR_PROTOTYPE), Inside::Nothing),
    Step::Changeable(
        ObjId::REFERENCE_ERROR_PROTOTYPE,
        Word::Constructor,
        Initial::Function(REFERENCE_ERROR),
    ),
    Step::Changeable(
        ObjId::REFERENCE_ERROR_PROTOTYPE,
        Word::Name,
        Initial::Name(REFERENCE_ERROR),
    ),
    Step::Changeable(
        ObjId::REFERENCE_ERROR_PROTOTYPE,
        Word::Message,
        Initial::Empty,
    ),
    Step::Object(Class::Error, Some(ObjId::ERROR_PROTOTYPE), Inside::Nothing),
    Step::Changeable(
        ObjId::SYNTAX_ERROR_PROTOTYPE,
        Word::Constructor,
        Initial::Function(SYNTAX_ERROR),
    ),
    Step::Changeable(
        ObjId::SYNTAX_ERROR_PROTOTYPE,
        Word::Name,
        Initial::Name(SYNTAX_ERROR),
    ),
    Step::Changeable(ObjId::SYNTAX_ERROR_PROTOTYPE, Word::Message, Initial::Empty),
    Step::Object(Class::Error, Some(ObjId::ERROR_PROTOTYPE), Inside::Nothing),
    Step::Changeable(
        ObjId::TYPE_ERROR_PROTOTYPE,
        Word::Constructor,
        Initial::Function(TYPE_ERROR),
    ),
    Step::Changeable(
        ObjId::TYPE_ERROR_PROTOTYPE,
        Word::Name,
        Initial::Name(TYPE_ERROR),
    ),
    Step::Changeable(ObjId::TYPE_ERROR_PROTOTYPE, Word::Message, Initial::Empty),
    Step::Object(Class::Error, Some(ObjId::ERROR_PROTOTYPE), Inside::Nothing),
    Step::Changeable(
        ObjId::URI_ERROR_PROTOTYPE,
        Word::Constructor,
        Initial::Function(URI_ERROR),
    ),
    Step::Changeable(
        ObjId::URI_ERROR_PROTOTYPE,
        Word::Name,
        Initial::Name(URI_ERROR),
    ),
    Step::Changeable(ObjId::URI_ERROR_PROTOTYPE, Word::Message, Initial::Empty),
    // Math (15.8), and `console`
    Step::Object(Class::Math, Some(ObjId::OBJECT_PROTOTYPE), Inside::Nothing),
    Step::Functions(ObjId::MATH),
    Step::Object(
        Class::Object,
        Some(ObjId::OBJECT_PROTOTYPE),
        Inside::Nothing,
    ),
    Step::Functions(ObjId::CONSOLE),
];
