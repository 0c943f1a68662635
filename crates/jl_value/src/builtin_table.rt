//! The table of builtins (clause 15): what a script finds of each before it calls it.
ghost use Rattle.std.specs.Prelude.{◌≡◌};
ghost use Rattle.jl_value.specs.Builtins.{array_entry, boolean_entry, entry_of, error_entry, function_entry};
ghost use Rattle.jl_value.specs.Builtins.{global_entry};
ghost use Rattle.jl_value.specs.Builtins.{left_out_string_method_entry, math_entry, number_entry, object_entry};
ghost use Rattle.jl_value.specs.Builtins.{string_entry};
ghost use Rattle.jl_value.specs.Builtins.{string_method_entry};
ghost use Rattle.jl_value.specs.inner.Entries.{view_entry};

use crate::builtin::{Builtin, Holder};
use crate::builtin_groups::{
    ArrayBuiltin, BooleanBuiltin, ErrorBuiltin, FunctionBuiltin, GlobalBuiltin,
    LeftOutStringMethod, MathBuiltin, NumberBuiltin, ObjectBuiltin, StringBuiltin, StringMethod,
};
use crate::object::ObjId;

/// All builtins. The row of each is its index here.
pub(crate) const BUILTINS: [Builtin; 102] = [
    Builtin::Object(ObjectBuiltin::Constructor),
    Builtin::Object(ObjectBuiltin::GetPrototypeOf),
    Builtin::Object(ObjectBuiltin::GetOwnPropertyDescriptor),
    Builtin::Object(ObjectBuiltin::GetOwnPropertyNames),
    Builtin::Object(ObjectBuiltin::Create),
    Builtin::Object(ObjectBuiltin::DefineProperty),
    Builtin::Object(ObjectBuiltin::DefineProperties),
    Builtin::Object(ObjectBuiltin::Seal),
    Builtin::Object(ObjectBuiltin::Freeze),
    Builtin::Object(ObjectBuiltin::PreventExtensions),
    Builtin::Object(ObjectBuiltin::IsSealed),
    Builtin::Object(ObjectBuiltin::IsFrozen),
    Builtin::Object(ObjectBuiltin::IsExtensible),
    Builtin::Object(ObjectBuiltin::Keys),
    Builtin::Object(ObjectBuiltin::ToString),
    Builtin::Object(ObjectBuiltin::ToLocaleString),
    Builtin::Object(ObjectBuiltin::ValueOf),
    Builtin::Object(ObjectBuiltin::HasOwnProperty),
    Builtin::Object(ObjectBuiltin::IsPrototypeOf),
    Builtin::Object(ObjectBuiltin::PropertyIsEnumerable),
    Builtin::Function(FunctionBuiltin::Constructor),
    Builtin::Function(FunctionBuiltin::Prototype),
    Builtin::Function(FunctionBuiltin::ToString),
    Builtin::Function(FunctionBuiltin::Apply),
    Builtin::Function(FunctionBuiltin::Call),
    Builtin::Function(FunctionBuiltin::Bind),
    Builtin::Function(FunctionBuiltin::Bound),
    Builtin::Function(FunctionBuiltin::Thrower),
    Builtin::Array(ArrayBuiltin::Constructor),
    Builtin::Array(ArrayBuiltin::IsArray),
    Builtin::Array(ArrayBuiltin::ToString),
    Builtin::Array(ArrayBuiltin::ToLocaleString),
    Builtin::Array(ArrayBuiltin::Concat),
    Builtin::Array(ArrayBuiltin::Join),
    Builtin::Array(ArrayBuiltin::Pop),
    Builtin::Array(ArrayBuiltin::Push),
    Builtin::Array(ArrayBuiltin::Reverse),
    Builtin::Array(ArrayBuiltin::Shift),
    Builtin::Array(ArrayBuiltin::Slice),
    Builtin::Array(ArrayBuiltin::Sort),
    Builtin::Array(ArrayBuiltin::Splice),
    Builtin::Array(ArrayBuiltin::Unshift),
    Builtin::Array(ArrayBuiltin::IndexOf),
    Builtin::Array(ArrayBuiltin::LastIndexOf),
    Builtin::Array(ArrayBuiltin::Every),
    Builtin::Array(ArrayBuiltin::Some),
    Builtin::Array(ArrayBuiltin::ForEach),
    Builtin::Array(ArrayBuiltin::Map),
    Builtin::Array(ArrayBuiltin::Filter),
    Builtin::Array(ArrayBuiltin::Reduce),
    Builtin::Array(ArrayBuiltin::ReduceRight),
    Builtin::String(StringBuiltin::Constructor),
    Builtin::String(StringBuiltin::FromCharCode),
    Builtin::String(StringBuiltin::ToString),
    Builtin::String(StringBuiltin::ValueOf),
    Builtin::StringMethod(StringMethod::CharAt),
    Builtin::StringMethod(StringMethod::CharCodeAt),
    Builtin::StringMethod(StringMethod::Concat),
    Builtin::StringMethod(StringMethod::IndexOf),
    Builtin::StringMethod(StringMethod::LastIndexOf),
    Builtin::StringMethod(StringMethod::Slice),
    Builtin::StringMethod(StringMethod::Split),
    Builtin::StringMethod(StringMethod::Substring),
    Builtin::StringMethod(StringMethod::ToLowerCase),
    Builtin::StringMethod(StringMethod::ToUpperCase),
    Builtin::StringMethod(StringMethod::Trim),
    Builtin::LeftOutStringMethod(LeftOutStringMethod::ToLocaleLowerCase),
    Builtin::LeftOutStringMethod(LeftOutStringMethod::ToLocaleUpperCase),
    Builtin::LeftOutStringMethod(LeftOutStringMethod::LocaleCompare),
    Builtin::LeftOutStringMethod(LeftOutStringMethod::Replace),
    Builtin::LeftOutStringMethod(LeftOutStringMethod::Match),
    Builtin::LeftOutStringMethod(LeftOutStringMethod::Search),
    Builtin::Global(GlobalBuiltin::Print),
    Builtin::Global(GlobalBuiltin::ConsoleLog),
    Builtin::Global(GlobalBuiltin::ParseInt),
    Builtin::Global(GlobalBuiltin::IsNaN),
    Builtin::Global(GlobalBuiltin::IsFinite),
    Builtin::Number(NumberBuiltin::Constructor),
    Builtin::Number(NumberBuiltin::ToString),
    Builtin::Number(NumberBuiltin::ValueOf),
    Builtin::Number(NumberBuiltin::ToFixed),
    Builtin::Number(NumberBuiltin::ToExponential),
    Builtin::Number(NumberBuiltin::ToPrecision),
    Builtin::Number(NumberBuiltin::ToLocaleString),
    Builtin::Boolean(BooleanBuiltin::Constructor),
    Builtin::Boolean(BooleanBuiltin::ToString),
    Builtin::Boolean(BooleanBuiltin::ValueOf),
    Builtin::Error(ErrorBuiltin::Error),
    Builtin::Error(ErrorBuiltin::EvalError),
    Builtin::Error(ErrorBuiltin::RangeError),
    Builtin::Error(ErrorBuiltin::ReferenceError),
    Builtin::Error(ErrorBuiltin::SyntaxError),
    Builtin::Error(ErrorBuiltin::TypeError),
    Builtin::Error(ErrorBuiltin::UriError),
    Builtin::Error(ErrorBuiltin::ToString),
    Builtin::Math(MathBuiltin::Abs),
    Builtin::Math(MathBuiltin::Ceil),
    Builtin::Math(MathBuiltin::Floor),
    Builtin::Math(MathBuiltin::Max),
    Builtin::Math(MathBuiltin::Min),
    Builtin::Math(MathBuiltin::Pow),
    Builtin::Math(MathBuiltin::Round),
];

/// What a script finds of a builtin before it calls it.
#[derive(Clone, Copy)]
pub(crate) struct Entry {
    /// The path by which traces, records and faults name it.
    pub(crate) path: &'static str,
    /// Its `length`: how many arguments its section names.
    pub(crate) length: u8,
    /// The object that has it as a property.
    pub(crate) holder: Holder,
    /// The prototype of what it constructs, if it is a constructor.
    pub(crate) prototype: Option<ObjId>,
}

const OBJECT: Holder = Holder::Builtin(Builtin::Object(ObjectBuiltin::Constructor));

const ARRAY: Holder = Holder::Builtin(Builtin::Array(ArrayBuiltin::Constructor));

const STRING: Holder = Holder::Builtin(Builtin::String(StringBuiltin::Constructor));

/// A function that is a property of this object.
macro_rules! method {
    ($path:literal, $length:literal, $holder:expr) => {
        Entry { path: $path, length: $length, holder: $holder, prototype: None }
    };
}

/// A constructor, which is a property of the global object.
macro_rules! constructor {
    ($path:literal, $length:literal, $prototype:expr) => {
        Entry {
            path: $path,
            length: $length,
            holder: Holder::Object(ObjId::GLOBAL),
            prototype: Some($prototype),
        }
    };
}

/// A function that is no property by the name of its own.
macro_rules! unheld {
    ($path:literal, $length:literal) => {
        Entry { path: $path, length: $length, holder: Holder::Nothing, prototype: None }
    };
}

/// The entry of a builtin of section 15.2.
fn object_entry(builtin: ObjectBuiltin) -> Entry
    ensures { view_entry result ≡ object_entry builtin }
{
    let holder = Holder::Object(ObjId::OBJECT_PROTOTYPE);
    match builtin {
        ObjectBuiltin::Constructor => constructor!("Object", 1, ObjId::OBJECT_PROTOTYPE),
        ObjectBuiltin::GetPrototypeOf => method!("Object.getPrototypeOf", 1, OBJECT),
        ObjectBuiltin::GetOwnPropertyDescriptor => method!(
            "Object.getOwnPropertyDescriptor",
            2,
            OBJECT
        ),
        ObjectBuiltin::GetOwnPropertyNames => method!("Object.getOwnPropertyNames", 1, OBJECT),
        ObjectBuiltin::Create => method!("Object.create", 2, OBJECT),
        ObjectBuiltin::DefineProperty => method!("Object.defineProperty", 3, OBJECT),
        ObjectBuiltin::DefineProperties => method!("Object.defineProperties", 2, OBJECT),
        ObjectBuiltin::Seal => method!("Object.seal", 1, OBJECT),
        ObjectBuiltin::Freeze => method!("Object.freeze", 1, OBJECT),
        ObjectBuiltin::PreventExtensions => method!("Object.preventExtensions", 1, OBJECT),
        ObjectBuiltin::IsSealed => method!("Object.isSealed", 1, OBJECT),
        ObjectBuiltin::IsFrozen => method!("Object.isFrozen", 1, OBJECT),
        ObjectBuiltin::IsExtensible => method!("Object.isExtensible", 1, OBJECT),
        ObjectBuiltin::Keys => method!("Object.keys", 1, OBJECT),
        ObjectBuiltin::ToString => method!("Object.prototype.toString", 0, holder),
        ObjectBuiltin::ToLocaleString => method!("Object.prototype.toLocaleString", 0, holder),
        ObjectBuiltin::ValueOf => method!("Object.prototype.valueOf", 0, holder),
        ObjectBuiltin::HasOwnProperty => method!("Object.prototype.hasOwnProperty", 1, holder),
        ObjectBuiltin::IsPrototypeOf => method!("Object.prototype.isPrototypeOf", 1, holder),
        ObjectBuiltin::PropertyIsEnumerable => method!(
            "Object.prototype.propertyIsEnumerable",
            1,
            holder
        ),
    }
}

/// The entry of a builtin of section 15.3.
fn function_entry(builtin: FunctionBuiltin) -> Entry
    ensures { view_entry result ≡ function_entry builtin }
{
    let holder = Holder::Object(ObjId::FUNCTION_PROTOTYPE);
    match builtin {
        FunctionBuiltin::Constructor => constructor!("Function", 1, ObjId::FUNCTION_PROTOTYPE),
        FunctionBuiltin::Prototype => unheld!("Function.prototype", 0),
        FunctionBuiltin::ToString => method!("Function.prototype.toString", 0, holder),
        FunctionBuiltin::Apply => method!("Function.prototype.apply", 2, holder),
        FunctionBuiltin::Call => method!("Function.prototype.call", 1, holder),
        FunctionBuiltin::Bind => method!("Function.prototype.bind", 1, holder),
        FunctionBuiltin::Bound => unheld!("bound", 0),
        FunctionBuiltin::Thrower => unheld!("thrower", 0),
    }
}

/// The entry of a builtin of section 15.4.
fn array_entry(builtin: ArrayBuiltin) -> Entry
    ensures { view_entry result ≡ array_entry builtin }
{
    let holder = Holder::Object(ObjId::ARRAY_PROTOTYPE);
    match builtin {
        ArrayBuiltin::Constructor => constructor!("Array", 1, ObjId::ARRAY_PROTOTYPE),
        ArrayBuiltin::IsArray => method!("Array.isArray", 1, ARRAY),
        ArrayBuiltin::ToString => method!("Array.prototype.toString", 0, holder),
        ArrayBuiltin::ToLocaleString => method!("Array.prototype.toLocaleString", 0, holder),
        ArrayBuiltin::Concat => method!("Array.prototype.concat", 1, holder),
        ArrayBuiltin::Join => method!("Array.prototype.join", 1, holder),
        ArrayBuiltin::Pop => method!("Array.prototype.pop", 0, holder),
        ArrayBuiltin::Push => method!("Array.prototype.push", 1, holder),
        ArrayBuiltin::Reverse => method!("Array.prototype.reverse", 0, holder),
        ArrayBuiltin::Shift => method!("Array.prototype.shift", 0, holder),
        ArrayBuiltin::Slice => method!("Array.prototype.slice", 2, holder),
        ArrayBuiltin::Sort => method!("Array.prototype.sort", 1, holder),
        ArrayBuiltin::Splice => method!("Array.prototype.splice", 2, holder),
        ArrayBuiltin::Unshift => method!("Array.prototype.unshift", 1, holder),
        ArrayBuiltin::IndexOf => method!("Array.prototype.indexOf", 1, holder),
        ArrayBuiltin::LastIndexOf => method!("Array.prototype.lastIndexOf", 1, holder),
        ArrayBuiltin::Every => method!("Array.prototype.every", 1, holder),
        ArrayBuiltin::Some => method!("Array.prototype.some", 1, holder),
        ArrayBuiltin::ForEach => method!("Array.prototype.forEach", 1, holder),
        ArrayBuiltin::Map => method!("Array.prototype.map", 1, holder),
        ArrayBuiltin::Filter => method!("Array.prototype.filter", 1, holder),
        ArrayBuiltin::Reduce => method!("Array.prototype.reduce", 1, holder),
        ArrayBuiltin::ReduceRight => method!("Array.prototype.reduceRight", 1, holder),
    }
}

/// The entry of a builtin of section 15.5.
fn string_entry(builtin: StringBuiltin) -> Entry
    ensures { view_entry result ≡ string_entry builtin }
{
    let holder = Holder::Object(ObjId::STRING_PROTOTYPE);
    match builtin {
        StringBuiltin::Constructor => constructor!("String", 1, ObjId::STRING_PROTOTYPE),
        StringBuiltin::FromCharCode => method!("String.fromCharCode", 1, STRING),
        StringBuiltin::ToString => method!("String.prototype.toString", 0, holder),
        StringBuiltin::ValueOf => method!("String.prototype.valueOf", 0, holder),
    }
}

/// The entry of a builtin of section 15.5.4 that begins with `this` as a string.
fn string_method_entry(method: StringMethod) -> Entry
    ensures { view_entry result ≡ string_method_entry method }
{
    let holder = Holder::Object(ObjId::STRING_PROTOTYPE);
    match method {
        StringMethod::CharAt => method!("String.prototype.charAt", 1, holder),
        StringMethod::CharCodeAt => method!("String.prototype.charCodeAt", 1, holder),
        StringMethod::Concat => method!("String.prototype.concat", 1, holder),
        StringMethod::IndexOf => method!("String.prototype.indexOf", 1, holder),
        StringMethod::LastIndexOf => method!("String.prototype.lastIndexOf", 1, holder),
        StringMethod::Slice => method!("String.prototype.slice", 2, holder),
        StringMethod::Split => method!("String.prototype.split", 2, holder),
        StringMethod::Substring => method!("String.prototype.substring", 2, holder),
        StringMethod::ToLowerCase => method!("String.prototype.toLowerCase", 0, holder),
        StringMethod::ToUpperCase => method!("String.prototype.toUpperCase", 0, holder),
        StringMethod::Trim => method!("String.prototype.trim", 0, holder),
    }
}

/// The entry of a builtin of section 15.5.4 that is left out.
fn left_out_string_method_entry(method: LeftOutStringMethod) -> Entry
    ensures { view_entry result ≡ left_out_string_method_entry method }
{
    let holder = Holder::Object(ObjId::STRING_PROTOTYPE);
    match method {
        LeftOutStringMethod::ToLocaleLowerCase => method!(
            "String.prototype.toLocaleLowerCase",
            0,
            holder
        ),
        LeftOutStringMethod::ToLocaleUpperCase => method!(
            "String.prototype.toLocaleUpperCase",
            0,
            holder
        ),
        LeftOutStringMethod::LocaleCompare => method!("String.prototype.localeCompare", 1, holder),
        LeftOutStringMethod::Replace => method!("String.prototype.replace", 2, holder),
        LeftOutStringMethod::Match => method!("String.prototype.match", 1, holder),
        LeftOutStringMethod::Search => method!("String.prototype.search", 1, holder),
    }
}

/// The entry of a builtin of section 15.1.2.
fn global_entry(builtin: GlobalBuiltin) -> Entry
    ensures { view_entry result ≡ global_entry builtin }
{
    let holder = Holder::Object(ObjId::GLOBAL);
    match builtin {
        GlobalBuiltin::Print => method!("print", 0, holder),
        GlobalBuiltin::ConsoleLog => method!("console.log", 0, Holder::Object(ObjId::CONSOLE)),
        GlobalBuiltin::ParseInt => method!("parseInt", 2, holder),
        GlobalBuiltin::IsNaN => method!("isNaN", 1, holder),
        GlobalBuiltin::IsFinite => method!("isFinite", 1, holder),
    }
}

/// The entry of a builtin of section 15.7.
fn number_entry(builtin: NumberBuiltin) -> Entry
    ensures { view_entry result ≡ number_entry builtin }
{
    let holder = Holder::Object(ObjId::NUMBER_PROTOTYPE);
    match builtin {
        NumberBuiltin::Constructor => constructor!("Number", 1, ObjId::NUMBER_PROTOTYPE),
        NumberBuiltin::ToString => method!("Number.prototype.toString", 1, holder),
        NumberBuiltin::ValueOf => method!("Number.prototype.valueOf", 0, holder),
        NumberBuiltin::ToFixed => method!("Number.prototype.toFixed", 1, holder),
        NumberBuiltin::ToExponential => method!("Number.prototype.toExponential", 1, holder),
        NumberBuiltin::ToPrecision => method!("Number.prototype.toPrecision", 1, holder),
        NumberBuiltin::ToLocaleString => method!("Number.prototype.toLocaleString", 0, holder),
    }
}

/// The entry of a builtin of section 15.6.
fn boolean_entry(builtin: BooleanBuiltin) -> Entry
    ensures { view_entry result ≡ boolean_entry builtin }
{
    let holder = Holder::Object(ObjId::BOOLEAN_PROTOTYPE);
    match builtin {
        BooleanBuiltin::Constructor => constructor!("Boolean", 1, ObjId::BOOLEAN_PROTOTYPE),
        BooleanBuiltin::ToString => method!("Boolean.prototype.toString", 0, holder),
        BooleanBuiltin::ValueOf => method!("Boolean.prototype.valueOf", 0, holder),
    }
}

/// The entry of a builtin of section 15.11.
fn error_entry(builtin: ErrorBuiltin) -> Entry
    ensures { view_entry result ≡ error_entry builtin }
{
    let holder = Holder::Object(ObjId::ERROR_PROTOTYPE);
    match builtin {
        ErrorBuiltin::Error => constructor!("Error", 1, ObjId::ERROR_PROTOTYPE),
        ErrorBuiltin::EvalError => constructor!("EvalError", 1, ObjId::EVAL_ERROR_PROTOTYPE),
        ErrorBuiltin::RangeError => constructor!("RangeError", 1, ObjId::RANGE_ERROR_PROTOTYPE),
        ErrorBuiltin::ReferenceError => constructor!(
            "ReferenceError",
            1,
            ObjId::REFERENCE_ERROR_PROTOTYPE
        ),
        ErrorBuiltin::SyntaxError => constructor!("SyntaxError", 1, ObjId::SYNTAX_ERROR_PROTOTYPE),
        ErrorBuiltin::TypeError => constructor!("TypeError", 1, ObjId::TYPE_ERROR_PROTOTYPE),
        ErrorBuiltin::UriError => constructor!("URIError", 1, ObjId::URI_ERROR_PROTOTYPE),
        ErrorBuiltin::ToString => method!("Error.prototype.toString", 0, holder),
    }
}

/// The entry of a builtin of section 15.8.2.
fn math_entry(builtin: MathBuiltin) -> Entry
    ensures { view_entry result ≡ math_entry builtin }
{
    let holder = Holder::Object(ObjId::MATH);
    match builtin {
        MathBuiltin::Abs => method!("Math.abs", 1, holder),
        MathBuiltin::Ceil => method!("Math.ceil", 1, holder),
        MathBuiltin::Floor => method!("Math.floor", 1, holder),
        MathBuiltin::Max => method!("Math.max", 2, holder),
        MathBuiltin::Min => method!("Math.min", 2, holder),
        MathBuiltin::Pow => method!("Math.pow", 2, holder),
        MathBuiltin::Round => method!("Math.round", 1, holder),
    }
}

impl Builtin {
    /// Its entry in the table.
    #[tactic(auto, unfolding(crate::specs::Builtins::entry_of))]
    pub(crate) fn entry(self) -> Entry
        ensures { view_entry result ≡ entry_of self }
    {
        match self {
            Builtin::Object(builtin) => object_entry(builtin),
            Builtin::Function(builtin) => function_entry(builtin),
            Builtin::Array(builtin) => array_entry(builtin),
            Builtin::String(builtin) => string_entry(builtin),
            Builtin::StringMethod(method) => string_method_entry(method),
            Builtin::LeftOutStringMethod(method) => left_out_string_method_entry(method),
            Builtin::Global(builtin) => global_entry(builtin),
            Builtin::Number(builtin) => number_entry(builtin),
            Builtin::Boolean(builtin) => boolean_entry(builtin),
            Builtin::Error(builtin) => error_entry(builtin),
            Builtin::Math(builtin) => math_entry(builtin),
        }
    }
}
