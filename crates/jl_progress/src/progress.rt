//! What any builtin has done so far.
use crate::array::ArrayProgress;
use crate::array_call::ArrayCallProgress;
use crate::error::ErrorProgress;
use crate::function::FunctionProgress;
use crate::global::GlobalProgress;
use crate::number::NumberProgress;
use crate::object::ObjectProgress;
use crate::string::StringProgress;
use jl_text::List;
use jl_value::{ObjId, Value};

/// What a builtin has done so far, which waits for a value.
#[derive(Drop)]
pub enum Progress {
    /// Of Object and its prototype (15.2).
    Object(ObjectProgress),
    /// Of the prototype of functions (15.3).
    Function(FunctionProgress),
    /// Of the prototype of arrays (15.4.4.2 to 15.4.4.15).
    Array(ArrayProgress),
    /// Of those that call a function for each element (15.4.4.16 to 15.4.4.22).
    ArrayCall(ArrayCallProgress),
    /// Of String and its prototype (15.5).
    String(StringProgress),
    /// Of the global object, and of printing (15.1.2).
    Global(GlobalProgress),
    /// Of Number, its prototype and Math (15.7, 15.8).
    Number(NumberProgress),
    /// Of errors and their prototype (15.11).
    Error(ErrorProgress),
    /// An array is filled, one element a turn, and then given: these values from an index on are still to come.
    Fill {
        array: ObjId,
        values: List<Value>,
        from: usize,
    },
}
