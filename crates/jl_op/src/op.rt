use crate::callee::Callee;
use crate::found::Found;
use crate::sign::UnKind;
use jl_ast::BinOp;
use jl_text::{List, Text};
use jl_value::{ObjId, Seen};

/// The number by which an operation is tied to its place in the script. A program's ids begin at 1.
#[derive(Clone, Copy)]
pub struct OpId(pub u32);

/// What a run did, with what it saw.
#[derive(Drop)]
pub enum Op {
    /// The declarations of the script are bound, and its statements begin.
    ScriptEnter,
    /// The statements of the script have ended normally.
    ScriptExit,
    /// A function of the script has been entered (10.4.3), with so many arguments.
    FunctionEnter {
        function: u32,
        this: Seen,
        args: u64,
        by_new: bool,
    },
    /// A function of the script has ended, not by a fault.
    FunctionExit {
        function: u32,
    },
    /// A number, a text, a boolean or null was evaluated.
    Literal {
        value: Seen,
    },
    /// An array literal has made an array.
    ArrayLiteral {
        obj: ObjId,
    },
    /// An object literal has made an object.
    ObjectLiteral {
        obj: ObjId,
    },
    /// A function expression has made a function.
    FunctionLiteral {
        obj: ObjId,
        function: u32,
    },
    /// A name's value was got.
    Read {
        name: Text,
        value: Seen,
    },
    /// A name is about to get a value.
    Write {
        name: Text,
        value: Seen,
    },
    /// `typeof` of a name gave a text.
    TypeofName {
        name: Text,
        result: Text,
    },
    /// A property was got.
    GetField {
        base: Seen,
        name: Text,
        value: Seen,
        found: Found,
    },
    /// A property is about to get a value.
    PutField {
        base: Seen,
        name: Text,
        value: Seen,
        found: Found,
    },
    /// A property was deleted, or may not be.
    DeleteField {
        base: Seen,
        name: Text,
        result: bool,
    },
    /// A callee that may be called so is about to be called.
    InvokePre {
        callee: ObjId,
        target: Callee,
        this: Seen,
        args: List<Seen>,
        by_new: bool,
    },
    /// A call has returned normally.
    InvokePost {
        callee: ObjId,
        result: Seen,
    },
    /// An operator between two operands gave a result.
    Binary {
        op: BinOp,
        left: Seen,
        right: Seen,
        result: Seen,
    },
    /// An operator with one operand gave a result.
    Unary {
        op: UnKind,
        operand: Seen,
        result: Seen,
    },
    /// A tested value decides what comes next.
    Conditional {
        value: Seen,
    },
    /// The object of a `for-in` statement was evaluated.
    ForIn {
        object: Seen,
    },
    /// The value of a `return` statement was evaluated.
    Return {
        value: Seen,
    },
    /// The value of a `throw` statement was evaluated.
    Throw {
        value: Seen,
    },
    /// A `catch` block begins, and its name has the value that was thrown.
    Catch {
        name: Text,
        value: Seen,
    },
}
