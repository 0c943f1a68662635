//! What is left to do of the parts of a program that were begun.
use crate::act::Invocation;
use crate::algorithm_frame::AlgorithmFrame;
use crate::boxed::Boxed;
use crate::hook::CallId;
use crate::statement_frame::{CompletionFrame, StatementFrame};
use crate::value_frame::ValueFrame;
use jl_op::OpId;
use jl_text::Text;
use jl_value::Value;

/// The environment of a piece of code (10.3), by its index, and whether the code is strict (10.1.1).
#[derive(Clone, Copy)]
pub struct Here {
    pub env: usize,
    pub strict: bool,
}

/// What follows once the observer has been told of an operation, where that is more than to give a value.
#[derive(Drop)]
pub enum EmitFrame {
    /// A value is put to a member, and another one given.
    Put {
        base: Value,
        name: Text,
        value: Value,
        strict: bool,
        gives: Value,
    },
    /// A hook puts a value to a member, which it emits first, with this id, and another one is given.
    PutMember {
        id: OpId,
        base: Value,
        name: Text,
        value: Value,
        strict: bool,
        gives: Value,
    },
    /// A call is made, and what it gives is emitted.
    Invoke {
        id: CallId,
        call: Invocation,
    },
}

/// What is left to do of a part that was begun.
#[derive(Drop)]
pub enum Frame<'p> {
    Value(ValueFrame<'p>),
    Algorithm(AlgorithmFrame),
    Statement(StatementFrame<'p>),
    Completion(CompletionFrame<'p>),
    Told(Boxed<EmitFrame>),
    /// A value is given, once the observer has been told of an operation.
    Give(Value),
    /// The body of a function, in the innermost of the calls that are running (13.2.1).
    Body,
}
