//! What a step asks of the machine.
use crate::boxed::Boxed;
use crate::frame::Here;
use crate::labels::Labels;
use jl_ast::{Expr, Stmt};
use jl_op::{Op, OpId};
use jl_text::{List, NoMemory};
use jl_value::{Completion, Fault, ObjId, Value};
use std::alloc::Global;

/// A call of an object ([[Call]]), or with `new` a construction by it ([[Construct]]) (8.6.2).
#[derive(Drop)]
pub struct Invocation {
    pub callee: ObjId,
    pub this: Value,
    pub args: List<Value>,
    pub by_new: bool,
}

/// What a step asks of the machine.
#[derive(Drop)]
pub enum Act<'p> {
    /// An expression is to be evaluated, and its value to be given to the innermost frame.
    Evaluate(&'p Expr, Here),
    /// A statement with these labels is to be executed, and its completion to be given to the innermost frame.
    Execute(&'p Stmt, Here, Labels<'p>),
    /// The innermost frame is given this value.
    Give(Value),
    /// The innermost frame is given this completion.
    Complete(Completion),
    /// A call is to be made, and its result to be given to the innermost frame.
    Call(Boxed<Invocation>),
    /// The observer is to be told of an operation, and the innermost frame goes on.
    Emit(OpId, Boxed<Op>),
    /// The run ends by a fault.
    Fault(Fault),
    /// The run ends, since no step is left.
    Spent,
}

impl<'p> Act<'p> {
    ghost use Rattle.std.specs.Prelude.{◌≡◌, IfOk};

    /// A call is to be made.
    pub fn call(alloc: Global, call: Invocation) -> Result<Act<'p>, NoMemory>
        ensures { IfOk result (λ act. act ≡ Act.Call call) }
    {
        Ok(Act::Call(Boxed::of(alloc, call)?))
    }
}
