ghost use Rattle.std.specs.Prelude.{◌≡◌};
ghost use Rattle.jl_op.specs.Kinds.{kind_of, kind_name};

use crate::op::Op;

/// What kind of operation it is.
#[derive(Clone, Copy, PartialEq, Eq, Debug)]
pub enum OpKind {
    ScriptEnter,
    ScriptExit,
    FunctionEnter,
    FunctionExit,
    Literal,
    ArrayLiteral,
    ObjectLiteral,
    FunctionLiteral,
    Read,
    Write,
    TypeofName,
    GetField,
    PutField,
    DeleteField,
    InvokePre,
    InvokePost,
    Binary,
    Unary,
    Conditional,
    ForIn,
    Return,
    Throw,
    Catch,
}

impl Op {
    /// Its kind.
    pub fn kind(&self) -> OpKind
        ensures { result ≡ kind_of self.now }
    {
        match self {
            Op::ScriptEnter => OpKind::ScriptEnter,
            Op::ScriptExit => OpKind::ScriptExit,
            Op::FunctionEnter { .. } => OpKind::FunctionEnter,
            Op::FunctionExit { .. } => OpKind::FunctionExit,
            Op::Literal { .. } => OpKind::Literal,
            Op::ArrayLiteral { .. } => OpKind::ArrayLiteral,
            Op::ObjectLiteral { .. } => OpKind::ObjectLiteral,
            Op::FunctionLiteral { .. } => OpKind::FunctionLiteral,
            Op::Read { .. } => OpKind::Read,
            Op::Write { .. } => OpKind::Write,
            Op::TypeofName { .. } => OpKind::TypeofName,
            Op::GetField { .. } => OpKind::GetField,
            Op::PutField { .. } => OpKind::PutField,
            Op::DeleteField { .. } => OpKind::DeleteField,
            Op::InvokePre { .. } => OpKind::InvokePre,
            Op::InvokePost { .. } => OpKind::InvokePost,
            Op::Binary { .. } => OpKind::Binary,
            Op::Unary { .. } => OpKind::Unary,
            Op::Conditional { .. } => OpKind::Conditional,
            Op::ForIn { .. } => OpKind::ForIn,
            Op::Return { .. } => OpKind::Return,
            Op::Throw { .. } => OpKind::Throw,
            Op::Catch { .. } => OpKind::Catch,
        }
    }
}

impl OpKind {
    /// All kinds, each once, in the order of the variants.
    pub const ALL: [OpKind; 23] = [
        OpKind::ScriptEnter,
        OpKind::ScriptExit,
        OpKind::FunctionEnter,
        OpKind::FunctionExit,
        OpKind::Literal,
        OpKind::ArrayLiteral,
        OpKind::ObjectLiteral,
        OpKind::FunctionLiteral,
        OpKind::Read,
        OpKind::Write,
        OpKind::TypeofName,
        OpKind::GetField,
        OpKind::PutField,
        OpKind::DeleteField,
        OpKind::InvokePre,
        OpKind::InvokePost,
        OpKind::Binary,
        OpKind::Unary,
        OpKind::Conditional,
        OpKind::ForIn,
        OpKind::Return,
        OpKind::Throw,
        OpKind::Catch,
    ];

    /// How it is written.
    pub fn name(self) -> &'static str
        ensures { result.now ≡ kind_name self }
    {
        match self {
            OpKind::ScriptEnter => "ScriptEnter",
            OpKind::ScriptExit => "ScriptExit",
            OpKind::FunctionEnter => "FunctionEnter",
            OpKind::FunctionExit => "FunctionExit",
            OpKind::Literal => "Literal",
            OpKind::ArrayLiteral => "ArrayLiteral",
            OpKind::ObjectLiteral => "ObjectLiteral",
            OpKind::FunctionLiteral => "FunctionLiteral",
            OpKind::Read => "Read",
            OpKind::Write => "Write",
            OpKind::TypeofName => "TypeofName",
            OpKind::GetField => "GetField",
            OpKind::PutField => "PutField",
            OpKind::DeleteField => "DeleteField",
            OpKind::InvokePre => "InvokePre",
            OpKind::InvokePost => "InvokePost",
            OpKind::Binary => "Binary",
            OpKind::Unary => "Unary",
            OpKind::Conditional => "Conditional",
            OpKind::ForIn => "ForIn",
            OpKind::Return => "Return",
            OpKind::Throw => "Throw",
            OpKind::Catch => "Catch",
        }
    }
}
