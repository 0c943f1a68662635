//! Calls of hooks, by what they are asked for.
ghost use Rattle.std.specs.Prelude.{◌≡◌, ◌+◌, ◌<◌, ◌≤◌, MatchOption};

use jl_ast::BinOp;
use jl_op::{OpId, UnKind};
use jl_text::Text;
use jl_value::Value;

/// The id in a call of a hook, which is below 2^32 - 2, so that the two after it are ids too.
#[derive(Clone, Copy)]
pub struct HookId {
    id: u32,
    ghost below: { id < 4294967294 },
}

/// The id of the first of the two operations of a call that a hook makes.
#[derive(Clone, Copy)]
pub struct CallId {
    pre: u32,
    ghost below: { pre < 4294967295 },
}

impl HookId {
    /// The id of a call of a hook, if it is one.
    pub fn new(id: u32) -> Option<HookId>
        ensures { MatchOption result (4294967294 ≤ id) (λ made. made.id ≡ id) }
    {
        if id < 4_294_967_294 {
            Some(HookId { id })
        } else {
            None
        }
    }

    /// The first id of the script's own operations, which a machine that is told by hooks alone doesn't look at.
    pub fn own() -> HookId
        ensures { result.id ≡ 0 }
    {
        HookId { id: 0 }
    }

    /// The id of the hook's first operation.
    pub fn first(self) -> OpId
        ensures { result ≡ record { 0 = self.id } }
    {
        OpId(self.id)
    }

    /// The id of its second operation.
    pub fn second(self) -> OpId
        ensures { result ≡ record { 0 = self.id + 1 } }
    {
        OpId(self.id + 1)
    }

    /// The id of its third operation.
    pub fn third(self) -> OpId
        ensures { result ≡ record { 0 = self.id + 2 } }
    {
        OpId(self.id + 2)
    }

    /// The id of a call that is the hook's first operation.
    pub fn call(self) -> CallId
        ensures { result.pre ≡ self.id }
    {
        CallId { pre: self.id }
    }

    /// The id of a call that comes after the hook's first operation.
    pub fn call_after_get(self) -> CallId
        ensures { result.pre ≡ self.id + 1 }
    {
        CallId { pre: self.id + 1 }
    }
}

impl CallId {
    /// The id with which the call is told of before it is made.
    pub fn pre(self) -> OpId
        ensures { result ≡ record { 0 = self.pre } }
    {
        OpId(self.pre)
    }

    /// The id with which it is told of when it has returned.
    pub fn post(self) -> OpId
        ensures { result ≡ record { 0 = self.pre + 1 } }
    {
        OpId(self.pre + 1)
    }
}

/// What a hook is asked for that gives a value.
#[derive(Drop)]
pub enum Hook {
    EntersScript,
    ExitsScript,
    EntersFunction,
    ExitsFunction,
    Makes,
    Reads(Text),
    Writes(Text),
    Types(Text),
    Catches(Text),
    Tests,
    Visits,
    Returns,
    Throws,
    Binary(BinOp),
    Unary(UnKind),
    Gets,
    Deletes,
    /// `++` of a member, or `--` where it doesn't go up.
    Updates { up: bool },
}

/// What a hook is asked for that begins a pair of calls, of which the first prepares what the second does.
#[derive(Clone, Copy)]
pub enum Opener {
    Put,
    Assign(BinOp),
    Call,
    New,
    Method,
}

/// What the first call of a pair has prepared.
#[derive(Drop)]
pub enum Pending {
    Put {
        id: HookId,
        base: Value,
        name: Text,
    },
    Assign {
        id: HookId,
        op: BinOp,
        base: Value,
        name: Text,
        held: Value,
    },
    Call {
        id: CallId,
        callee: Value,
        this: Value,
    },
    New {
        id: CallId,
        callee: Value,
    },
}
