//! Expressions that wait for a value.
use crate::act::Invocation;
use crate::boxed::Boxed;
use crate::frame::Here;
use crate::hook::{Hook, HookId, Opener, Pending};
use crate::remaining::Remaining;
use jl_ast::{BinOp, Entry, Expr};
use jl_op::{Found, OpId, UnKind};
use jl_store::Reference;
use jl_text::{List, Text};
use jl_value::{ObjId, Value};

/// How operations come into the trace, and the id of the first of them: a hook emits them, or the script performs them.
/// The script's own have the ids 0, 1 and 2 here, since nobody is told of them.
#[derive(Clone, Copy)]
pub struct Noted {
    pub emits: bool,
    pub id: HookId,
}

/// What a name is wanted for, of a member of this base.
#[derive(Drop)]
pub enum MemberUse<'p> {
    /// Its value is got.
    Get {
        noted: Noted,
        base: Value,
    },
    /// Its value is called with arguments.
    Call {
        base: Value,
        args: &'p List<Expr>,
        here: Here,
    },
    /// It gets the value of an expression, or what an operator makes of that and its value before.
    Assign {
        base: Value,
        op: Option<BinOp>,
        value: &'p Box<Expr>,
        here: Here,
    },
    /// It is deleted.
    Delete {
        noted: Noted,
        base: Value,
        strict: bool,
    },
    /// It is made one more or one less.
    Update {
        noted: Noted,
        base: Value,
        up: bool,
        prefix: bool,
        strict: bool,
    },
    /// A second call of a hook puts a value.
    Put {
        id: HookId,
        base: Value,
        args: &'p List<Expr>,
        here: Here,
    },
    /// A second call of a hook puts what an operator makes of the value that it has now and another.
    Compute {
        id: HookId,
        op: BinOp,
        base: Value,
        args: &'p List<Expr>,
        here: Here,
    },
    /// A second call of a hook calls its value.
    Method {
        id: HookId,
        base: Value,
        args: &'p List<Expr>,
        here: Here,
    },
}

/// What arguments are evaluated for.
#[derive(Drop)]
pub enum ArgumentUse<'p> {
    /// A call, or with `new` a construction.
    Invoke {
        callee: Value,
        this: Value,
        by_new: bool,
    },
    /// A hook.
    Hook {
        id: HookId,
        hook: Hook,
    },
    /// A hook that begins a pair of calls, with the arguments of the second.
    Opener {
        id: HookId,
        opener: Opener,
        second: &'p List<Expr>,
    },
    /// The second call of a pair.
    Close(Pending),
}

/// Arguments of which some have been evaluated (11.2.4): their values, what is left to evaluate, and what is done with
/// all values.
#[derive(Drop)]
pub struct Arguments<'p> {
    pub purpose: ArgumentUse<'p>,
    pub so_far: List<Value>,
    pub rest: Remaining<'p, Expr>,
    pub here: Here,
}

/// An expression that waits for a value and gives one.
#[derive(Drop)]
pub enum ValueFrame<'p> {
    /// An array literal waits for an element (11.1.4).
    Element {
        array: ObjId,
        index: usize,
        rest: Remaining<'p, Option<Expr>>,
        here: Here,
    },
    /// An object literal waits for the value of a property (11.1.5).
    EntryValue {
        object: ObjId,
        key: &'p Text,
        rest: Remaining<'p, Entry>,
        here: Here,
    },
    /// An object literal goes on when a property has been defined.
    Entries {
        object: ObjId,
        rest: Remaining<'p, Entry>,
        here: Here,
    },
    /// `o.k` waits for o (11.2.1).
    DotBase {
        key: &'p Text,
    },
    /// `o[k]` waits for o.
    IndexBase {
        key: &'p Box<Expr>,
        here: Here,
    },
    /// `o[k]` waits for k.
    IndexKey {
        base: Value,
    },
    /// The key of a member as a primitive value (9.8).
    Key(Boxed<MemberUse<'p>>),
    /// A call waits for its callee (11.2.2, 11.2.3).
    Callee {
        this: Value,
        by_new: bool,
        args: &'p List<Expr>,
        here: Here,
    },
    /// `o.k(..)` waits for o.
    CalleeDotBase {
        key: &'p Text,
        args: &'p List<Expr>,
        here: Here,
    },
    /// `o[k](..)` waits for o.
    CalleeIndexBase {
        key: &'p Box<Expr>,
        args: &'p List<Expr>,
        here: Here,
    },
    /// `o[k](..)` waits for k.
    CalleeIndexKey {
        base: Value,
        args: &'p List<Expr>,
        here: Here,
    },
    /// An argument (11.2.4).
    Argument(Boxed<Arguments<'p>>),
    /// An operator with one operand (11.4).
    Operand {
        op: UnKind,
    },
    /// `delete` of what is no reference (11.4.1).
    DeleteValue,
    /// `delete o.k` waits for o.
    DeleteDotBase {
        key: &'p Text,
        strict: bool,
    },
    /// `delete o[k]` waits for o.
    DeleteIndexBase {
        key: &'p Box<Expr>,
        here: Here,
    },
    /// `delete o[k]` waits for k.
    DeleteIndexKey {
        base: Value,
        strict: bool,
    },
    /// An operator waits for its left operand (11.5 to 11.10).
    LeftOperand {
        op: BinOp,
        right: &'p Box<Expr>,
        here: Here,
    },
    /// An operator waits for its right operand.
    RightOperand {
        op: BinOp,
        left: Value,
    },
    /// `a && b` waits for a (11.11).
    And {
        right: &'p Box<Expr>,
        here: Here,
    },
    /// `a || b` waits for a (11.11).
    Or {
        right: &'p Box<Expr>,
        here: Here,
    },
    /// `a ? b : c` waits for a (11.12).
    Conditional {
        first: &'p Box<Expr>,
        second: &'p Box<Expr>,
        here: Here,
    },
    /// `a, b` waits for a (11.14).
    Comma {
        right: &'p Box<Expr>,
        here: Here,
    },
    /// A value that is written to a name (11.13.1, 12.2), which is the operation with this id.
    WriteName {
        id: OpId,
        name: &'p Text,
        reference: Reference,
        strict: bool,
    },
    /// `x op= e` waits for the value of x (11.13.2).
    ComputeName {
        name: &'p Text,
        reference: Reference,
        op: BinOp,
        value: &'p Box<Expr>,
        here: Here,
    },
    /// `x op= e` waits for e.
    ComputeNameOperand {
        name: &'p Text,
        reference: Reference,
        op: BinOp,
        held: Value,
        strict: bool,
    },
    /// `++` or `--` waits for the value of a name (11.3, 11.4.4, 11.4.5).
    UpdateName {
        name: &'p Text,
        reference: Reference,
        up: bool,
        prefix: bool,
        strict: bool,
    },
    /// `++` or `--` waits for that value as a primitive one.
    UpdateNamePrimitive {
        name: &'p Text,
        reference: Reference,
        up: bool,
        prefix: bool,
        strict: bool,
        held: Value,
    },
    /// An assignment to `o.k` waits for o (11.13).
    AssignDotBase {
        key: &'p Text,
        op: Option<BinOp>,
        value: &'p Box<Expr>,
        here: Here,
    },
    /// An assignment to `o[k]` waits for o.
    AssignIndexBase {
        key: &'p Expr,
        op: Option<BinOp>,
        value: &'p Box<Expr>,
        here: Here,
    },
    /// An assignment to `o[k]` waits for k.
    AssignIndexKey {
        base: Value,
        op: Option<BinOp>,
        value: &'p Box<Expr>,
        here: Here,
    },
    /// A value that is put to a member, which is the operation with this id.
    PutMember {
        emits: bool,
        id: OpId,
        base: Value,
        name: Text,
        strict: bool,
    },
    /// `o[k] op= e` waits for the value of the member.
    ComputeMember {
        base: Value,
        name: Text,
        op: BinOp,
        value: &'p Box<Expr>,
        here: Here,
    },
    /// The same of a hook, whose second call is to follow.
    ComputePending {
        id: HookId,
        op: BinOp,
        base: Value,
        name: Text,
        args: &'p List<Expr>,
        here: Here,
    },
    /// The same of a hook that has got a method.
    MethodPending {
        id: HookId,
        base: Value,
        args: &'p List<Expr>,
        here: Here,
    },
    /// `o[k] op= e` waits for e.
    ComputeMemberOperand {
        base: Value,
        name: Text,
        op: BinOp,
        held: Value,
        strict: bool,
    },
    /// `++` or `--` of a member waits for o.
    UpdateDotBase {
        key: &'p Text,
        up: bool,
        prefix: bool,
        strict: bool,
    },
    /// `++` or `--` of a member waits for o.
    UpdateIndexBase {
        key: &'p Expr,
        up: bool,
        prefix: bool,
        here: Here,
    },
    /// `++` or `--` of a member waits for k.
    UpdateIndexKey {
        base: Value,
        up: bool,
        prefix: bool,
        strict: bool,
    },
    /// `++` or `--` waits for the value of a member.
    UpdateMember {
        noted: Noted,
        base: Value,
        name: Text,
        up: bool,
        prefix: bool,
        strict: bool,
    },
    /// `++` or `--` waits for that value as a primitive one.
    UpdateMemberPrimitive {
        noted: Noted,
        base: Value,
        name: Text,
        up: bool,
        prefix: bool,
        strict: bool,
        held: Value,
    },
    /// A hook of `++` or `--` waits for its operand as a primitive value.
    UpdateOperandPrimitive {
        id: HookId,
        up: bool,
        held: Value,
    },
    /// A hook emits that a member was got.
    EmitGet {
        id: OpId,
        base: Value,
        name: Text,
        found: Found,
    },
    /// A hook emits what an operator gave.
    EmitBinary {
        id: OpId,
        op: BinOp,
        left: Value,
        right: Value,
    },
    /// A hook emits what an operator gave.
    EmitUnary {
        id: OpId,
        op: UnKind,
        operand: Value,
    },
    /// A hook emits what a call gave.
    EmitInvoke {
        id: OpId,
        callee: ObjId,
    },
    /// A construction waits for the prototype of the new object (13.2.2).
    InstancePrototype {
        function: u32,
        env: usize,
        call: Boxed<Invocation>,
    },
    /// A construction waits for what the call gives.
    Constructed {
        object: Value,
    },
}
