//! Members (11.2.1), as values, as callees and as what is deleted.
ghost use Rattle.std.specs.Prelude.{◌≡◌, IfOk};
ghost use Rattle.jl_simulation.specs.HookCalls.{hook_2};
ghost use Rattle.jl_simulation.specs.Weaving.{calls, calls_member, woven_member, woven_member_delete, woven_method};
ghost use Rattle.jl_weave.specs.inner.Bare.{bare_expression};
ghost use Rattle.jl_weave.specs.inner.Forms.{base_of, itself_of, key_of};
ghost use Rattle.jl_weave.specs.inner.Woven.{chosen_of};

use crate::hook_calls::hook_call;
use crate::nodes;
use crate::weaver::Weaver;
use jl_ast::{Expr, UnOp};
use jl_op::OpKind;
use jl_text::{NoMemory, Span, Text};
use std::alloc::Global;

/// A member of an object, by its name or by its key, of parts that are woven.
#[derive(Drop)]
pub enum Member {
    Dot(Expr, Text),
    Index(Expr, Expr),
}

impl Member {
    /// The object and the key, of which a name is a string.
    fn into_parts(self, span: Span) -> (Expr, Expr)
        ensures base { bare_expression result.0 ≡ base_of self }
        ensures key { bare_expression result.1 ≡ key_of self }
    {
        match self {
            Member::Dot(o, k) => (o, nodes::string(k, span)),
            Member::Index(o, k) => (o, k),
        }
    }

    /// The member as an expression.
    fn into_expression(self, alloc: Global, span: Span) -> Result<Expr, NoMemory>
        ensures { IfOk result (λ made. bare_expression made ≡ itself_of self) }
    {
        match self {
            Member::Dot(o, k) => nodes::dot(alloc, o, k, span),
            Member::Index(o, k) => nodes::index(alloc, o, k, span),
        }
    }

    /// The hook of this name, which is handed the object and the key.
    fn by_hook(self, alloc: Global, name: &str, id: u32, span: Span) -> Result<Expr, NoMemory>
        ensures { IfOk result (λ made. bare_expression made ≡ hook_2 name.now id (base_of self) (key_of self)) }
    {
        let (base, key) = self.into_parts(span);
        hook_call(alloc, name, id, [base, key], span)
    }
}

impl Weaver {
    /// Whether calls are told of.
    pub fn tells_calls(&self) -> bool
        ensures { result ≡ calls (chosen_of self.now) }
    {
        self.tells(OpKind::InvokePre) || self.tells(OpKind::InvokePost)
    }

    /// Whether calls of members are told of, or the members that are called.
    fn tells_member_calls(&self) -> bool
        ensures { result ≡ calls_member (chosen_of self.now) }
    {
        self.tells(OpKind::GetField) || self.tells_calls()
    }

    /// The value of a member.
    pub fn member(&self, id: u32, m: Member, span: Span) -> Result<Expr, NoMemory>
        ensures { IfOk result (λ made. bare_expression made
            ≡ woven_member (chosen_of self.now) id (base_of m) (key_of m) (itself_of m)) }
    {
        if self.tells(OpKind::GetField) {
            m.by_hook(self.alloc, "G", id, span)
        } else {
            m.into_expression(self.alloc, span)
        }
    }

    /// A member that is called (11.2.3).
    pub fn method(&self, id: u32, m: Member, span: Span) -> Result<Expr, NoMemory>
        ensures { IfOk result (λ made. bare_expression made
            ≡ woven_method (chosen_of self.now) id (base_of m) (key_of m) (itself_of m)) }
    {
        if self.tells_member_calls() {
            m.by_hook(self.alloc, "M", id, span)
        } else {
            m.into_expression(self.alloc, span)
        }
    }

    /// A member that is deleted (11.4.1).
    pub fn member_delete(&self, id: u32, m: Member, span: Span) -> Result<Expr, NoMemory>
        ensures { IfOk result (λ made. bare_expression made
            ≡ woven_member_delete (chosen_of self.now) id (base_of m) (key_of m) (itself_of m)) }
    {
        if self.tells(OpKind::DeleteField) {
            m.by_hook(self.alloc, "Z", id, span)
        } else {
            let itself = m.into_expression(self.alloc, span)?;
            nodes::unary(self.alloc, UnOp::Delete, itself, span)
        }
    }
}
