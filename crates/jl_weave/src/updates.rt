//! `++`, `--` and assignments (11.3, 11.4, 11.13).
#![tactic(auto, using(crate::proofs::Targets::targets))]

ghost use Rattle.std.specs.Prelude.{◌≡◌, IfOk};
ghost use Rattle.jl_ast.specs.Tree.{to_name};
ghost use Rattle.jl_op.specs.Ids.{assignment_id_count};
ghost use Rattle.jl_weave.specs.inner.Bare.{bare_expression, bare_ident, bare_target};
ghost use Rattle.jl_weave.specs.inner.Forms.{assigned_form, assignment_form, assigns_form, computes_form};
ghost use Rattle.jl_weave.specs.inner.Forms.{update_form, updated_form};
ghost use Rattle.jl_weave.specs.inner.Woven.{chosen_of, HasIds};

use crate::hook_calls::{
    assign, assign_hook, before_update, binary_hook, read, unary_hook, update_hook,
};
use crate::nodes;
use crate::weaver::Weaver;
use jl_ast::{BinOp, Expr, Ident, Target};
use jl_op::{OpKind, update_kind};
use jl_text::{NoMemory, Span};
use std::alloc::Global;

impl Weaver {
    /// Whether it is told of that a target is read, of the operation of this kind that its value is for, or that it is
    /// written.
    fn tells_computing(&self, target: &Target, kind: OpKind) -> bool
        ensures { result ≡ computes_form (chosen_of self.now) (bare_target target.now) kind }
    {
        match target {
            Target::Name(_) => {
                self.tells(OpKind::Read) || self.tells(kind) || self.tells(OpKind::Write)
            }
            Target::Dot(_, _, _) | Target::Index(_, _, _) => {
                self.tells(OpKind::GetField) || self.tells(kind) || self.tells(OpKind::PutField)
            }
        }
    }

    /// Whether an assignment to a target is told of.
    fn tells_assigning(&self, op: Option<BinOp>, target: &Target) -> bool
        ensures { result ≡ assigns_form (chosen_of self.now) op (bare_target target.now) }
    {
        match op {
            Some(_) => self.tells_computing(target, OpKind::Binary),
            None => match target {
                Target::Name(_) => self.tells(OpKind::Write),
                Target::Dot(_, _, _) | Target::Index(_, _, _) => self.tells(OpKind::PutField),
            },
        }
    }

    /// `++` or `--` of a target whose parts are woven (11.3, 11.4.4, 11.4.5).
    pub fn update(
        &self,
        id: u32,
        up: bool,
        prefix: bool,
        target: Target,
        span: Span,
    ) -> Result<Expr, NoMemory>
        requires { HasIds id 3 }
        ensures { IfOk result (λ made. bare_expression made
            ≡ update_form (chosen_of self.now) id up prefix (bare_target target)) }
    {
        if self.tells_computing(&target, OpKind::Unary) {
            let value = updated_value(self.alloc, id, up, target, span)?;
            before_update(self.alloc, up, prefix, value, span)
        } else {
            nodes::update(self.alloc, up, prefix, target, span)
        }
    }

    /// An assignment to a target whose parts are woven (11.13).
    pub fn assignment(
        &self,
        id: u32,
        op: Option<BinOp>,
        target: Target,
        e: Expr,
        span: Span,
    ) -> Result<Expr, NoMemory>
        requires { HasIds id (assignment_id_count op) }
        ensures { IfOk result (λ made. bare_expression made
            ≡ assignment_form (chosen_of self.now) id op (bare_target target) (bare_expression e)) }
    {
        if self.tells_assigning(op, &target) {
            hooked_assignment(self.alloc, id, op, target, e, span)
        } else {
            nodes::assign(self.alloc, op, target, e, span)
        }
    }
}

/// How many ids an assignment takes.
pub fn assignment_id_count(op: Option<BinOp>) -> u32
    ensures { result ≡ assignment_id_count op }
{
    match op {
        None => 1,
        Some(_) => 3,
    }
}

/// The new value of `++` or `--`, by hooks.
fn updated_value(
    alloc: Global,
    id: u32,
    up: bool,
    target: Target,
    span: Span,
) -> Result<Expr, NoMemory>
    requires { HasIds id 3 }
    ensures { IfOk result (λ made. bare_expression made ≡ updated_form id up (bare_target target)) }
{
    match target {
        Target::Name(x) => {
            let value = read(alloc, id, &x.text, span)?;
            let value = unary_hook(alloc, id + 1, update_kind(up), value, span)?;
            assign(alloc, x, id + 2, value, span)
        }
        Target::Dot(o, k, s) => update_hook(alloc, id, up, o, nodes::string(k, s), span),
        Target::Index(o, k, _) => update_hook(alloc, id, up, o, k, span),
    }
}

/// An assignment, by hooks.
fn hooked_assignment(
    alloc: Global,
    id: u32,
    op: Option<BinOp>,
    target: Target,
    e: Expr,
    span: Span,
) -> Result<Expr, NoMemory>
    requires { HasIds id (assignment_id_count op) }
    ensures { IfOk result (λ made. bare_expression made
        ≡ assigned_form id op (bare_target target) (bare_expression e)) }
{
    match target {
        Target::Name(x) => assigned_name(alloc, id, op, x, e, span),
        Target::Dot(o, k, s) => {
            let key = nodes::string(k, s);
            assign_hook(alloc, id, op, o, key, e, span)
        }
        Target::Index(o, k, _) => assign_hook(alloc, id, op, o, k, e, span),
    }
}

fn assigned_name(
    alloc: Global,
    id: u32,
    op: Option<BinOp>,
    x: Ident,
    e: Expr,
    span: Span,
) -> Result<Expr, NoMemory>
    requires { HasIds id (assignment_id_count op) }
    ensures { IfOk result (λ made. bare_expression made
        ≡ assigned_form id op (to_name (bare_ident x)) (bare_expression e)) }
{
    match op {
        None => assign(alloc, x, id, e, span),
        Some(op) => {
            let value = read(alloc, id, &x.text, span)?;
            let value = binary_hook(alloc, id + 1, op, value, e, span)?;
            assign(alloc, x, id + 2, value, span)
        }
    }
}
