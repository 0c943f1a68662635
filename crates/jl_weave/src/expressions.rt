//! The walk over expressions (clause 11). Each function gives the woven part, of one whose ids are the next ones.
#![tactic(auto, using(jl_ast::proofs::Views::nodes))]

ghost use Rattle.std.specs.Prelude.{◌≡◌, ◌+◌, IfOk, OnOk};
ghost use Rattle.jl_ast.specs.Tree as tree;
ghost use Rattle.jl_ast.specs.View.{view_entry, view_expression, view_function, view_optional, view_target};
ghost use Rattle.jl_op.specs.Ids.{id_count, optional_id_count};
ghost use Rattle.jl_weave.specs.inner.Bare.{bare_entry, bare_expression, bare_function, bare_optional, bare_target};
ghost use Rattle.jl_weave.specs.inner.Woven.{callee_at, chosen_of, tested_at, woven_at, woven_if_present_at, HasIds};

use crate::copies::{copies_of, copy_if_present, copy_of};
use crate::ids::Ids;
use crate::lists::{
    weave_entries, weave_expressions, weave_functions, weave_items, weave_statements,
};
use crate::members::Member;
use crate::nodes;
use crate::updates::assignment_id_count;
use crate::weaver::Weaver;
use jl_ast::{Entry, Expr, ExprKind, Function, Target, UnOp};
use jl_op::OpKind;
use jl_text::{NoMemory, Span};

/// An expression (clause 11).
#[cycle(weaving)]
pub fn weave_expression(w: &Weaver, e: &Expr, ids: &mut Ids) -> Result<Expr, NoMemory>
    requires few { HasIds ids.old.next (id_count (view_expression e.now)) }
    ensures woven { IfOk result (λ made. bare_expression made
        ≡ woven_at (chosen_of w.now) ids.old.next (view_expression e.now)) }
    ensures counted { OnOk result (ids.new.next ≡ ids.old.next + id_count (view_expression e.now)) }
{
    let span = e.span;
    match &e.kind {
        ExprKind::This => Ok(nodes::this(span)),
        ExprKind::Name(x) => w.name(ids.take(1), x, span),
        ExprKind::Num(n) => {
            let e = nodes::number(*n, span);
            w.hook_value(OpKind::Literal, "T", ids.take(1), e, span)
        }
        ExprKind::Str(text) => {
            let e = nodes::string(text.share(w.alloc)?, span);
            w.hook_value(OpKind::Literal, "T", ids.take(1), e, span)
        }
        ExprKind::Bool(b) => {
            let e = nodes::boolean(*b, span);
            w.hook_value(OpKind::Literal, "T", ids.take(1), e, span)
        }
        ExprKind::Null => {
            let e = nodes::null(span);
            w.hook_value(OpKind::Literal, "T", ids.take(1), e, span)
        }
        ExprKind::Array(items) => {
            let id = ids.take(1);
            let items = weave_items(w, items.items(), ids)?;
            let e = nodes::array(items, span);
            w.hook_value(OpKind::ArrayLiteral, "T", id, e, span)
        }
        ExprKind::Object(entries) => {
            let id = ids.take(1);
            let entries = weave_entries(w, entries.items(), ids)?;
            let e = nodes::object(entries, span);
            w.hook_value(OpKind::ObjectLiteral, "T", id, e, span)
        }
        ExprKind::Function(f) => {
            let id = ids.take(1);
            let f = weave_function(w, f, ids)?;
            let e = nodes::function_expression(w.alloc, f, span)?;
            w.hook_value(OpKind::FunctionLiteral, "T", id, e, span)
        }
        ExprKind::Dot(o, k) => {
            let id = ids.take(1);
            let k = k.share(w.alloc)?;
            let o = weave_expression(w, o, ids)?;
            w.member(id, Member::Dot(o, k), span)
        }
        ExprKind::Index(o, k) => {
            let id = ids.take(1);
            let o = weave_expression(w, o, ids)?;
            let k = weave_expression(w, k, ids)?;
            w.member(id, Member::Index(o, k), span)
        }
        ExprKind::Call(f, arguments) => {
            let f = weave_callee(w, f, span, ids)?;
            let arguments = weave_expressions(w, arguments.items(), ids)?;
            nodes::call(w.alloc, f, arguments, span)
        }
        ExprKind::New(f, arguments) => {
            let id = ids.take(2);
            let f = weave_expression(w, f, ids)?;
            let arguments = weave_expressions(w, arguments.items(), ids)?;
            w.new_object(id, f, arguments, span)
        }
        ExprKind::Unary(op, e) => weave_unary(w, *op, e, span, ids),
        ExprKind::Update { up, prefix, target } => {
            let id = ids.take(3);
            let target = weave_target(w, target, ids)?;
            w.update(id, *up, *prefix, target, span)
        }
        ExprKind::Binary(op, a, b) => {
            let id = ids.take(1);
            let a = weave_expression(w, a, ids)?;
            let b = weave_expression(w, b, ids)?;
            w.binary(id, *op, a, b, span)
        }
        ExprKind::And(a, b) => {
            let a = weave_test(w, a, ids)?;
            let b = weave_expression(w, b, ids)?;
            nodes::and(w.alloc, a, b, span)
        }
        ExprKind::Or(a, b) => {
            let a = weave_test(w, a, ids)?;
            let b = weave_expression(w, b, ids)?;
            nodes::or(w.alloc, a, b, span)
        }
        ExprKind::Cond(test, a, b) => {
            let test = weave_test(w, test, ids)?;
            let a = weave_expression(w, a, ids)?;
            let b = weave_expression(w, b, ids)?;
            nodes::conditional(w.alloc, test, a, b, span)
        }
        ExprKind::Assign(op, target, e) => {
            let id = ids.take(assignment_id_count(*op));
            let target = weave_target(w, target, ids)?;
            let e = weave_expression(w, e, ids)?;
            w.assignment(id, *op, target, e, span)
        }
        ExprKind::Comma(a, b) => {
            let a = weave_expression(w, a, ids)?;
            let b = weave_expression(w, b, ids)?;
            nodes::comma(w.alloc, a, b, span)
        }
    }
}

/// What is tested, which takes an id before its own.
#[cycle(weaving)]
pub fn weave_test(w: &Weaver, e: &Expr, ids: &mut Ids) -> Result<Expr, NoMemory>
    requires few { HasIds ids.old.next (1 + id_count (view_expression e.now)) }
    ensures woven { IfOk result (λ made. bare_expression made
        ≡ tested_at (chosen_of w.now) ids.old.next (view_expression e.now)) }
    ensures counted { OnOk result (ids.new.next ≡ ids.old.next + 1 + id_count (view_expression e.now)) }
{
    let id = ids.take(1);
    let span = e.span;
    let e = weave_expression(w, e, ids)?;
    w.hook_value(OpKind::Conditional, "C", id, e, span)
}

/// An expression, if there is one.
#[cycle(weaving)]
pub fn weave_optional(w: &Weaver, e: &Option<Expr>, ids: &mut Ids) -> Result<Option<Expr>, NoMemory>
    requires few { HasIds ids.old.next (optional_id_count (view_optional e.now)) }
    ensures woven { IfOk result (λ made. bare_optional made
        ≡ woven_if_present_at (chosen_of w.now) ids.old.next (view_optional e.now)) }
    ensures counted { OnOk result (ids.new.next ≡ ids.old.next + optional_id_count (view_optional e.now)) }
{
    match e {
        Some(e) => Ok(Some(weave_expression(w, e, ids)?)),
        None => Ok(None),
    }
}

/// The callee of a call that stands at `span`, which takes the ids of that call too.
#[cycle(weaving)]
fn weave_callee(w: &Weaver, f: &Expr, span: Span, ids: &mut Ids) -> Result<Expr, NoMemory>
    requires few { HasIds ids.old.next (2 + id_count (view_expression f.now)) }
    ensures woven { IfOk result (λ made. bare_expression made
        ≡ callee_at (chosen_of w.now) ids.old.next (view_expression f.now)) }
    ensures counted { OnOk result (ids.new.next ≡ ids.old.next + 2 + id_count (view_expression f.now)) }
{
    match &f.kind {
        ExprKind::Dot(o, k) => {
            let id = ids.take(3);
            let k = k.share(w.alloc)?;
            let o = weave_expression(w, o, ids)?;
            w.method(id, Member::Dot(o, k), f.span)
        }
        ExprKind::Index(o, k) => {
            let id = ids.take(3);
            let o = weave_expression(w, o, ids)?;
            let k = weave_expression(w, k, ids)?;
            w.method(id, Member::Index(o, k), f.span)
        }
        _ => {
            let id = ids.take(2);
            let f = weave_expression(w, f, ids)?;
            w.callee(id, f, span)
        }
    }
}

#[cycle(weaving)]
fn weave_unary(w: &Weaver, op: UnOp, e: &Expr, span: Span, ids: &mut Ids) -> Result<Expr, NoMemory>
    requires few { HasIds ids.old.next (id_count (tree.unary op (view_expression e.now) span)) }
    ensures woven { IfOk result (λ made. bare_expression made
        ≡ woven_at (chosen_of w.now) ids.old.next (tree.unary op (view_expression e.now) span)) }
    ensures counted { OnOk result (ids.new.next
        ≡ ids.old.next + id_count (tree.unary op (view_expression e.now) span)) }
{
    match op {
        UnOp::Delete => weave_delete(w, e, span, ids),
        UnOp::Typeof => weave_typeof(w, e, span, ids),
        _ => {
            let id = ids.take(1);
            let e = weave_expression(w, e, ids)?;
            w.unary(id, op, e, span)
        }
    }
}

/// `delete` (11.4.1): a member has an id, and nothing else that is deleted.
#[cycle(weaving)]
fn weave_delete(w: &Weaver, e: &Expr, span: Span, ids: &mut Ids) -> Result<Expr, NoMemory>
    requires few { HasIds ids.old.next (id_count (tree.unary UnOp.Delete (view_expression e.now) span)) }
    ensures woven { IfOk result (λ made. bare_expression made
        ≡ woven_at (chosen_of w.now) ids.old.next (tree.unary UnOp.Delete (view_expression e.now) span)) }
    ensures counted { OnOk result (ids.new.next
        ≡ ids.old.next + id_count (tree.unary UnOp.Delete (view_expression e.now) span)) }
{
    match &e.kind {
        ExprKind::Name(x) => {
            let name = nodes::name(x.share(w.alloc)?, e.span);
            nodes::unary(w.alloc, UnOp::Delete, name, span)
        }
        ExprKind::Dot(o, k) => {
            let id = ids.take(1);
            let k = k.share(w.alloc)?;
            let o = weave_expression(w, o, ids)?;
            w.member_delete(id, Member::Dot(o, k), span)
        }
        ExprKind::Index(o, k) => {
            let id = ids.take(1);
            let o = weave_expression(w, o, ids)?;
            let k = weave_expression(w, k, ids)?;
            w.member_delete(id, Member::Index(o, k), span)
        }
        _ => {
            let e = weave_expression(w, e, ids)?;
            nodes::unary(w.alloc, UnOp::Delete, e, span)
        }
    }
}

/// `typeof` (11.4.3).
#[cycle(weaving)]
fn weave_typeof(w: &Weaver, e: &Expr, span: Span, ids: &mut Ids) -> Result<Expr, NoMemory>
    requires few { HasIds ids.old.next (id_count (tree.unary UnOp.Typeof (view_expression e.now) span)) }
    ensures woven { IfOk result (λ made. bare_expression made
        ≡ woven_at (chosen_of w.now) ids.old.next (tree.unary UnOp.Typeof (view_expression e.now) span)) }
    ensures counted { OnOk result (ids.new.next
        ≡ ids.old.next + id_count (tree.unary UnOp.Typeof (view_expression e.now) span)) }
{
    let id = ids.take(1);
    match &e.kind {
        ExprKind::Name(x) => w.typeof_name(id, x, span),
        _ => {
            let e = weave_expression(w, e, ids)?;
            w.unary(id, UnOp::Typeof, e, span)
        }
    }
}

#[cycle(weaving)]
fn weave_target(w: &Weaver, t: &Target, ids: &mut Ids) -> Result<Target, NoMemory>
    requires few { HasIds ids.old.next (id_count (view_target t.now)) }
    ensures woven { IfOk result (λ made. bare_target made
        ≡ woven_at (chosen_of w.now) ids.old.next (view_target t.now)) }
    ensures counted { OnOk result (ids.new.next ≡ ids.old.next + id_count (view_target t.now)) }
{
    match t {
        Target::Name(x) => Ok(nodes::to_name(copy_of(w.alloc, x)?)),
        Target::Dot(o, k, span) => {
            let k = k.share(w.alloc)?;
            let o = weave_expression(w, o, ids)?;
            Ok(nodes::to_dot(o, k, *span))
        }
        Target::Index(o, k, span) => {
            let o = weave_expression(w, o, ids)?;
            let k = weave_expression(w, k, ids)?;
            Ok(nodes::to_index(o, k, *span))
        }
    }
}

/// A property of an object literal (11.1.5).
#[cycle(weaving)]
pub fn weave_entry(w: &Weaver, p: &Entry, ids: &mut Ids) -> Result<Entry, NoMemory>
    requires few { HasIds ids.old.next (id_count (view_entry p.now)) }
    ensures woven { IfOk result (λ made. bare_entry made
        ≡ woven_at (chosen_of w.now) ids.old.next (view_entry p.now)) }
    ensures counted { OnOk result (ids.new.next ≡ ids.old.next + id_count (view_entry p.now)) }
{
    match p {
        Entry::Value(k, e) => {
            let k = copy_of(w.alloc, k)?;
            let e = weave_expression(w, e, ids)?;
            Ok(nodes::value(k, e))
        }
        Entry::Get(k, f) => {
            let k = copy_of(w.alloc, k)?;
            let f = weave_function(w, f, ids)?;
            Ok(nodes::getter(k, f))
        }
        Entry::Set(k, f) => {
            let k = copy_of(w.alloc, k)?;
            let f = weave_function(w, f, ids)?;
            Ok(nodes::setter(k, f))
        }
    }
}

/// A function (clause 13), whose body tells that it is entered and left.
#[cycle(weaving)]
pub fn weave_function(w: &Weaver, f: &Function, ids: &mut Ids) -> Result<Function, NoMemory>
    requires few { HasIds ids.old.next (id_count (view_function f.now)) }
    ensures woven { IfOk result (λ made. bare_function made
        ≡ woven_at (chosen_of w.now) ids.old.next (view_function f.now)) }
    ensures counted { OnOk result (ids.new.next ≡ ids.old.next + id_count (view_function f.now)) }
{
    let id = ids.take(2);
    let name = copy_if_present(w.alloc, &f.name)?;
    let params = copies_of(w.alloc, f.params.items())?;
    let functions = weave_functions(w, f.body.functions.items(), ids)?;
    let first = w.entry(id, f.span)?;
    let statements = weave_statements(w, f.body.statements.items(), first, ids)?;
    let statements = w.with_leave_hook(id, statements, f.span)?;
    Ok(nodes::function(
        f.number,
        f.body.strict,
        name,
        params,
        functions,
        statements,
        f.span,
    ))
}
