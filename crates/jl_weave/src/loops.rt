//! The walk over loops (12.6), as that over statements.
#![tactic(auto, using(jl_ast::proofs::Views::nodes))]

ghost use Rattle.std.specs.Prelude.{◌≡◌, ◌+◌, IfOk, OnOk};
ghost use Rattle.jl_ast.specs.View.{view_statement};
ghost use Rattle.jl_op.specs.Ids.{id_count};
ghost use Rattle.jl_weave.specs.inner.Bare.{bare_statement};
ghost use Rattle.jl_weave.specs.inner.Woven.{chosen_of, woven_at, HasIds};

use crate::copies::copy_of;
use crate::expressions::{weave_expression, weave_optional, weave_test};
use crate::ids::Ids;
use crate::lists::weave_block;
use crate::statement_nodes as nodes;
use crate::statements::weave_init;
use crate::weaver::Weaver;
use jl_ast::{Expr, ForInit, Ident, Stmt, StmtKind};
use jl_op::OpKind;
use jl_text::{List, NoMemory, Span};

/// `do` with its test after it (12.6.1).
#[cycle(weaving)]
pub fn weave_do_while(
    w: &Weaver,
    s: &Stmt,
    body: &List<Stmt>,
    test: &Expr,
    ids: &mut Ids,
) -> Result<Stmt, NoMemory>
    requires is { s.now.kind ≡ StmtKind.DoWhile body.now test.now }
    requires few { HasIds ids.old.next (id_count (view_statement s.now)) }
    ensures woven { IfOk result (λ made. bare_statement made
        ≡ woven_at (chosen_of w.now) ids.old.next (view_statement s.now)) }
    ensures counted { OnOk result (ids.new.next ≡ ids.old.next + id_count (view_statement s.now)) }
{
    let id = ids.take(1);
    let body = weave_block(w, body, ids)?;
    let place = test.span;
    let test = weave_expression(w, test, ids)?;
    let test = w.hook_value(OpKind::Conditional, "C", id, test, place)?;
    Ok(nodes::do_while(body, test, s.span))
}

/// `while` (12.6.2).
#[cycle(weaving)]
pub fn weave_while(
    w: &Weaver,
    s: &Stmt,
    test: &Expr,
    body: &List<Stmt>,
    ids: &mut Ids,
) -> Result<Stmt, NoMemory>
    requires is { s.now.kind ≡ StmtKind.While test.now body.now }
    requires few { HasIds ids.old.next (id_count (view_statement s.now)) }
    ensures woven { IfOk result (λ made. bare_statement made
        ≡ woven_at (chosen_of w.now) ids.old.next (view_statement s.now)) }
    ensures counted { OnOk result (ids.new.next ≡ ids.old.next + id_count (view_statement s.now)) }
{
    let test = weave_test(w, test, ids)?;
    let body = weave_block(w, body, ids)?;
    Ok(nodes::while_loop(test, body, s.span))
}

/// `for` (12.6.3).
#[cycle(weaving)]
pub fn weave_for(
    w: &Weaver,
    s: &Stmt,
    init: &ForInit,
    test: &Option<Expr>,
    step: &Option<Expr>,
    body: &List<Stmt>,
    ids: &mut Ids,
) -> Result<Stmt, NoMemory>
    requires is { s.now.kind ≡ StmtKind.For init.now test.now step.now body.now }
    requires few { HasIds ids.old.next (id_count (view_statement s.now)) }
    ensures woven { IfOk result (λ made. bare_statement made
        ≡ woven_at (chosen_of w.now) ids.old.next (view_statement s.now)) }
    ensures counted { OnOk result (ids.new.next ≡ ids.old.next + id_count (view_statement s.now)) }
{
    let id = ids.take_one_if(test.is_some());
    let init = weave_init(w, init, ids)?;
    let place = place_of(test, s.span);
    let test = weave_optional(w, test, ids)?;
    let test = w.told_if_present(OpKind::Conditional, "C", id, test, place)?;
    let step = weave_optional(w, step, ids)?;
    let body = weave_block(w, body, ids)?;
    Ok(nodes::for_loop(init, test, step, body, s.span))
}

/// Where a part stands that may not be there.
fn place_of(e: &Option<Expr>, otherwise: Span) -> Span {
    match e {
        Some(e) => e.span,
        None => otherwise,
    }
}

/// `for` with `in` (12.6.4).
#[cycle(weaving)]
pub fn weave_for_in(
    w: &Weaver,
    s: &Stmt,
    is_var: bool,
    name: &Ident,
    object: &Expr,
    body: &List<Stmt>,
    ids: &mut Ids,
) -> Result<Stmt, NoMemory>
    requires is { s.now.kind ≡ StmtKind.ForIn is_var name.now object.now body.now }
    requires few { HasIds ids.old.next (id_count (view_statement s.now)) }
    ensures woven { IfOk result (λ made. bare_statement made
        ≡ woven_at (chosen_of w.now) ids.old.next (view_statement s.now)) }
    ensures counted { OnOk result (ids.new.next ≡ ids.old.next + id_count (view_statement s.now)) }
{
    let id = ids.take(1);
    let name = copy_of(w.alloc, name)?;
    let object = weave_expression(w, object, ids)?;
    let object = w.hook_value(OpKind::ForIn, "O", id, object, s.span)?;
    let body = weave_block(w, body, ids)?;
    Ok(nodes::for_in_loop(is_var, name, object, body, s.span))
}
