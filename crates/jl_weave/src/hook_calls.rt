//! Calls of hooks: `J$.NAME(id, ..)`.
#![tactic(auto, unfolding(jl_scope::specs::Names::hooks_name))]

ghost use Rattle.std.specs.Prelude.{◌≡◌, ◌≤◌, IfOk};
ghost use Rattle.jl_ast.specs.Tree as tree;
ghost use Rattle.jl_ast.specs.Tree.{more};
ghost use Rattle.jl_op.specs.Ids.{ident_with_id};
ghost use Rattle.jl_scope.specs.Names.{hooks_name};
ghost use Rattle.jl_op.specs.UnaryKinds.{update_kind};
ghost use Rattle.jl_simulation.specs.HookCalls.{assign, assign_hook, before_update, binary_hook, hook, hook_of_1};
ghost use Rattle.jl_simulation.specs.HookCalls.{read, string_of, unary_hook, update_hook, write};
ghost use Rattle.jl_weave.specs.inner.Bare.{bare_expression, bare_expressions, bare_ident};

use crate::nodes;
use jl_ast::{BinOp, Expr, Ident};
use jl_op::{UnKind, binary_sign, update_kind};
use jl_text::{List, NoMemory, Span, Text, word};
use std::alloc::Global;

/// The function that is the hook of this name.
fn hook_function(alloc: Global, name: &str, span: Span) -> Result<Expr, NoMemory>
    ensures { IfOk result (λ made. bare_expression made ≡ tree.dot (tree.name hooks_name tt) name.now tt) }
{
    let hooks = word(alloc, "J$")?;
    let name = word(alloc, name)?;
    nodes::dot(alloc, nodes::name(hooks, span), name, span)
}

/// A call with its id, and these arguments after it.
pub fn hook_call<const N: usize>(
    alloc: Global,
    name: &str,
    id: u32,
    arguments: [Expr; N],
    span: Span,
) -> Result<Expr, NoMemory>
    requires { N ≤ 3 }
    ensures { IfOk result (λ made. bare_expression made ≡ hook name.now id (bare_expressions arguments.entry)) }
{
    let mut all = List::new(alloc);
    all.push(nodes::whole(id, span))?;
    for e in arguments {
        all.push(e)?;
    }
    let callee = hook_function(alloc, name, span)?;
    nodes::call(alloc, callee, all, span)
}

/// A call with its id, a name, and an argument.
pub fn hook_of_1(
    alloc: Global,
    name: &str,
    id: u32,
    word: &Text,
    e: Expr,
    span: Span,
) -> Result<Expr, NoMemory>
    ensures { IfOk result (λ made. bare_expression made ≡ hook_of_1 name.now id word.now (bare_expression e)) }
{
    let word = nodes::string(word.share(alloc)?, span);
    hook_call(alloc, name, id, [word, e], span)
}

/// A call with its id, the sign of an operator, and two arguments.
fn hook_of_2(
    alloc: Global,
    name: &str,
    id: u32,
    sign: &str,
    operands: [Expr; 2],
    span: Span,
) -> Result<Expr, NoMemory>
    ensures { IfOk result (λ made. bare_expression made
        ≡ hook name.now id (more (string_of sign.now) (bare_expressions operands))) }
{
    let sign = nodes::string(word(alloc, sign)?, span);
    let [a, b] = operands;
    hook_call(alloc, name, id, [sign, a, b], span)
}

/// `J$.R(id, "x", x)`.
pub fn read(alloc: Global, id: u32, x: &Text, span: Span) -> Result<Expr, NoMemory>
    ensures { IfOk result (λ made. bare_expression made ≡ read id x.now) }
{
    let value = nodes::name(x.share(alloc)?, span);
    hook_of_1(alloc, "R", id, x, value, span)
}

/// `J$.W(id, "x", e)`.
pub fn write(alloc: Global, id: u32, x: &Text, e: Expr, span: Span) -> Result<Expr, NoMemory>
    ensures { IfOk result (λ made. bare_expression made ≡ write id x.now (bare_expression e)) }
{
    hook_of_1(alloc, "W", id, x, e, span)
}

/// `x = J$.W(id, "x", e)`.
pub fn assign(alloc: Global, x: Ident, id: u32, e: Expr, span: Span) -> Result<Expr, NoMemory>
    ensures { IfOk result (λ made. bare_expression made
        ≡ assign (ident_with_id (bare_ident x) id) id (bare_expression e)) }
{
    let value = write(alloc, id, &x.text, e, span)?;
    nodes::assign(alloc, None, nodes::to_name(x), value, span)
}

/// `J$.U(id, "op", e)`.
pub fn unary_hook(
    alloc: Global,
    id: u32,
    kind: UnKind,
    e: Expr,
    span: Span,
) -> Result<Expr, NoMemory>
    ensures { IfOk result (λ made. bare_expression made ≡ unary_hook id kind (bare_expression e)) }
{
    let sign = nodes::string(word(alloc, kind.sign())?, span);
    hook_call(alloc, "U", id, [sign, e], span)
}

/// `J$.B(id, "op", a, b)`.
pub fn binary_hook(
    alloc: Global,
    id: u32,
    op: BinOp,
    a: Expr,
    b: Expr,
    span: Span,
) -> Result<Expr, NoMemory>
    ensures { IfOk result (λ made. bare_expression made ≡ binary_hook id op (bare_expression a) (bare_expression b)) }
{
    hook_of_2(alloc, "B", id, binary_sign(op), [a, b], span)
}

/// `J$.I(id, "op", o, k)`.
pub fn update_hook(
    alloc: Global,
    id: u32,
    up: bool,
    base: Expr,
    key: Expr,
    span: Span,
) -> Result<Expr, NoMemory>
    ensures { IfOk result (λ made. bare_expression made
        ≡ update_hook id up (bare_expression base) (bare_expression key)) }
{
    let sign = update_kind(up).sign();
    hook_of_2(alloc, "I", id, sign, [base, key], span)
}

/// `J$.P(id, o, k)(e)`, or `J$.A(id, "op", o, k)(e)`.
pub fn assign_hook(
    alloc: Global,
    id: u32,
    op: Option<BinOp>,
    base: Expr,
    key: Expr,
    e: Expr,
    span: Span,
) -> Result<Expr, NoMemory>
    ensures { IfOk result (λ made. bare_expression made
        ≡ assign_hook id op (bare_expression base) (bare_expression key) (bare_expression e)) }
{
    let place = [base, key];
    let mut arguments = List::new(alloc);
    arguments.push(e)?;
    let opener = match op {
        None => hook_call(alloc, "P", id, place, span)?,
        Some(op) => hook_of_2(alloc, "A", id, binary_sign(op), place, span)?,
    };
    nodes::call(alloc, opener, arguments, span)
}

/// The number before an update, by the one after it: `e - 1` or `e + 1`, and `e` where the update gives that.
pub fn before_update(
    alloc: Global,
    up: bool,
    prefix: bool,
    e: Expr,
    span: Span,
) -> Result<Expr, NoMemory>
    ensures { IfOk result (λ made. bare_expression made ≡ before_update up prefix (bare_expression e)) }
{
    if prefix {
        return Ok(e);
    }
    let op = if up { BinOp::Sub } else { BinOp::Add };
    nodes::binary(alloc, op, e, nodes::whole(1, span), span)
}
