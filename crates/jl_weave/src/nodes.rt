//! The nodes of expressions and functions (clauses 11 and 13).
#![tactic(auto, using(jl_ast::proofs::Views::nodes, crate::proofs::ListViews::lists), unfolding(crate::specs::inner::Bare::bare_expression, crate::specs::inner::Bare::bare_target, crate::specs::inner::Bare::bare_entry, crate::specs::inner::Bare::bare_function, crate::specs::inner::Bare::bare_statement))]

ghost use Rattle.std.specs.Prelude.{◌≡◌, map, option_map, pos, IfOk, Some};
ghost use Rattle.jl_ast.specs.Tree as tree;
ghost use Rattle.jl_weave.specs.inner.Bare.{bare_entries, bare_entry, bare_expression, bare_expressions};
ghost use Rattle.jl_weave.specs.inner.Bare.{bare_function, bare_functions, bare_ident, bare_items, bare_statements};
ghost use Rattle.jl_weave.specs.inner.Bare.{bare_target};

use jl_ast::{BinOp, Body, Entry, Expr, ExprKind, Function, Ident, Stmt, Target, UnOp};
use jl_num::Num;
use jl_text::{List, NoMemory, Span, Text};
use std::alloc::Global;

/// Two operands, each in a box.
fn boxed(alloc: Global, a: Expr, b: Expr) -> Result<(Box<Expr>, Box<Expr>), NoMemory>
    ensures first { IfOk result (λ made. made.0.value ≡ a) }
    ensures second { IfOk result (λ made. made.1.value ≡ b) }
{
    Ok((Box::new(alloc, a)?, Box::new(alloc, b)?))
}

/// `this` (11.1.1).
pub fn this(span: Span) -> Expr
    ensures { bare_expression result ≡ tree.this tt }
{
    Expr {
        kind: ExprKind::This,
        span,
    }
}

/// A name (11.1.2).
pub fn name(text: Text, span: Span) -> Expr
    ensures { bare_expression result ≡ tree.name text tt }
{
    Expr {
        kind: ExprKind::Name(text),
        span,
    }
}

/// A number (11.1.3).
pub fn number(n: Num, span: Span) -> Expr
    ensures { bare_expression result ≡ tree.number n tt }
{
    Expr {
        kind: ExprKind::Num(n),
        span,
    }
}

/// A whole number.
pub fn whole(n: u32, span: Span) -> Expr
    ensures { bare_expression result ≡ tree.number (Some (pos n)) tt }
{
    match Num::new(i64::from(n)) {
        Ok(n) => number(n, span),
        Err(_) => unreachable!(),
    }
}

/// A string (11.1.3).
pub fn string(text: Text, span: Span) -> Expr
    ensures { bare_expression result ≡ tree.string text tt }
{
    Expr {
        kind: ExprKind::Str(text),
        span,
    }
}

/// `true` or `false` (11.1.3).
pub fn boolean(b: bool, span: Span) -> Expr
    ensures { bare_expression result ≡ tree.boolean b tt }
{
    Expr {
        kind: ExprKind::Bool(b),
        span,
    }
}

/// `null` (11.1.3).
pub fn null(span: Span) -> Expr
    ensures { bare_expression result ≡ tree.null tt }
{
    Expr {
        kind: ExprKind::Null,
        span,
    }
}

/// An array literal (11.1.4).
pub fn array(items: List<Option<Expr>>, span: Span) -> Expr
    ensures { bare_expression result ≡ tree.array (bare_items items) tt }
{
    Expr {
        kind: ExprKind::Array(items),
        span,
    }
}

/// An object literal (11.1.5).
pub fn object(entries: List<Entry>, span: Span) -> Expr
    ensures { bare_expression result ≡ tree.object (bare_entries entries) tt }
{
    Expr {
        kind: ExprKind::Object(entries),
        span,
    }
}

/// A function expression (clause 13).
pub fn function_expression(alloc: Global, f: Function, span: Span) -> Result<Expr, NoMemory>
    ensures { IfOk result (λ made. bare_expression made ≡ tree.function_expression (bare_function f) tt) }
{
    let kind = ExprKind::Function(Box::new(alloc, f)?);
    Ok(Expr { kind, span })
}

/// A member by its name (11.2.1).
pub fn dot(alloc: Global, o: Expr, k: Text, span: Span) -> Result<Expr, NoMemory>
    ensures { IfOk result (λ made. bare_expression made ≡ tree.dot (bare_expression o) k tt) }
{
    let kind = ExprKind::Dot(Box::new(alloc, o)?, k);
    Ok(Expr { kind, span })
}

/// A member by its key (11.2.1).
pub fn index(alloc: Global, o: Expr, k: Expr, span: Span) -> Result<Expr, NoMemory>
    ensures { IfOk result (λ made. bare_expression made ≡ tree.index (bare_expression o) (bare_expression k) tt) }
{
    let (o, k) = boxed(alloc, o, k)?;
    let kind = ExprKind::Index(o, k);
    Ok(Expr { kind, span })
}

/// A call (11.2.3).
pub fn call(alloc: Global, f: Expr, l: List<Expr>, span: Span) -> Result<Expr, NoMemory>
    ensures { IfOk result (λ made. bare_expression made ≡ tree.call (bare_expression f) (bare_expressions l) tt) }
{
    let kind = ExprKind::Call(Box::new(alloc, f)?, l);
    Ok(Expr { kind, span })
}

/// `new` with its operand and its arguments (11.2.2).
pub fn new(alloc: Global, f: Expr, l: List<Expr>, span: Span) -> Result<Expr, NoMemory>
    ensures { IfOk result (λ made. bare_expression made ≡ tree.new (bare_expression f) (bare_expressions l) tt) }
{
    let kind = ExprKind::New(Box::new(alloc, f)?, l);
    Ok(Expr { kind, span })
}

/// An operator before its operand (11.4).
pub fn unary(alloc: Global, op: UnOp, e: Expr, span: Span) -> Result<Expr, NoMemory>
    ensures { IfOk result (λ made. bare_expression made ≡ tree.unary op (bare_expression e) tt) }
{
    let kind = ExprKind::Unary(op, Box::new(alloc, e)?);
    Ok(Expr { kind, span })
}

/// `++` or `--`, before or after its target (11.3, 11.4).
pub fn update(
    alloc: Global,
    up: bool,
    prefix: bool,
    target: Target,
    span: Span,
) -> Result<Expr, NoMemory>
    ensures { IfOk result (λ made. bare_expression made ≡ tree.update up prefix (bare_target target) tt) }
{
    let target = Box::new(alloc, target)?;
    let kind = ExprKind::Update { up, prefix, target };
    Ok(Expr { kind, span })
}

/// An operator between its operands (11.5 to 11.10).
pub fn binary(alloc: Global, op: BinOp, a: Expr, b: Expr, span: Span) -> Result<Expr, NoMemory>
    ensures { IfOk result (λ made. bare_expression made ≡ tree.binary op (bare_expression a) (bare_expression b) tt) }
{
    let (a, b) = boxed(alloc, a, b)?;
    let kind = ExprKind::Binary(op, a, b);
    Ok(Expr { kind, span })
}

/// `&&` (11.11).
pub fn and(alloc: Global, a: Expr, b: Expr, span: Span) -> Result<Expr, NoMemory>
    ensures { IfOk result (λ made. bare_expression made ≡ tree.and (bare_expression a) (bare_expression b) tt) }
{
    let (a, b) = boxed(alloc, a, b)?;
    let kind = ExprKind::And(a, b);
    Ok(Expr { kind, span })
}

/// `||` (11.11).
pub fn or(alloc: Global, a: Expr, b: Expr, span: Span) -> Result<Expr, NoMemory>
    ensures { IfOk result (λ made. bare_expression made ≡ tree.or (bare_expression a) (bare_expression b) tt) }
{
    let (a, b) = boxed(alloc, a, b)?;
    let kind = ExprKind::Or(a, b);
    Ok(Expr { kind, span })
}

/// `? :` (11.12).
pub fn conditional(
    alloc: Global,
    test: Expr,
    a: Expr,
    b: Expr,
    span: Span,
) -> Result<Expr, NoMemory>
    ensures { IfOk result (λ made. bare_expression made
        ≡ tree.conditional (bare_expression test) (bare_expression a) (bare_expression b) tt) }
{
    let (a, b) = boxed(alloc, a, b)?;
    let kind = ExprKind::Cond(Box::new(alloc, test)?, a, b);
    Ok(Expr { kind, span })
}

/// An assignment, with an operator or without (11.13).
pub fn assign(
    alloc: Global,
    op: Option<BinOp>,
    target: Target,
    e: Expr,
    span: Span,
) -> Result<Expr, NoMemory>
    ensures { IfOk result (λ made. bare_expression made ≡ tree.assign op (bare_target target) (bare_expression e) tt) }
{
    let target = Box::new(alloc, target)?;
    let kind = ExprKind::Assign(op, target, Box::new(alloc, e)?);
    Ok(Expr { kind, span })
}

/// Two expressions with a comma between them (11.14).
pub fn comma(alloc: Global, a: Expr, b: Expr, span: Span) -> Result<Expr, NoMemory>
    ensures { IfOk result (λ made. bare_expression made ≡ tree.comma (bare_expression a) (bare_expression b) tt) }
{
    let (a, b) = boxed(alloc, a, b)?;
    let kind = ExprKind::Comma(a, b);
    Ok(Expr { kind, span })
}

/// A name that is assigned to (11.13).
pub fn to_name(x: Ident) -> Target
    ensures { bare_target result ≡ tree.to_name (bare_ident x) }
{
    Target::Name(x)
}

/// A member by its name that is assigned to (11.13).
pub fn to_dot(o: Expr, k: Text, span: Span) -> Target
    ensures { bare_target result ≡ tree.to_dot (bare_expression o) k tt }
{
    Target::Dot(o, k, span)
}

/// A member by its key that is assigned to (11.13).
pub fn to_index(o: Expr, k: Expr, span: Span) -> Target
    ensures { bare_target result ≡ tree.to_index (bare_expression o) (bare_expression k) tt }
{
    Target::Index(o, k, span)
}

/// A property with its value (11.1.5).
pub fn value(k: Ident, e: Expr) -> Entry
    ensures { bare_entry result ≡ tree.value (bare_ident k) (bare_expression e) }
{
    Entry::Value(k, e)
}

/// A property with its getter (11.1.5).
pub fn getter(k: Ident, f: Function) -> Entry
    ensures { bare_entry result ≡ tree.getter (bare_ident k) (bare_function f) }
{
    Entry::Get(k, f)
}

/// A property with its setter (11.1.5).
pub fn setter(k: Ident, f: Function) -> Entry
    ensures { bare_entry result ≡ tree.setter (bare_ident k) (bare_function f) }
{
    Entry::Set(k, f)
}

/// A function (clause 13).
pub fn function(
    number: u32,
    strict: bool,
    name: Option<Ident>,
    params: List<Ident>,
    functions: List<Function>,
    statements: List<Stmt>,
    span: Span,
) -> Function
    ensures { bare_function result ≡ tree.function number (option_map bare_ident name) (map bare_ident params)
        (tree.body strict (bare_functions functions) (bare_statements statements)) tt }
{
    let body = Body {
        strict,
        functions,
        statements,
    };
    Function {
        number,
        name,
        params,
        body,
        span,
    }
}
