//! The nodes of expressions and functions: each is refused where it is higher than its place allows.
#![tactic(auto, using(jl_ast::proofs::Views::nodes))]

ghost use Rattle.std.specs.Prelude.{◌≡◌, ℕ, suc, false, true, map, None, option_map, Some};
ghost use Rattle.jl_ast.specs.Height.{height as height_of};
ghost use Rattle.jl_ast.specs.Tree as tree;
ghost use Rattle.jl_ast.specs.View.{view_body, view_declarator, view_entries, view_entry, view_expression};
ghost use Rattle.jl_ast.specs.View.{view_expression_kind, view_expressions, view_function, view_functions, view_ident};
ghost use Rattle.jl_ast.specs.View.{view_items, view_statements, view_target};
ghost use Rattle.jl_grammar.specs.Next.{target_of};
ghost use Rattle.jl_grammar.specs.Operators.{infix_node};
ghost use Rattle.jl_grammar.specs.Reader.{succeed, node};
ghost use Rattle.jl_grammar.specs.Tokens.{span, terminal_at};
ghost use Rattle.jl_parse.specs.inner.Steps.{Gives, GivesExpression, MakesExpression, infix_operator_of, is_end};
ghost use Rattle.jl_parse.specs.inner.Steps.{within};

use crate::depth::Depth;
use crate::operators::InfixOperator;
use crate::part::Part;
use crate::refusal::{Read, Stop};
use crate::tokens::Tokens;
use jl_ast::{BinOp, Body, Entry, Expr, ExprKind, Function, Ident, Stmt, Target, UnOp};
use jl_text::{List, Span, Text};
use std::alloc::Global;

// An expression from one place to another, of which the highest part is so high.
fn expression_node(
    alloc: Global,
    tokens: &Tokens,
    depth: Depth,
    at: usize,
    end: usize,
    kind: ExprKind,
    height: u64,
) -> Read<Part<Box<Expr>>>
    requires { height_of (view_expression_kind kind (span tokens.now at end)) ≡ suc height }
    ensures { MakesExpression tokens.now depth at end (view_expression_kind kind) result }
{
    // What is refused lies in a box, which is let go of by a call: an expression would be, form by form.
    let span = tokens.span(at, end);
    let node = Box::new(alloc, Expr { kind, span })?;
    let height = tokens.node_height(depth, at, end, height)?;
    Ok((Part::new(node, height), end))
}

/// An expression that is one token.
pub fn leaf(alloc: Global, tokens: &Tokens, at: usize, kind: ExprKind) -> Read<Part<Box<Expr>>>
    requires there { is_end (terminal_at tokens.now at) ≡ false }
    requires low { height_of (view_expression_kind kind (span tokens.now at (suc at))) ≡ 1 }
    ensures { GivesExpression result (Some (view_expression_kind kind (span tokens.now at (suc at)), suc at)) }
{
    let end = tokens.after(at);
    let span = tokens.span(at, end);
    let node = Box::new(alloc, Expr { kind, span })?;
    Ok((Part::new(node, 1), end))
}

/// An array literal (11.1.4).
pub fn array_node(
    alloc: Global,
    tokens: &Tokens,
    depth: Depth,
    at: usize,
    items: Part<List<Option<Expr>>>,
    end: usize,
) -> Read<Part<Box<Expr>>>
    ensures { MakesExpression tokens.now depth at end (tree.array (view_items items)) result }
{
    let height = items.height();
    let kind = ExprKind::Array(items.into_node());
    expression_node(alloc, tokens, depth, at, end, kind, height)
}

/// An object literal (11.1.5).
pub fn object_node(
    alloc: Global,
    tokens: &Tokens,
    depth: Depth,
    at: usize,
    entries: Part<List<Entry>>,
    end: usize,
) -> Read<Part<Box<Expr>>>
    ensures { MakesExpression tokens.now depth at end (tree.object (view_entries entries)) result }
{
    let height = entries.height();
    let kind = ExprKind::Object(entries.into_node());
    expression_node(alloc, tokens, depth, at, end, kind, height)
}

/// `new` with its operand and its arguments (11.2.2).
pub fn new_node(
    alloc: Global,
    tokens: &Tokens,
    depth: Depth,
    at: usize,
    callee: Part<Box<Expr>>,
    arguments: Part<List<Expr>>,
    end: usize,
) -> Read<Part<Box<Expr>>>
    ensures { MakesExpression tokens.now depth at end
        (tree.new (view_expression callee.value) (view_expressions arguments)) result }
{
    let height = callee.height().max(arguments.height());
    let kind = ExprKind::New(callee.into_node(), arguments.into_node());
    expression_node(alloc, tokens, depth, at, end, kind, height)
}

/// A member by its name (11.2.1).
pub fn dot_node(
    alloc: Global,
    tokens: &Tokens,
    depth: Depth,
    at: usize,
    object: Part<Box<Expr>>,
    name: Text,
    end: usize,
) -> Read<Part<Box<Expr>>>
    ensures { MakesExpression tokens.now depth at end (tree.dot (view_expression object.value) name) result }
{
    let height = object.height();
    let kind = ExprKind::Dot(object.into_node(), name);
    expression_node(alloc, tokens, depth, at, end, kind, height)
}

/// A member by its key (11.2.1).
pub fn index_node(
    alloc: Global,
    tokens: &Tokens,
    depth: Depth,
    at: usize,
    object: Part<Box<Expr>>,
    key: Part<Box<Expr>>,
    end: usize,
) -> Read<Part<Box<Expr>>>
    ensures { MakesExpression tokens.now depth at end
        (tree.index (view_expression object.value) (view_expression key.value)) result }
{
    let height = object.height().max(key.height());
    let kind = ExprKind::Index(object.into_node(), key.into_node());
    expression_node(alloc, tokens, depth, at, end, kind, height)
}

/// A call (11.2.3).
pub fn call_node(
    alloc: Global,
    tokens: &Tokens,
    depth: Depth,
    at: usize,
    callee: Part<Box<Expr>>,
    arguments: Part<List<Expr>>,
    end: usize,
) -> Read<Part<Box<Expr>>>
    ensures { MakesExpression tokens.now depth at end
        (tree.call (view_expression callee.value) (view_expressions arguments)) result }
{
    let height = callee.height().max(arguments.height());
    let kind = ExprKind::Call(callee.into_node(), arguments.into_node());
    expression_node(alloc, tokens, depth, at, end, kind, height)
}

/// An operator before its operand (11.4).
pub fn unary_node(
    alloc: Global,
    tokens: &Tokens,
    depth: Depth,
    at: usize,
    op: UnOp,
    operand: Part<Box<Expr>>,
    end: usize,
) -> Read<Part<Box<Expr>>>
    ensures { MakesExpression tokens.now depth at end (tree.unary op (view_expression operand.value)) result }
{
    let height = operand.height();
    let kind = ExprKind::Unary(op, operand.into_node());
    expression_node(alloc, tokens, depth, at, end, kind, height)
}

/// `++` or `--` after its operand (11.3).
pub fn postfix_node(
    alloc: Global,
    tokens: &Tokens,
    depth: Depth,
    at: usize,
    up: bool,
    target: Part<Box<Target>>,
    end: usize,
) -> Read<Part<Box<Expr>>>
    ensures { MakesExpression tokens.now depth at end (tree.update up false (view_target target.value)) result }
{
    let height = target.height();
    let kind = ExprKind::Update {
        up,
        prefix: false,
        target: target.into_node(),
    };
    expression_node(alloc, tokens, depth, at, end, kind, height)
}

/// `++` or `--` before its operand (11.4.4, 11.4.5).
pub fn prefix_node(
    alloc: Global,
    tokens: &Tokens,
    depth: Depth,
    at: usize,
    up: bool,
    target: Part<Box<Target>>,
    end: usize,
) -> Read<Part<Box<Expr>>>
    ensures { MakesExpression tokens.now depth at end (tree.update up true (view_target target.value)) result }
{
    let height = target.height();
    let kind = ExprKind::Update {
        up,
        prefix: true,
        target: target.into_node(),
    };
    expression_node(alloc, tokens, depth, at, end, kind, height)
}

/// An operator between its operands (11.5 to 11.11).
pub fn infix_operator_node(
    alloc: Global,
    tokens: &Tokens,
    depth: Depth,
    at: usize,
    op: InfixOperator,
    a: Part<Box<Expr>>,
    b: Part<Box<Expr>>,
    end: usize,
) -> Read<Part<Box<Expr>>>
    ensures { MakesExpression tokens.now depth at end
        (infix_node (infix_operator_of op) (view_expression a.value) (view_expression b.value)) result }
{
    let height = a.height().max(b.height());
    let kind = op.join(a.into_node(), b.into_node());
    expression_node(alloc, tokens, depth, at, end, kind, height)
}

/// A conditional expression (11.12).
pub fn conditional_node(
    alloc: Global,
    tokens: &Tokens,
    depth: Depth,
    at: usize,
    test: Part<Box<Expr>>,
    first: Part<Box<Expr>>,
    second: Part<Box<Expr>>,
    end: usize,
) -> Read<Part<Box<Expr>>>
    ensures { MakesExpression tokens.now depth at end
        (tree.conditional (view_expression test.value) (view_expression first.value) (view_expression second.value))
        result }
{
    let height = test.height().max(first.height()).max(second.height());
    let kind = ExprKind::Cond(test.into_node(), first.into_node(), second.into_node());
    expression_node(alloc, tokens, depth, at, end, kind, height)
}

/// An assignment (11.13).
pub fn assign_node(
    alloc: Global,
    tokens: &Tokens,
    depth: Depth,
    at: usize,
    op: Option<BinOp>,
    target: Part<Box<Target>>,
    value: Part<Box<Expr>>,
    end: usize,
) -> Read<Part<Box<Expr>>>
    ensures { MakesExpression tokens.now depth at end
        (tree.assign op (view_target target.value) (view_expression value.value)) result }
{
    let height = target.height().max(value.height());
    let kind = ExprKind::Assign(op, target.into_node(), value.into_node());
    expression_node(alloc, tokens, depth, at, end, kind, height)
}

/// Two expressions with a comma between them (11.14).
pub fn comma_node(
    alloc: Global,
    tokens: &Tokens,
    depth: Depth,
    at: usize,
    a: Part<Box<Expr>>,
    b: Part<Box<Expr>>,
    end: usize,
) -> Read<Part<Box<Expr>>>
    ensures { MakesExpression tokens.now depth at end (tree.comma (view_expression a.value) (view_expression b.value))
        result }
{
    let height = a.height().max(b.height());
    let kind = ExprKind::Comma(a.into_node(), b.into_node());
    expression_node(alloc, tokens, depth, at, end, kind, height)
}

/// A function (clause 13) from one place to another.
pub fn function_node(
    tokens: &Tokens,
    depth: Depth,
    at: usize,
    name: Option<Ident>,
    params: List<Ident>,
    body: Part<Body>,
    end: usize,
) -> Read<Part<Function>>
    ensures { Gives (λ x. (view_function x.0, x.1)) result (node ((within tokens.now depth).room at)
        (tree.function 0 (option_map view_ident name) (map view_ident params) (view_body body)
        (span tokens.now at end)) end succeed) }
{
    let height = body.height();
    let height = tokens.node_height(depth, at, end, height)?;
    let function = Function {
        number: 0,
        name,
        params,
        body: body.into_node(),
        span: tokens.span(at, end),
    };
    Ok((Part::new(function, height), end))
}

/// A function as an expression (clause 13).
pub fn function_expression_node(
    alloc: Global,
    tokens: &Tokens,
    depth: Depth,
    at: usize,
    name: Option<Ident>,
    params: List<Ident>,
    body: Part<Body>,
    end: usize,
) -> Read<Part<Box<Expr>>>
    ensures { MakesExpression tokens.now depth at end (tree.function_expression
        (tree.function 0 (option_map view_ident name) (map view_ident params) (view_body body)
        (span tokens.now at end))) result }
{
    let height = body.height();
    let span = tokens.span(at, end);
    let function = Function {
        number: 0,
        name,
        params,
        body: body.into_node(),
        span,
    };
    let kind = ExprKind::Function(Box::new(alloc, function)?);
    expression_node(alloc, tokens, depth, at, end, kind, height)
}

/// What a function or a program holds (clauses 13 and 14).
pub fn body_of(
    strict: bool,
    functions: Part<List<Function>>,
    statements: Part<List<Stmt>>,
) -> Part<Body>
    ensures { view_body result ≡ tree.body strict (view_functions functions) (view_statements statements) }
{
    let height = functions.height().max(statements.height());
    let body = Body {
        strict,
        functions: functions.into_node(),
        statements: statements.into_node(),
    };
    Part::new(body, height)
}

/// A property that is a value under a key (11.1.5).
pub fn value_entry(key: Ident, e: Part<Box<Expr>>) -> Part<Entry>
    ensures { view_entry result ≡ tree.value (view_ident key) (view_expression e.value) }
{
    let height = e.height();
    Part::new(Entry::Value(key, Box::into_inner(e.into_node())), height)
}

/// A property that is read by a function (11.1.5).
pub fn getter_entry(key: Ident, f: Part<Function>) -> Part<Entry>
    ensures { view_entry result ≡ tree.getter (view_ident key) (view_function f) }
{
    let height = f.height();
    Part::new(Entry::Get(key, f.into_node()), height)
}

/// A property that is written by a function (11.1.5).
pub fn setter_entry(key: Ident, f: Part<Function>) -> Part<Entry>
    ensures { view_entry result ≡ tree.setter (view_ident key) (view_function f) }
{
    let height = f.height();
    Part::new(Entry::Set(key, f.into_node()), height)
}

/// An expression as what is assigned to (11.13); where it is neither a name nor a member, nothing can be read at the
/// token with index `at`.
pub fn target(alloc: Global, e: Part<Box<Expr>>, at: usize) -> Result<Part<Box<Target>>, Stop>
    ensures { Gives (λ t. view_target t.value) result (target_of (view_expression e.value)) }
{
    let height = e.height();
    let (kind, span) = Box::into_inner(e.into_node()).into_parts();
    match kind {
        ExprKind::Name(text) => {
            let target = Box::new(alloc, Target::Name(Ident { text, span }))?;
            Ok(Part::flat(target))
        }
        ExprKind::Dot(object, key) => {
            let object = Box::into_inner(object);
            let target = Box::new(alloc, Target::Dot(object, key, span))?;
            Ok(Part::new(target, height))
        }
        ExprKind::Index(object, key) => {
            let object = Box::into_inner(object);
            let key = Box::into_inner(key);
            let target = Box::new(alloc, Target::Index(object, key, span))?;
            Ok(Part::new(target, height))
        }
        _ => Err(Stop::At(at)),
    }
}
