//! The nodes of statements: each is refused where it is higher than its place allows.
#![tactic(auto, using(jl_ast::proofs::Views::nodes))]

ghost use Rattle.std.specs.Prelude.{◌≡◌, ◌≤◌, suc, None, Ok, option_map, Some};
ghost use Rattle.jl_ast.specs.Height.{height as height_of};
ghost use Rattle.jl_ast.specs.Tree as tree;
ghost use Rattle.jl_ast.specs.View.{view_case, view_cases, view_declarator, view_declarators, view_expression};
ghost use Rattle.jl_ast.specs.View.{view_ident};
ghost use Rattle.jl_ast.specs.View.{view_init, view_optional, view_statement, view_statement_kind, view_statements};
ghost use Rattle.jl_grammar.specs.Tokens.{span};
ghost use Rattle.jl_parse.specs.inner.Steps.{MakesStatement, within};

use crate::depth::Depth;
use crate::part::Part;
use crate::refusal::Read;
use crate::tokens::Tokens;
use jl_ast::{Case, Expr, ForInit, Ident, Stmt, StmtKind};
use jl_text::List;
use std::alloc::Global;

// A statement from one place to another that is so high, which its place allows.
fn statement_node(
    tokens: &Tokens,
    depth: Depth,
    at: usize,
    end: usize,
    kind: StmtKind,
    height: u64,
) -> (Part<Stmt>, usize)
    requires high { height_of (view_statement_kind kind (span tokens.now at end)) ≡ height }
    requires low { height ≤ suc ((within tokens.now depth).room at) }
    ensures { MakesStatement tokens.now depth at end (view_statement_kind kind) (Ok result) }
{
    let span = tokens.span(at, end);
    (Part::new(Stmt { kind, span }, height), end)
}

/// A statement without parts.
pub fn leaf_statement(tokens: &Tokens, at: usize, end: usize, kind: StmtKind) -> Part<Stmt>
    requires { height_of (view_statement_kind kind (span tokens.now at end)) ≡ 1 }
    ensures { view_statement result ≡ view_statement_kind kind (span tokens.now at end) }
{
    let span = tokens.span(at, end);
    Part::new(Stmt { kind, span }, 1)
}

/// A block as a statement (12.1).
pub fn block_node(
    tokens: &Tokens,
    depth: Depth,
    at: usize,
    body: Part<List<Stmt>>,
    end: usize,
) -> Read<Part<Stmt>>
    ensures { MakesStatement tokens.now depth at end (tree.block (view_statements body)) result }
{
    let height = body.height();
    let height = tokens.node_height(depth, at, end, height)?;
    let kind = StmtKind::Block(body.into_node());
    Ok(statement_node(tokens, depth, at, end, kind, height))
}

/// A `var` statement (12.2).
pub fn var_node(
    tokens: &Tokens,
    depth: Depth,
    at: usize,
    declarators: Part<List<(Ident, Option<Expr>)>>,
    end: usize,
) -> Read<Part<Stmt>>
    ensures { MakesStatement tokens.now depth at end (tree.var (view_declarators declarators)) result }
{
    let height = declarators.height();
    let height = tokens.node_height(depth, at, end, height)?;
    let kind = StmtKind::Var(declarators.into_node());
    Ok(statement_node(tokens, depth, at, end, kind, height))
}

/// An expression statement (12.4).
pub fn expression_statement_node(
    tokens: &Tokens,
    depth: Depth,
    at: usize,
    e: Part<Box<Expr>>,
    end: usize,
) -> Read<Part<Stmt>>
    ensures { MakesStatement tokens.now depth at end (tree.expression (view_expression e.value)) result }
{
    let height = e.height();
    let height = tokens.node_height(depth, at, end, height)?;
    let kind = StmtKind::Expr(Box::into_inner(e.into_node()));
    Ok(statement_node(tokens, depth, at, end, kind, height))
}

/// An `if` statement without an `else` (12.5).
#[tactic(auto, using(crate::proofs::Forms::seen))]
pub fn if_node(
    tokens: &Tokens,
    depth: Depth,
    at: usize,
    test: Part<Box<Expr>>,
    body: Part<List<Stmt>>,
    end: usize,
) -> Read<Part<Stmt>>
    ensures { MakesStatement tokens.now depth at end
        (tree.if_else (view_expression test.value) (view_statements body) tree.absent) result }
{
    let height = test.height().max(body.height());
    let height = tokens.node_height(depth, at, end, height)?;
    let kind = StmtKind::If(Box::into_inner(test.into_node()), body.into_node(), None);
    Ok(statement_node(tokens, depth, at, end, kind, height))
}

/// An `if` statement with an `else` (12.5).
#[tactic(auto, using(crate::proofs::Forms::seen))]
pub fn if_else_node(
    tokens: &Tokens,
    depth: Depth,
    at: usize,
    test: Part<Box<Expr>>,
    body: Part<List<Stmt>>,
    other: Part<List<Stmt>>,
    end: usize,
) -> Read<Part<Stmt>>
    ensures { MakesStatement tokens.now depth at end (tree.if_else (view_expression test.value) (view_statements body)
        (tree.present (tree.branch_of (view_statements other)))) result }
{
    let height = test.height().max(body.height()).max(other.height());
    let height = tokens.node_height(depth, at, end, height)?;
    let kind = StmtKind::If(
        Box::into_inner(test.into_node()),
        body.into_node(),
        Some(other.into_node()),
    );
    Ok(statement_node(tokens, depth, at, end, kind, height))
}

/// A `do` statement (12.6.1).
pub fn do_node(
    tokens: &Tokens,
    depth: Depth,
    at: usize,
    body: Part<List<Stmt>>,
    test: Part<Box<Expr>>,
    end: usize,
) -> Read<Part<Stmt>>
    ensures { MakesStatement tokens.now depth at end
        (tree.do_while (view_statements body) (view_expression test.value)) result }
{
    let height = body.height().max(test.height());
    let height = tokens.node_height(depth, at, end, height)?;
    let kind = StmtKind::DoWhile(body.into_node(), Box::into_inner(test.into_node()));
    Ok(statement_node(tokens, depth, at, end, kind, height))
}

/// A `while` statement (12.6.2).
pub fn while_node(
    tokens: &Tokens,
    depth: Depth,
    at: usize,
    test: Part<Box<Expr>>,
    body: Part<List<Stmt>>,
    end: usize,
) -> Read<Part<Stmt>>
    ensures { MakesStatement tokens.now depth at end (tree.while (view_expression test.value) (view_statements body))
        result }
{
    let height = test.height().max(body.height());
    let height = tokens.node_height(depth, at, end, height)?;
    let kind = StmtKind::While(Box::into_inner(test.into_node()), body.into_node());
    Ok(statement_node(tokens, depth, at, end, kind, height))
}

/// What stands in the brackets of a `for` (12.6.3): its first part, its test and its step.
#[derive(Drop)]
pub struct ForHead {
    pub init: Part<ForInit>,
    pub test: Part<Option<Expr>>,
    pub step: Part<Option<Expr>>,
}

/// A `for` statement (12.6.3).
#[inline(never)]
pub fn for_node(
    tokens: &Tokens,
    depth: Depth,
    at: usize,
    head: ForHead,
    body: Part<List<Stmt>>,
    end: usize,
) -> Read<Part<Stmt>>
    ensures { MakesStatement tokens.now depth at end (tree.for (view_init head.init) (view_optional head.test)
        (view_optional head.step) (view_statements body)) result }
{
    let ForHead { init, test, step } = head;
    let height = init.height().max(test.height());
    let height = height.max(step.height()).max(body.height());
    let height = tokens.node_height(depth, at, end, height)?;
    let kind = StmtKind::For(
        init.into_node(),
        test.into_node(),
        step.into_node(),
        body.into_node(),
    );
    Ok(statement_node(tokens, depth, at, end, kind, height))
}

/// A `for` statement with an `in` (12.6.4).
pub fn for_in_node(
    tokens: &Tokens,
    depth: Depth,
    at: usize,
    is_var: bool,
    name: Ident,
    object: Part<Box<Expr>>,
    body: Part<List<Stmt>>,
    end: usize,
) -> Read<Part<Stmt>>
    ensures { MakesStatement tokens.now depth at end
        (tree.for_in is_var (view_ident name) (view_expression object.value) (view_statements body)) result }
{
    let height = object.height().max(body.height());
    let height = tokens.node_height(depth, at, end, height)?;
    let kind = StmtKind::ForIn {
        is_var,
        name,
        object: Box::into_inner(object.into_node()),
        body: body.into_node(),
    };
    Ok(statement_node(tokens, depth, at, end, kind, height))
}

/// A `return` statement with a value (12.9).
#[tactic(auto, using(crate::proofs::Forms::seen))]
pub fn return_node(
    tokens: &Tokens,
    depth: Depth,
    at: usize,
    e: Part<Box<Expr>>,
    end: usize,
) -> Read<Part<Stmt>>
    ensures { MakesStatement tokens.now depth at end (tree.return (tree.present (view_expression e.value))) result }
{
    let height = e.height();
    let height = tokens.node_height(depth, at, end, height)?;
    let kind = StmtKind::Return(Some(Box::into_inner(e.into_node())));
    Ok(statement_node(tokens, depth, at, end, kind, height))
}

/// A statement with a label (12.12).
pub fn labelled_node(
    alloc: Global,
    tokens: &Tokens,
    depth: Depth,
    at: usize,
    label: Ident,
    s: Part<Stmt>,
    end: usize,
) -> Read<Part<Stmt>>
    ensures { MakesStatement tokens.now depth at end (tree.labelled (view_ident label) (view_statement s)) result }
{
    let height = s.height();
    let s = Box::new(alloc, s.into_node())?;
    let height = tokens.node_height(depth, at, end, height)?;
    let kind = StmtKind::Labelled(label, s);
    Ok(statement_node(tokens, depth, at, end, kind, height))
}

/// A `switch` statement (12.11).
pub fn switch_node(
    tokens: &Tokens,
    depth: Depth,
    at: usize,
    e: Part<Box<Expr>>,
    clauses: Part<List<Case>>,
    end: usize,
) -> Read<Part<Stmt>>
    ensures { MakesStatement tokens.now depth at end (tree.switch (view_expression e.value) (view_cases clauses))
        result }
{
    let height = e.height().max(clauses.height());
    let height = tokens.node_height(depth, at, end, height)?;
    let kind = StmtKind::Switch(Box::into_inner(e.into_node()), clauses.into_node());
    Ok(statement_node(tokens, depth, at, end, kind, height))
}

/// A `throw` statement (12.13).
pub fn throw_node(
    tokens: &Tokens,
    depth: Depth,
    at: usize,
    e: Part<Box<Expr>>,
    end: usize,
) -> Read<Part<Stmt>>
    ensures { MakesStatement tokens.now depth at end (tree.throw (view_expression e.value)) result }
{
    let height = e.height();
    let height = tokens.node_height(depth, at, end, height)?;
    let kind = StmtKind::Throw(Box::into_inner(e.into_node()));
    Ok(statement_node(tokens, depth, at, end, kind, height))
}

/// A `try` statement with a `catch` alone (12.14).
#[tactic(auto, using(crate::proofs::Forms::seen))]
pub fn try_catch_node(
    tokens: &Tokens,
    depth: Depth,
    at: usize,
    body: Part<List<Stmt>>,
    caught: Part<(Ident, List<Stmt>)>,
    end: usize,
) -> Read<Part<Stmt>>
    ensures { MakesStatement tokens.now depth at end (tree.try (view_statements body)
        (tree.present (tree.catch (view_ident caught.0) (view_statements caught.1))) tree.absent) result }
{
    let height = body.height().max(caught.height());
    let height = tokens.node_height(depth, at, end, height)?;
    let kind = StmtKind::Try {
        body: body.into_node(),
        catch: Some(caught.into_node()),
        finally: None,
    };
    Ok(statement_node(tokens, depth, at, end, kind, height))
}

/// A `try` statement with a `finally` alone (12.14).
#[tactic(auto, using(crate::proofs::Forms::seen))]
pub fn try_finally_node(
    tokens: &Tokens,
    depth: Depth,
    at: usize,
    body: Part<List<Stmt>>,
    last: Part<List<Stmt>>,
    end: usize,
) -> Read<Part<Stmt>>
    ensures { MakesStatement tokens.now depth at end (tree.try (view_statements body) tree.absent
        (tree.present (tree.branch_of (view_statements last)))) result }
{
    let height = body.height().max(last.height());
    let height = tokens.node_height(depth, at, end, height)?;
    let kind = StmtKind::Try {
        body: body.into_node(),
        catch: None,
        finally: Some(last.into_node()),
    };
    Ok(statement_node(tokens, depth, at, end, kind, height))
}

/// A `try` statement with both (12.14).
#[tactic(auto, using(crate::proofs::Forms::seen))]
pub fn try_both_node(
    tokens: &Tokens,
    depth: Depth,
    at: usize,
    body: Part<List<Stmt>>,
    caught: Part<(Ident, List<Stmt>)>,
    last: Part<List<Stmt>>,
    end: usize,
) -> Read<Part<Stmt>>
    ensures { MakesStatement tokens.now depth at end (tree.try (view_statements body)
        (tree.present (tree.catch (view_ident caught.0) (view_statements caught.1)))
        (tree.present (tree.branch_of (view_statements last)))) result }
{
    let height = body.height().max(caught.height()).max(last.height());
    let height = tokens.node_height(depth, at, end, height)?;
    let kind = StmtKind::Try {
        body: body.into_node(),
        catch: Some(caught.into_node()),
        finally: Some(last.into_node()),
    };
    Ok(statement_node(tokens, depth, at, end, kind, height))
}

/// A variable without an initialiser (12.2).
pub fn bare_declarator(name: Ident) -> Part<(Ident, Option<Expr>)>
    ensures { view_declarator result ≡ tree.declarator (view_ident name) tree.absent }
{
    Part::flat((name, None))
}

/// A variable with its initialiser (12.2).
pub fn initialised_declarator(name: Ident, e: Part<Box<Expr>>) -> Part<(Ident, Option<Expr>)>
    ensures { view_declarator result ≡ tree.declarator (view_ident name) (tree.present (view_expression e.value)) }
{
    let height = e.height();
    Part::new((name, Some(Box::into_inner(e.into_node()))), height)
}

/// An expression that may be left out, and is there.
pub fn present(e: Part<Box<Expr>>) -> Part<Option<Expr>>
    ensures { view_optional result ≡ tree.present (view_expression e.value) }
{
    let height = e.height();
    Part::new(Some(Box::into_inner(e.into_node())), height)
}

/// An expression in the head of a `for` (12.6.3).
pub fn init_expression(e: Part<Box<Expr>>) -> Part<ForInit>
    ensures { view_init result ≡ tree.init_expression (view_expression e.value) }
{
    let height = e.height();
    Part::new(ForInit::Expr(Box::into_inner(e.into_node())), height)
}

/// Variables in the head of a `for` (12.6.3).
pub fn init_var(declarators: Part<List<(Ident, Option<Expr>)>>) -> Part<ForInit>
    ensures { view_init result ≡ tree.init_var (view_declarators declarators) }
{
    let height = declarators.height();
    Part::new(ForInit::Var(declarators.into_node()), height)
}

/// A clause of a `switch` with a test (12.11).
pub fn case_of(test: Part<Box<Expr>>, body: Part<List<Stmt>>) -> Part<Case>
    ensures { view_case result ≡ tree.case (tree.present (view_expression test.value)) (view_statements body) }
{
    let height = test.height().max(body.height());
    let case = Case {
        test: Some(Box::into_inner(test.into_node())),
        body: body.into_node(),
    };
    Part::new(case, height)
}

/// The default clause of a `switch` (12.11).
pub fn default_case(body: Part<List<Stmt>>) -> Part<Case>
    ensures { view_case result ≡ tree.case tree.absent (view_statements body) }
{
    let height = body.height();
    let case = Case {
        test: None,
        body: body.into_node(),
    };
    Part::new(case, height)
}

/// A `catch` with its parameter (12.14).
pub fn catch_of(name: Ident, body: Part<List<Stmt>>) -> Part<(Ident, List<Stmt>)>
    ensures name { view_ident result.0 ≡ view_ident name }
    ensures body { view_statements result.1 ≡ view_statements body }
{
    let height = body.height();
    Part::new((name, body.into_node()), height)
}
