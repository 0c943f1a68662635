//! The nodes of statements (clause 12).
#![tactic(auto, using(jl_ast::proofs::Views::nodes, crate::proofs::ListViews::lists), unfolding(crate::specs::inner::Bare::bare_expression, crate::specs::inner::Bare::bare_statement, crate::specs::inner::Bare::bare_init, crate::specs::inner::Bare::bare_case))]

ghost use Rattle.std.specs.Prelude.{◌≡◌, option_map, IfOk};
ghost use Rattle.jl_ast.specs.Tree as tree;
ghost use Rattle.jl_weave.specs.inner.Bare.{bare_branch, bare_case, bare_cases, bare_catch, bare_declarators};
ghost use Rattle.jl_weave.specs.inner.Bare.{bare_expression, bare_ident, bare_init, bare_optional, bare_statement};
ghost use Rattle.jl_weave.specs.inner.Bare.{bare_statements};

use jl_ast::{Case, Expr, ForInit, Ident, Stmt, StmtKind};
use jl_text::{List, NoMemory, Span};
use std::alloc::Global;

/// `var` (12.2).
pub fn var_statement(declarators: List<(Ident, Option<Expr>)>, span: Span) -> Stmt
    ensures { bare_statement result ≡ tree.var (bare_declarators declarators) tt }
{
    Stmt {
        kind: StmtKind::Var(declarators),
        span,
    }
}

/// `;` (12.3).
pub fn empty_statement(span: Span) -> Stmt
    ensures { bare_statement result ≡ tree.empty tt }
{
    Stmt {
        kind: StmtKind::Empty,
        span,
    }
}

/// An expression (12.4).
pub fn expression_statement(e: Expr, span: Span) -> Stmt
    ensures { bare_statement result ≡ tree.expression (bare_expression e) tt }
{
    Stmt {
        kind: StmtKind::Expr(e),
        span,
    }
}

/// A block (12.1).
pub fn block(body: List<Stmt>, span: Span) -> Stmt
    ensures { bare_statement result ≡ tree.block (bare_statements body) tt }
{
    Stmt {
        kind: StmtKind::Block(body),
        span,
    }
}

/// `if` (12.5).
pub fn if_statement(test: Expr, body: List<Stmt>, other: Option<List<Stmt>>, span: Span) -> Stmt
    ensures { bare_statement result
        ≡ tree.if_else (bare_expression test) (bare_statements body) (bare_branch other) tt }
{
    Stmt {
        kind: StmtKind::If(test, body, other),
        span,
    }
}

/// `do` with its test after it (12.6.1).
pub fn do_while(body: List<Stmt>, test: Expr, span: Span) -> Stmt
    ensures { bare_statement result ≡ tree.do_while (bare_statements body) (bare_expression test) tt }
{
    Stmt {
        kind: StmtKind::DoWhile(body, test),
        span,
    }
}

/// `while` (12.6.2).
pub fn while_loop(test: Expr, body: List<Stmt>, span: Span) -> Stmt
    ensures { bare_statement result ≡ tree.while (bare_expression test) (bare_statements body) tt }
{
    Stmt {
        kind: StmtKind::While(test, body),
        span,
    }
}

/// `for` (12.6.3).
pub fn for_loop(
    init: ForInit,
    test: Option<Expr>,
    step: Option<Expr>,
    body: List<Stmt>,
    span: Span,
) -> Stmt
    ensures { bare_statement result
        ≡ tree.for (bare_init init) (bare_optional test) (bare_optional step) (bare_statements body) tt }
{
    Stmt {
        kind: StmtKind::For(init, test, step, body),
        span,
    }
}

/// `for` with `in` (12.6.4).
pub fn for_in_loop(is_var: bool, name: Ident, object: Expr, body: List<Stmt>, span: Span) -> Stmt
    ensures { bare_statement result
        ≡ tree.for_in is_var (bare_ident name) (bare_expression object) (bare_statements body) tt }
{
    let kind = StmtKind::ForIn {
        is_var,
        name,
        object,
        body,
    };
    Stmt { kind, span }
}

/// `continue` (12.7).
pub fn continue_statement(label: Option<Ident>, span: Span) -> Stmt
    ensures { bare_statement result ≡ tree.continue (option_map bare_ident label) tt }
{
    Stmt {
        kind: StmtKind::Continue(label),
        span,
    }
}

/// `break` (12.8).
pub fn break_statement(label: Option<Ident>, span: Span) -> Stmt
    ensures { bare_statement result ≡ tree.break (option_map bare_ident label) tt }
{
    Stmt {
        kind: StmtKind::Break(label),
        span,
    }
}

/// `return` (12.9).
pub fn return_statement(e: Option<Expr>, span: Span) -> Stmt
    ensures { bare_statement result ≡ tree.return (bare_optional e) tt }
{
    Stmt {
        kind: StmtKind::Return(e),
        span,
    }
}

/// A statement with a label (12.12).
pub fn labelled_statement(
    alloc: Global,
    label: Ident,
    s: Stmt,
    span: Span,
) -> Result<Stmt, NoMemory>
    ensures { IfOk result (λ made. bare_statement made ≡ tree.labelled (bare_ident label) (bare_statement s) tt) }
{
    let kind = StmtKind::Labelled(label, Box::new(alloc, s)?);
    Ok(Stmt { kind, span })
}

/// `switch` (12.11).
pub fn switch_statement(e: Expr, cases: List<Case>, span: Span) -> Stmt
    ensures { bare_statement result ≡ tree.switch (bare_expression e) (bare_cases cases) tt }
{
    Stmt {
        kind: StmtKind::Switch(e, cases),
        span,
    }
}

/// `throw` (12.13).
pub fn throw_statement(e: Expr, span: Span) -> Stmt
    ensures { bare_statement result ≡ tree.throw (bare_expression e) tt }
{
    Stmt {
        kind: StmtKind::Throw(e),
        span,
    }
}

/// `try` (12.14).
pub fn try_statement(
    body: List<Stmt>,
    catch: Option<(Ident, List<Stmt>)>,
    finally: Option<List<Stmt>>,
    span: Span,
) -> Stmt
    ensures { bare_statement result ≡ tree.try (bare_statements body) (bare_catch catch) (bare_branch finally) tt }
{
    let kind = StmtKind::Try {
        body,
        catch,
        finally,
    };
    Stmt { kind, span }
}

/// `debugger` (12.15).
pub fn debugger_statement(span: Span) -> Stmt
    ensures { bare_statement result ≡ tree.debugger tt }
{
    Stmt {
        kind: StmtKind::Debugger,
        span,
    }
}

/// Nothing in the head of a `for` (12.6.3).
pub fn nothing() -> ForInit
    ensures { bare_init result ≡ tree.nothing }
{
    ForInit::Nothing
}

/// An expression in the head of a `for` (12.6.3).
pub fn init_expression(e: Expr) -> ForInit
    ensures { bare_init result ≡ tree.init_expression (bare_expression e) }
{
    ForInit::Expr(e)
}

/// `var` in the head of a `for` (12.6.3).
pub fn init_var(declarators: List<(Ident, Option<Expr>)>) -> ForInit
    ensures { bare_init result ≡ tree.init_var (bare_declarators declarators) }
{
    ForInit::Var(declarators)
}

/// A clause of a `switch` (12.11).
pub fn case(test: Option<Expr>, body: List<Stmt>) -> Case
    ensures { bare_case result ≡ tree.case (bare_optional test) (bare_statements body) }
{
    Case { test, body }
}
