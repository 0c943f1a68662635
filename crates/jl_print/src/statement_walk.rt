//! Statements and bodies (clause 12, clause 14).
#![tactic(auto, using(jl_ast::proofs::Views::nodes), unfolding(crate::specs::CanonicalTokens::tokens_of_node))]

ghost use Rattle.std.specs.Prelude.{◌≡◌, ◌++◌, ◌∷◌, OnOk};
ghost use Rattle.jl_ast.specs.View.{view_optional};
ghost use Rattle.jl_ast.specs.View.{view_functions, view_body, view_statement};
ghost use Rattle.jl_ast.specs.View.{view_statements};
ghost use Rattle.jl_ast.specs.View.{view_branch, view_catch, view_init, view_declarators, view_case};
ghost use Rattle.jl_ast.specs.View.{view_cases};
ghost use Rattle.jl_print.specs.Pieces.{name, within_braces};
ghost use Rattle.jl_print.specs.CanonicalTokens.{tokens_of_node, tokens_of_all, tokens_of_optional, tokens_after};
ghost use Rattle.jl_print.specs.CanonicalTokens.{tokens_of_declarators};
ghost use Rattle.jl_print.specs.inner.Kinds.{case_head, initializer};

use crate::alone::stands_alone;
use crate::expression_walk::{
    add_expression, add_function, add_in_parens_unless, add_initializer, add_optional, add_part,
};
use crate::name_lists::{add_comma_unless, add_directive, add_optional_name};
use crate::piece::Pieces;
use jl_ast::{Body, Case, Expr, ForInit, Function, Ident, Stmt, StmtKind};
use jl_text::{List, NoMemory};
use jl_token::Punct;

/// What a function holds, in its braces.
#[cycle(print)]
pub(crate) fn add_code<'a>(body: &'a Body, out: &mut Pieces<'a>) -> Result<(), NoMemory>
    ensures { OnOk result (out.new ≡ out.old ++ within_braces (tokens_of_node (view_body body.now))) }
{
    out.punct(Punct::LeftBrace)?;
    add_body(body, out)?;
    out.punct(Punct::RightBrace)
}

#[cycle(print)]
pub(crate) fn add_body<'a>(body: &'a Body, out: &mut Pieces<'a>) -> Result<(), NoMemory>
    ensures { OnOk result (out.new ≡ out.old ++ tokens_of_node (view_body body.now)) }
{
    add_directive(body.strict, out)?;
    add_functions(&body.functions, out)?;
    add_statements(&body.statements, out)?;
    Ok(())
}

#[cycle(print)]
pub(crate) fn add_functions<'a>(
    functions: &'a List<Function>,
    out: &mut Pieces<'a>,
) -> Result<(), NoMemory>
    ensures { OnOk result (out.new ≡ out.old ++ tokens_of_all (view_functions functions.now)) }
{
    for f in functions.items() {
        add_function(f, out)?;
    }
    Ok(())
}

#[cycle(print)]
pub(crate) fn add_statements<'a>(
    statements: &'a List<Stmt>,
    out: &mut Pieces<'a>,
) -> Result<(), NoMemory>
    ensures { OnOk result (out.new ≡ out.old ++ tokens_of_all (view_statements statements.now)) }
{
    for s in statements.items() {
        add_statement(s, out)?;
    }
    Ok(())
}

#[cycle(print)]
pub(crate) fn add_block<'a>(
    statements: &'a List<Stmt>,
    out: &mut Pieces<'a>,
) -> Result<(), NoMemory>
    ensures { OnOk result (out.new ≡ out.old ++ within_braces (tokens_of_all (view_statements statements.now))) }
{
    out.punct(Punct::LeftBrace)?;
    add_statements(statements, out)?;
    out.punct(Punct::RightBrace)
}

#[cycle(print)]
pub(crate) fn add_statement<'a>(s: &'a Stmt, out: &mut Pieces<'a>) -> Result<(), NoMemory>
    ensures { OnOk result (out.new ≡ out.old ++ tokens_of_node (view_statement s.now)) }
{
    match &s.kind {
        StmtKind::Var(declarators) => {
            out.word(b"var")?;
            add_declarators(declarators, out)?;
            out.punct(Punct::Semicolon)
        }
        StmtKind::Empty => out.punct(Punct::Semicolon),
        StmtKind::Expr(e) => {
            add_in_parens_unless(e, stands_alone(e), out)?;
            out.punct(Punct::Semicolon)
        }
        StmtKind::Block(body) => add_block(body, out),
        StmtKind::If(test, body, other) => {
            out.word(b"if")?;
            add_in_parens_unless(test, false, out)?;
            add_block(body, out)?;
            add_after(b"else", other, out)
        }
        StmtKind::DoWhile(body, test) => {
            out.word(b"do")?;
            add_block(body, out)?;
            out.word(b"while")?;
            add_in_parens_unless(test, false, out)?;
            out.punct(Punct::Semicolon)
        }
        StmtKind::While(test, body) => {
            out.word(b"while")?;
            add_in_parens_unless(test, false, out)?;
            add_block(body, out)?;
            Ok(())
        }
        StmtKind::For(init, test, step, body) => {
            out.word(b"for")?;
            out.punct(Punct::LeftParen)?;
            add_init(init, out)?;
            add_part(test, out)?;
            add_part(step, out)?;
            out.punct(Punct::RightParen)?;
            add_block(body, out)?;
            Ok(())
        }
        StmtKind::ForIn {
            is_var: true,
            name,
            object,
            body,
        } => {
            out.word(b"for")?;
            out.punct(Punct::LeftParen)?;
            out.word(b"var")?;
            out.name(&name.text)?;
            out.word(b"in")?;
            add_expression(object, out)?;
            out.punct(Punct::RightParen)?;
            add_block(body, out)?;
            Ok(())
        }
        StmtKind::ForIn {
            is_var: false,
            name,
            object,
            body,
        } => {
            out.word(b"for")?;
            out.punct(Punct::LeftParen)?;
            out.name(&name.text)?;
            out.word(b"in")?;
            add_expression(object, out)?;
            out.punct(Punct::RightParen)?;
            add_block(body, out)?;
            Ok(())
        }
        StmtKind::Continue(label) => {
            out.word(b"continue")?;
            add_optional_name(label, out)?;
            out.punct(Punct::Semicolon)
        }
        StmtKind::Break(label) => {
            out.word(b"break")?;
            add_optional_name(label, out)?;
            out.punct(Punct::Semicolon)
        }
        StmtKind::Return(e) => {
            out.word(b"return")?;
            add_optional(e, out)?;
            out.punct(Punct::Semicolon)
        }
        StmtKind::Labelled(label, s) => {
            out.name(&label.text)?;
            out.punct(Punct::Colon)?;
            add_statement(s, out)
        }
        StmtKind::Switch(e, cases) => {
            out.word(b"switch")?;
            add_in_parens_unless(e, false, out)?;
            out.punct(Punct::LeftBrace)?;
            add_cases(cases, out)?;
            out.punct(Punct::RightBrace)
        }
        StmtKind::Throw(e) => {
            out.word(b"throw")?;
            add_expression(e, out)?;
            out.punct(Punct::Semicolon)
        }
        StmtKind::Try {
            body,
            catch,
            finally,
        } => {
            out.word(b"try")?;
            add_block(body, out)?;
            add_catch(catch, out)?;
            add_after(b"finally", finally, out)
        }
        StmtKind::Debugger => {
            out.word(b"debugger")?;
            out.punct(Punct::Semicolon)
        }
    }
}

/// A word, and the statements under it, if there are some.
#[cycle(print)]
pub(crate) fn add_after<'a>(
    word: &'a [u8],
    branch: &'a Option<List<Stmt>>,
    out: &mut Pieces<'a>,
) -> Result<(), NoMemory>
    ensures { OnOk result (out.new ≡ out.old ++ tokens_after word.now (view_branch branch.now)) }
{
    match branch {
        Some(statements) => {
            out.word(word)?;
            add_block(statements, out)
        }
        None => Ok(()),
    }
}

#[cycle(print)]
pub(crate) fn add_catch<'a>(
    catch: &'a Option<(Ident, List<Stmt>)>,
    out: &mut Pieces<'a>,
) -> Result<(), NoMemory>
    ensures { OnOk result (out.new ≡ out.old ++ tokens_of_optional (view_catch catch.now)) }
{
    match catch {
        Some((name, handler)) => {
            out.word(b"catch")?;
            out.punct(Punct::LeftParen)?;
            out.name(&name.text)?;
            out.punct(Punct::RightParen)?;
            add_block(handler, out)
        }
        None => Ok(()),
    }
}

#[cycle(print)]
pub(crate) fn add_init<'a>(init: &'a ForInit, out: &mut Pieces<'a>) -> Result<(), NoMemory>
    ensures { OnOk result (out.new ≡ out.old ++ tokens_of_node (view_init init.now)) }
{
    match init {
        ForInit::Nothing => Ok(()),
        ForInit::Expr(e) => add_expression(e, out),
        ForInit::Var(declarators) => {
            out.word(b"var")?;
            add_declarators(declarators, out)
        }
    }
}

#[cycle(print)]
pub(crate) fn add_declarators<'a>(
    declarators: &'a List<(Ident, Option<Expr>)>,
    out: &mut Pieces<'a>,
) -> Result<(), NoMemory>
    ensures { OnOk result (out.new ≡ out.old ++ tokens_of_declarators (view_declarators declarators.now)) }
{
    let mut first = true;
    for d in declarators.items() {
        add_comma_unless(first, out)?;
        add_declarator(d, out)?;
        first = false;
    }
    Ok(())
}

#[cycle(print)]
pub(crate) fn add_declarator<'a>(
    d: &'a (Ident, Option<Expr>),
    out: &mut Pieces<'a>,
) -> Result<(), NoMemory>
    ensures { OnOk result (out.new ≡ out.old ++ name d.now.0.text ∷ initializer (view_optional d.now.1)) }
{
    out.name(&d.0.text)?;
    add_initializer(&d.1, out)
}

#[cycle(print)]
pub(crate) fn add_cases<'a>(cases: &'a List<Case>, out: &mut Pieces<'a>) -> Result<(), NoMemory>
    ensures { OnOk result (out.new ≡ out.old ++ tokens_of_all (view_cases cases.now)) }
{
    for c in cases.items() {
        add_case(c, out)?;
    }
    Ok(())
}

#[cycle(print)]
pub(crate) fn add_case<'a>(c: &'a Case, out: &mut Pieces<'a>) -> Result<(), NoMemory>
    ensures { OnOk result (out.new ≡ out.old ++ tokens_of_node (view_case c.now)) }
{
    add_test(&c.test, out)?;
    add_statements(&c.body, out)?;
    Ok(())
}

/// `case` and its test, or `default`.
#[cycle(print)]
pub(crate) fn add_test<'a>(test: &'a Option<Expr>, out: &mut Pieces<'a>) -> Result<(), NoMemory>
    ensures { OnOk result (out.new ≡ out.old ++ case_head (view_optional test.now)) }
{
    match test {
        Some(test) => {
            out.word(b"case")?;
            add_expression(test, out)?;
            out.punct(Punct::Colon)
        }
        None => {
            out.word(b"default")?;
            out.punct(Punct::Colon)
        }
    }
}
