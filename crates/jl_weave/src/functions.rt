//! What stands in the bodies of functions and programs beside their statements (13.2.1, clause 14), and in the block of
//! a `catch` (12.14).
ghost use Rattle.std.specs.Prelude.{◌≡◌, IfOk};
ghost use Rattle.jl_ast.specs.Tree.{end, more};
ghost use Rattle.jl_simulation.specs.HookCalls.{hook_statement};
ghost use Rattle.jl_weave.specs.inner.Bare.{bare_expression, bare_statements};
ghost use Rattle.jl_weave.specs.inner.Forms.{beginning_form, caught_form, ended_form, entry_form, is_begun};
ghost use Rattle.jl_weave.specs.inner.Forms.{is_entered, left_form};
ghost use Rattle.jl_weave.specs.inner.Woven.{chosen_of, HasIds};

use crate::hook_calls::{hook_call, hook_of_1};
use crate::nodes;
use crate::statement_nodes::{expression_statement, try_statement};
use crate::weaver::Weaver;
use jl_ast::{Expr, Stmt};
use jl_op::OpKind;
use jl_text::{List, NoMemory, Span, Text};
use std::alloc::Global;

impl Weaver {
    /// Whether it is told of that functions are entered or left.
    fn tells_entries(&self) -> bool
        ensures { result ≡ is_entered (chosen_of self.now) }
    {
        self.tells(OpKind::FunctionEnter) || self.tells(OpKind::FunctionExit)
    }

    /// What stands first in the body of a function.
    pub fn entry(&self, id: u32, span: Span) -> Result<List<Stmt>, NoMemory>
        ensures { IfOk result (λ made. bare_statements made ≡ entry_form (chosen_of self.now) id) }
    {
        if self.tells_entries() {
            one(self.alloc, hook_call(self.alloc, "E", id, [], span)?, span)
        } else {
            Ok(List::new(self.alloc))
        }
    }

    /// The body of a function, which tells in the end that it is left, however it ends.
    pub fn with_leave_hook(
        &self,
        id: u32,
        statements: List<Stmt>,
        span: Span,
    ) -> Result<List<Stmt>, NoMemory>
        requires { HasIds id 2 }
        ensures { IfOk result (λ made. bare_statements made
            ≡ left_form (chosen_of self.now) id (bare_statements statements)) }
    {
        if !self.tells_entries() {
            return Ok(statements);
        }
        let last = hook_call(self.alloc, "L", id + 1, [], span)?;
        let last = one(self.alloc, last, span)?;
        let mut made = List::new(self.alloc);
        made.push(try_statement(statements, None, Some(last), span))?;
        Ok(made)
    }

    /// Whether it is told of that a script begins or ends.
    fn tells_scripts(&self) -> bool
        ensures { result ≡ is_begun (chosen_of self.now) }
    {
        self.tells(OpKind::ScriptEnter) || self.tells(OpKind::ScriptExit)
    }

    /// What stands first in a program.
    pub fn beginning(&self, id: u32, span: Span) -> Result<List<Stmt>, NoMemory>
        ensures { IfOk result (λ made. bare_statements made ≡ beginning_form (chosen_of self.now) id) }
    {
        if self.tells_scripts() {
            one(self.alloc, hook_call(self.alloc, "S", id, [], span)?, span)
        } else {
            Ok(List::new(self.alloc))
        }
    }

    /// A program, which tells in the end that it ends.
    #[tactic(auto, using(crate::proofs::ListViews::statements_and_last))]
    pub fn with_end_hook(
        &self,
        id: u32,
        statements: List<Stmt>,
        span: Span,
    ) -> Result<List<Stmt>, NoMemory>
        requires { HasIds id 2 }
        ensures { IfOk result (λ made. bare_statements made
            ≡ ended_form (chosen_of self.now) id (bare_statements statements)) }
    {
        if !self.tells_scripts() {
            return Ok(statements);
        }
        let last = hook_call(self.alloc, "X", id + 1, [], span)?;
        let mut made = statements;
        made.push(expression_statement(last, span))?;
        Ok(made)
    }

    /// What stands first in the block of a `catch`.
    pub fn catch_hook(&self, id: u32, x: &Text, span: Span) -> Result<List<Stmt>, NoMemory>
        ensures { IfOk result (λ made. bare_statements made ≡ caught_form (chosen_of self.now) id x.now) }
    {
        if !self.tells(OpKind::Catch) {
            return Ok(List::new(self.alloc));
        }
        let value = nodes::name(x.share(self.alloc)?, span);
        let call = hook_of_1(self.alloc, "H", id, x, value, span)?;
        one(self.alloc, call, span)
    }
}

/// A statement that calls a hook, alone.
fn one(alloc: Global, call: Expr, span: Span) -> Result<List<Stmt>, NoMemory>
    ensures { IfOk result (λ made. bare_statements made ≡ more (hook_statement (bare_expression call)) end) }
{
    let mut made = List::new(alloc);
    made.push(expression_statement(call, span))?;
    Ok(made)
}
