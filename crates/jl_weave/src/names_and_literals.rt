//! Names and literals, and other values that a hook is handed alone.
ghost use Rattle.std.specs.Prelude.{◌≡◌, IfOk};
ghost use Rattle.jl_simulation.specs.HookCalls.{hook_1, write};
ghost use Rattle.jl_simulation.specs.Weaving.{hooked_if};
ghost use Rattle.jl_weave.specs.inner.Bare.{bare_expression, bare_optional};
ghost use Rattle.jl_weave.specs.inner.Forms.{name_form, told_if_present, written_form};
ghost use Rattle.jl_weave.specs.inner.Woven.{chosen_of};

use crate::hook_calls::{hook_call, read, write};
use crate::nodes;
use crate::weaver::Weaver;
use jl_ast::Expr;
use jl_op::OpKind;
use jl_text::{NoMemory, Span, Text};

impl Weaver {
    /// A name that is read (11.1.2).
    pub fn name(&self, id: u32, x: &Text, span: Span) -> Result<Expr, NoMemory>
        ensures { IfOk result (λ made. bare_expression made ≡ name_form (chosen_of self.now) id x.now) }
    {
        if self.tells(OpKind::Read) {
            read(self.alloc, id, x, span)
        } else {
            Ok(nodes::name(x.share(self.alloc)?, span))
        }
    }

    /// A value, which the hook of this name is handed if operations of this kind are told of.
    pub fn hook_value(
        &self,
        kind: OpKind,
        name: &str,
        id: u32,
        e: Expr,
        span: Span,
    ) -> Result<Expr, NoMemory>
        ensures { IfOk result (λ made. bare_expression made
            ≡ hooked_if (chosen_of self.now) kind (hook_1 name.now id) (bare_expression e)) }
    {
        if self.tells(kind) {
            hook_call(self.alloc, name, id, [e], span)
        } else {
            Ok(e)
        }
    }

    /// The same of a value that may not be there.
    pub fn told_if_present(
        &self,
        kind: OpKind,
        name: &str,
        id: u32,
        e: Option<Expr>,
        span: Span,
    ) -> Result<Option<Expr>, NoMemory>
        ensures { IfOk result (λ made. bare_optional made
            ≡ told_if_present (chosen_of self.now) kind (hook_1 name.now id) (bare_optional e)) }
    {
        match e {
            Some(e) => Ok(Some(self.hook_value(kind, name, id, e, span)?)),
            None => Ok(None),
        }
    }

    /// The value of an initialiser, if there is one, which is written to its variable (12.2).
    pub fn initialiser(
        &self,
        id: u32,
        x: &Text,
        e: Option<Expr>,
        span: Span,
    ) -> Result<Option<Expr>, NoMemory>
        ensures { IfOk result (λ made. bare_optional made
            ≡ told_if_present (chosen_of self.now) OpKind.Write (write id x.now) (bare_optional e)) }
    {
        match e {
            Some(e) => Ok(Some(self.written_value(id, x, e, span)?)),
            None => Ok(None),
        }
    }

    /// A value that is written to a variable.
    fn written_value(&self, id: u32, x: &Text, e: Expr, span: Span) -> Result<Expr, NoMemory>
        ensures { IfOk result (λ made. bare_expression made
            ≡ written_form (chosen_of self.now) id x.now (bare_expression e)) }
    {
        if self.tells(OpKind::Write) {
            write(self.alloc, id, x, e, span)
        } else {
            Ok(e)
        }
    }
}
