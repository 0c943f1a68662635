//! Calls and `new` (11.2.2, 11.2.3).
ghost use Rattle.std.specs.Prelude.{◌≡◌, IfOk};
ghost use Rattle.jl_weave.specs.inner.Bare.{bare_expression, bare_expressions};
ghost use Rattle.jl_weave.specs.inner.Forms.{callee_form, new_form};
ghost use Rattle.jl_weave.specs.inner.Woven.{chosen_of};

use crate::hook_calls::hook_call;
use crate::nodes;
use crate::weaver::Weaver;
use jl_ast::Expr;
use jl_text::{List, NoMemory, Span};

impl Weaver {
    /// The callee of a call, where it is no member.
    pub fn callee(&self, id: u32, f: Expr, span: Span) -> Result<Expr, NoMemory>
        ensures { IfOk result (λ made. bare_expression made ≡ callee_form (chosen_of self.now) id (bare_expression f)) }
    {
        if self.tells_calls() {
            hook_call(self.alloc, "F", id, [f], span)
        } else {
            Ok(f)
        }
    }

    /// `new` with its operand and its arguments.
    pub fn new_object(
        &self,
        id: u32,
        f: Expr,
        arguments: List<Expr>,
        span: Span,
    ) -> Result<Expr, NoMemory>
        ensures { IfOk result (λ made. bare_expression made
            ≡ new_form (chosen_of self.now) id (bare_expression f) (bare_expressions arguments)) }
    {
        if self.tells_calls() {
            let opener = hook_call(self.alloc, "N", id, [f], span)?;
            nodes::call(self.alloc, opener, arguments, span)
        } else {
            nodes::new(self.alloc, f, arguments, span)
        }
    }
}
