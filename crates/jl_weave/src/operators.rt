//! Operators (11.4 to 11.10) but for those that assign.
ghost use Rattle.std.specs.Prelude.{◌≡◌, IfOk};
ghost use Rattle.jl_op.specs.UnaryKinds.{unary_kind};
ghost use Rattle.jl_weave.specs.inner.Bare.{bare_expression};
ghost use Rattle.jl_weave.specs.inner.Forms.{binary_form, typeof_name_form, unary_form};
ghost use Rattle.jl_weave.specs.inner.Woven.{chosen_of};

use crate::hook_calls::{binary_hook, hook_of_1, unary_hook};
use crate::nodes;
use crate::weaver::Weaver;
use jl_ast::{BinOp, Expr, UnOp};
use jl_op::{OpKind, unary_kind};
use jl_text::{NoMemory, Span, Text};

impl Weaver {
    /// An operator before its operand, but for `delete` and for the `typeof` of a name (11.4).
    pub fn unary(&self, id: u32, op: UnOp, e: Expr, span: Span) -> Result<Expr, NoMemory>
        ensures { IfOk result (λ made. bare_expression made
            ≡ unary_form (chosen_of self.now) id op (bare_expression e)) }
    {
        if self.tells(OpKind::Unary) {
            unary_hook(self.alloc, id, unary_kind(op), e, span)
        } else {
            nodes::unary(self.alloc, op, e, span)
        }
    }

    /// `typeof` of a name, which is not read (11.4.3).
    pub fn typeof_name(&self, id: u32, x: &Text, span: Span) -> Result<Expr, NoMemory>
        ensures { IfOk result (λ made. bare_expression made ≡ typeof_name_form (chosen_of self.now) id x.now) }
    {
        let name = nodes::name(x.share(self.alloc)?, span);
        let itself = nodes::unary(self.alloc, UnOp::Typeof, name, span)?;
        if self.tells(OpKind::TypeofName) {
            hook_of_1(self.alloc, "Y", id, x, itself, span)
        } else {
            Ok(itself)
        }
    }

    /// An operator between its operands (11.5 to 11.10).
    pub fn binary(&self, id: u32, op: BinOp, a: Expr, b: Expr, span: Span) -> Result<Expr, NoMemory>
        ensures { IfOk result (λ made. bare_expression made
            ≡ binary_form (chosen_of self.now) id op (bare_expression a) (bare_expression b)) }
    {
        if self.tells(OpKind::Binary) {
            binary_hook(self.alloc, id, op, a, b, span)
        } else {
            nodes::binary(self.alloc, op, a, b, span)
        }
    }
}
