//! The canonical text of a program.
#![tactic(auto)]

ghost use Rattle.std.specs.Prelude.{◌≡◌, IfOk};
ghost use Rattle.jl_ast.specs.View.{view};
ghost use Rattle.jl_print.specs.Layout.{text_of};

mod alone;
mod expression_walk;
pub mod laws;
mod layout;
mod name_lists;
mod operator_words;
mod piece;
mod precedence;
mod statement_walk;

use crate::layout::lay_out;
use crate::piece::Pieces;
use crate::statement_walk::add_body;
use jl_ast::Program;
use jl_text::NoMemory;
use std::alloc::Global;

/// The canonical text of a program, in UTF-16 units: each list of statements in braces, a semicolon after each
/// statement that has one in the grammar, no more brackets than are needed, and one layout (clauses 11 to 14). It is
/// refused for want of memory alone. It takes time in proportion to the program and its text, and recurses as deep as
/// the program is high.
pub fn print(alloc: Global, p: &Program) -> Result<Vec<u16>, NoMemory>
    ensures { IfOk result (λ units. units.items ≡ text_of (view p.now)) }
{
    let mut pieces = Pieces::new(alloc);
    add_body(&p.body, &mut pieces)?;
    lay_out(alloc, pieces.items())
}
