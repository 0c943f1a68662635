//! The syntax tree of a script (clauses 11 to 14).
#![tactic(auto)]

mod functions;
mod heights;
pub mod laws;
mod ops;
mod tree;

pub use functions::function_table;
pub use heights::height;
pub use ops::{BinOp, UnOp};
pub use tree::{
    Body, Case, Entry, Expr, ExprKind, ForInit, Function, Ident, Program, Stmt, StmtKind, Target,
    is_name,
};
