//! The map of a script: which operation each id stands for, and where it stands.
#![tactic(auto)]

ghost use Rattle.std.specs.Prelude.{◌≡◌, ◌+◌, ◌<◌, ◌^◌, IfOk};
ghost use Rattle.jl_ast.specs.View.{view};
ghost use Rattle.jl_op.specs.IdMap.{id_map};
ghost use Rattle.jl_op.specs.Ids.{id_count};

mod expressions;
mod lists;
mod rows;
mod statements;

use crate::lists::add_body;
use crate::rows::add_row;
use jl_ast::Program;
use jl_op::{OpKind, OpMap};
use jl_text::NoMemory;
use std::alloc::Global;

/// The map of a program: a row for each id that it takes, by rising id, with the kind of the operation and its place.
/// It is refused for want of memory alone, takes time in proportion to the program, and recurses as deep as that is
/// high.
pub fn map_of(alloc: Global, program: &Program) -> Result<OpMap, NoMemory>
    requires few { 2 + id_count (view program.now).body < 2 ^ 32 }
    ensures { IfOk result (λ map. map ≡ id_map (view program.now)) }
{
    let mut map = OpMap::new(alloc);
    add_row(&mut map, OpKind::ScriptEnter, program.span)?;
    add_row(&mut map, OpKind::ScriptExit, program.span)?;
    add_body(&mut map, &program.body)?;
    Ok(map)
}
