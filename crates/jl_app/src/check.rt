ghost use Rattle.std.specs.Prelude.{◌≡◌, IfOk};
ghost use Rattle.jl_ast.specs.View.{view};
ghost use Rattle.jl_app.specs.Answers.{functions_line};

use crate::answer::{Answer, line_only};
use crate::status::Status;
use jl_ast::{Program, function_table};
use std::alloc::{AllocError, Global};

/// What `check` answers to a script that is accepted as this program.
pub(crate) fn check(alloc: Global, program: &Program) -> Result<Answer, AllocError>
    ensures { IfOk result (λ a. (a.status ≡ (functions_line (view program.now)).status)
        × (a.bytes.items ≡ (functions_line (view program.now)).bytes)) }
{
    let functions = function_table(alloc, program)?.len();
    let text = format!(in alloc; "accepted functions={functions}")?;
    line_only(alloc, Status::Clean, &text)
}
