ghost use Rattle.std.specs.Prelude.{◌≡◌, IfOk};
ghost use Rattle.jl_ast.specs.View.{view};
ghost use Rattle.jl_app.specs.Answers.{canonical_text};

use crate::answer::Answer;
use crate::status::Status;
use jl_ast::Program;
use jl_text::to_utf8;
use std::alloc::{AllocError, Global};

/// What `print` answers to a script that is accepted as this program.
pub(crate) fn print(alloc: Global, program: &Program) -> Result<Answer, AllocError>
    ensures { IfOk result (λ a. (a.status ≡ (canonical_text (view program.now)).status)
        × (a.bytes.items ≡ (canonical_text (view program.now)).bytes)) }
{
    let text = jl_print::print(alloc, program)?;
    Ok(Answer {
        status: Status::Clean,
        bytes: to_utf8(alloc, &text)?,
    })
}
