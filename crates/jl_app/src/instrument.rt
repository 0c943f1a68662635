//! The text of the woven script.
ghost use Rattle.std.specs.Prelude.{◌≡◌, IfOk};
ghost use Rattle.jl_ast.specs.View.{view};
ghost use Rattle.jl_op.specs.KindSets.{is_member};
ghost use Rattle.jl_simulation.specs.Plain.{HasFewIds};
ghost use Rattle.jl_app.specs.Answers.{instrument_due};
ghost use Rattle.jl_app.specs.WovenText.{woven_text};

use crate::answer::Answer;
use crate::status::Status;
use jl_ast::Program;
use jl_op::KindSet;
use jl_text::to_utf8;
use jl_weave::weave;
use std::alloc::{AllocError, Global};

/// The canonical text of a program that is woven for operations of these kinds, in UTF-16 units.
pub(crate) fn woven_text(
    alloc: Global,
    program: &Program,
    kinds: KindSet,
) -> Result<Vec<u16>, AllocError>
    requires { HasFewIds (view program.now) }
    ensures { IfOk result (λ text. text.items ≡ woven_text (is_member kinds) (view program.now)) }
{
    let woven = weave(alloc, program, kinds)?;
    jl_print::print(alloc, &woven)
}

/// What `instrument` answers to a script that is accepted as this program.
pub(crate) fn instrument(alloc: Global, program: &Program) -> Result<Answer, AllocError>
    requires { HasFewIds (view program.now) }
    ensures { IfOk result (λ a. (a.status ≡ (instrument_due (view program.now)).status)
        × (a.bytes.items ≡ (instrument_due (view program.now)).bytes)) }
{
    let text = woven_text(alloc, program, KindSet::all())?;
    Ok(Answer {
        status: Status::Clean,
        bytes: to_utf8(alloc, &text)?,
    })
}
