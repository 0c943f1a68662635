ghost use Rattle.std.specs.Prelude.{◌≡◌, ◌++◌, IfOk};
ghost use Rattle.jl_op.specs.Trace.{op_line, parts_of, with_spaces};

use crate::line::Line;
use crate::op::{Op, OpId};
use crate::sign::binary_sign;
use std::alloc::{AllocError, Global};

/// The line of a trace that tells of an operation, without a line terminator: the id, the kind, and what it saw, each
/// part after a space.
pub fn op_text(alloc: Global, id: OpId, op: &Op) -> Result<Vec<u16>, AllocError>
    ensures { IfOk result (λ line. line.items ≡ op_line id op.now) }
{
    let line = Line::of(alloc, id)?.word(op.kind().name())?;
    Ok(parts(line, op)?.into_units())
}

/// The line with the parts of the operation that follow its kind.
#[tactic(auto, using(crate::proofs::Spacing::spacing))]
fn parts(line: Line, op: &Op) -> Result<Line, AllocError>
    ensures { IfOk result (λ made. made ≡ line ++ with_spaces (parts_of op.now)) }
{
    match op {
        Op::ScriptEnter | Op::ScriptExit | Op::ArrayLiteral { .. } | Op::ObjectLiteral { .. } => {
            Ok(line)
        }
        Op::FunctionEnter {
            function,
            this,
            args,
            by_new,
        } => line
            .function(*function)?
            .seen_value(this)?
            .number(*args)?
            .way(*by_new),
        Op::FunctionExit { function } | Op::FunctionLiteral { function, .. } => {
            line.function(*function)
        }
        Op::Literal { value }
        | Op::Conditional { value }
        | Op::ForIn { object: value }
        | Op::Return { value }
        | Op::Throw { value }
        | Op::InvokePost { result: value, .. } => line.seen_value(value),
        Op::Read { name, value } | Op::Write { name, value } | Op::Catch { name, value } => {
            line.text(name)?.seen_value(value)
        }
        Op::TypeofName { name, result } => line.text(name)?.text(result),
        Op::GetField {
            base,
            name,
            value,
            ..
        }
        | Op::PutField {
            base,
            name,
            value,
            ..
        } => line.seen_value(base)?.text(name)?.seen_value(value),
        Op::DeleteField { base, name, result } => line.seen_value(base)?.text(name)?.truth(*result),
        Op::InvokePre {
            target,
            this,
            args,
            by_new,
            ..
        } => line
            .callee(target)?
            .seen_value(this)?
            .way(*by_new)?
            .all_seen(args.items()),
        Op::Binary {
            op,
            left,
            right,
            result,
        } => line
            .quoted_word(binary_sign(*op))?
            .seen_value(left)?
            .seen_value(right)?
            .seen_value(result),
        Op::Unary {
            op,
            operand,
            result,
        } => line
            .quoted_word(op.sign())?
            .seen_value(operand)?
            .seen_value(result),
    }
}
