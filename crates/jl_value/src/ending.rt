use crate::builtin::Builtin;
use crate::value::Value;
use jl_text::Text;
use std::fmt;

/// What ends a run and can't be caught by the script.
#[derive(Clone, Copy, PartialEq, Eq, Debug)]
pub enum Fault {
    /// The exact result of an operation is no number of a script.
    NumberOutside,
    /// A string would have more units than a string here may have.
    StringTooLong,
    /// More would be printed than a run may print.
    OutputTooLong,
    /// `Function` was called, which would make code of a text (15.3.1, 15.3.2).
    CodeFromText,
    /// A builtin was called that has no meaning here.
    Unsupported(Builtin),
    /// A hook was called in a way in which no rewritten script calls it.
    Misuse,
}

/// Its word, and of an unsupported builtin the path too.
impl fmt::Display for Fault {
    ghost use Rattle.std.specs.Prelude.{Some};
    ghost use Rattle.jl_value.specs.Faults.{fault_text};

    ghost output = { λ fault. Some (fault_text fault) };

    fn fmt<W: fmt::Write>(&self, f: &mut fmt::Formatter<W>) -> fmt::Result {
        match self {
            Fault::NumberOutside => write!(f, "NumberOutside"),
            Fault::StringTooLong => write!(f, "StringTooLong"),
            Fault::OutputTooLong => write!(f, "OutputTooLong"),
            Fault::CodeFromText => write!(f, "CodeFromText"),
            Fault::Unsupported(builtin) => {
                let name = builtin.name();
                write!(f, "Unsupported {name}")
            }
            Fault::Misuse => write!(f, "Misuse"),
        }
    }
}

/// How a run ended.
#[derive(Drop)]
pub enum Outcome {
    /// After the last statement.
    Normal,
    /// By a value that was thrown and not caught.
    Thrown(Value),
    /// By a fault.
    Fault(Fault),
    /// Where a step was due and none was left.
    Spent,
}

/// How a statement ended (8.9): its completion, without the value that only `eval` sees.
#[derive(Drop)]
pub enum Completion {
    Normal,
    Return(Value),
    Throw(Value),
    /// With its label, if it had one.
    Break(Option<Text>),
    /// With its label, if it had one.
    Continue(Option<Text>),
}
