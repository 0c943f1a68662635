ghost use Rattle.std.specs.Prelude.{◌≡◌};
ghost use Rattle.jl_app.specs.Codes.{code_of};

/// How a command ended. Its number is the program's exit status.
#[derive(Clone, Copy, PartialEq, Eq, Debug)]
pub enum Status {
    /// The run ended normally, and there is nothing to report.
    Clean,
    /// The run ended normally, and there are report lines.
    Reports,
    /// The words are no command.
    BadWords,
    /// The script is refused.
    Refused,
    /// The run ended by an uncaught throw.
    Thrown,
    /// The run ended by a fault.
    Fault,
    /// The run needed more steps than its budget.
    Spent,
    /// The script could not be read.
    ReadFault,
    /// The answer could not be written.
    WriteFault,
    /// No memory was left, and nothing was written.
    NoMemory,
}

impl Status {
    /// The number, from 0 to 9 in the order of the variants.
    pub fn code(self) -> u8
        ensures { result ≡ code_of self }
    {
        self as u8
    }
}
