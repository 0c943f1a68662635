ghost use Rattle.std.specs.Prelude.{◌≡◌, IfSome};
ghost use Rattle.jl_app.specs.Forms.{form_of_command, may_name_hooks, most_bytes, most_levels, most_read_by};

use jl_command::Command;

/// The most bytes of a script.
const MOST_BYTES: usize = 1_048_576;

/// The most levels of a script.
const MOST_LEVELS: u32 = 200;

/// The most bytes of a woven text, and so of its units: those of a script 64 times, and 64 more.
pub(crate) const MOST_WOVEN_BYTES: usize = 67_108_928;

/// The most levels of a woven text.
pub(crate) const MOST_WOVEN_LEVELS: u32 = 1000;

/// The most bytes of a source map.
const MOST_MAP_BYTES: usize = 67_108_864;

/// The most bytes of the text of a stored run.
pub(crate) const MOST_RECORD_BYTES: usize = 268_435_456;

/// The most bytes that a command reads, if it reads the source.
pub(crate) fn most_read_by(command: Command) -> Option<usize>
    ensures { result ≡ most_read_by command }
{
    match command {
        Command::Soak { .. } => None,
        Command::Exec { .. } => Some(MOST_WOVEN_BYTES),
        Command::Unmap => Some(MOST_MAP_BYTES),
        Command::Replay { .. } => Some(MOST_RECORD_BYTES),
        _ => Some(MOST_BYTES),
    }
}

/// What a source that is a program has to be.
#[derive(Clone, Copy)]
pub enum Form {
    /// A script.
    Script,
    /// A woven text, such as `instrument` writes. It is larger, and may name the hooks.
    WovenText,
}

impl Form {
    /// The form of the program that the command reads, where it reads one.
    pub fn of(command: Command) -> Form
        ensures { IfSome (form_of_command command) (λ form. result ≡ form) }
    {
        match command {
            Command::Exec { .. } => Form::WovenText,
            _ => Form::Script,
        }
    }

    /// The most bytes that it has.
    pub fn most_bytes(self) -> usize
        ensures { result ≡ most_bytes self }
    {
        match self {
            Form::Script => MOST_BYTES,
            Form::WovenText => MOST_WOVEN_BYTES,
        }
    }

    /// The most levels of its program.
    pub fn most_levels(self) -> u32
        ensures { result ≡ most_levels self }
    {
        match self {
            Form::Script => MOST_LEVELS,
            Form::WovenText => MOST_WOVEN_LEVELS,
        }
    }

    /// Whether its program may name the hooks.
    pub fn may_name_hooks(self) -> bool
        ensures { result ≡ may_name_hooks self }
    {
        match self {
            Form::Script => false,
            Form::WovenText => true,
        }
    }
}
