ghost use Rattle.std.specs.Prelude.{◌≡◌, IfOk};
ghost use Rattle.jl_profile.specs.Births.{births_bytes, way_text};

use std::alloc::{AllocError, Global};

/// How an object is made, in the order of rows.
#[derive(Clone, Copy, PartialEq, Eq, PartialOrd, Ord, Debug)]
pub enum Way {
    /// By an array literal (11.1.4).
    Array,
    /// By an object literal (11.1.5).
    Object,
    /// By a function expression (11.1.5, 13).
    Function,
    /// As the result of a call by `new` (11.2.2).
    New,
}

/// How many objects are made at a place in a way, and how many of them are never used. Lines and columns count from 1,
/// and columns in UTF-16 units.
#[derive(Clone, Copy, PartialEq, Eq, Debug)]
pub struct Births {
    pub line: u32,
    pub column: u32,
    pub way: Way,
    pub made: u64,
    pub unused: u64,
}

impl Way {
    /// How it is written.
    fn text(self) -> &'static str
        ensures { result.now ≡ way_text self }
    {
        match self {
            Way::Array => "array",
            Way::Object => "object",
            Way::Function => "function",
            Way::New => "new",
        }
    }
}

/// The text of a line of the answer, `LINE:COLUMN WAY made=N unused=N`, in UTF-8 and without a line terminator.
pub fn births_text(alloc: Global, births: &Births) -> Result<Vec<u8>, AllocError>
    ensures { IfOk result (λ text. text.items ≡ births_bytes births.now) }
{
    let line = births.line;
    let column = births.column;
    let way = births.way.text();
    let made = births.made;
    let unused = births.unused;
    let text = format!(in alloc; "{line}:{column} {way} made={made} unused={unused}")?;
    Ok(text.into_bytes())
}
