//! The calls of functions of the script that are running (10.3).
ghost use Rattle.std.specs.Prelude.{◌≡◌, ◌∷◌, [], OnOk, MatchOption};
ghost use Rattle.jl_state.specs.Words.{without_innermost};

use jl_text::NoMemory;
use jl_value::Value;
use std::alloc::Global;
use std::marker::Model;

/// The call of a function of the script: its number, its `this`, how many arguments there are, and whether `new` made
/// the call.
#[derive(Drop)]
pub struct Call {
    pub function: u32,
    pub this: Value,
    pub args: usize,
    pub by_new: bool,
}

/// The calls that are running, seen as their list from the innermost one out.
#[derive(Drop)]
pub struct Calls {
    list: Vec<Call>,
}

impl Model for Calls {
    ghost use Rattle.std.specs.Prelude.{List, reverse};
    ghost use Rattle.jl_state.specs.declared.calls.Call.{Call};

    ghost Value = { List Call };

    ghost view = { λ c. reverse c.list.items };
}

impl Calls {
    /// No call.
    pub fn new(alloc: Global) -> Calls
        ensures { result ≡ [] }
    {
        Calls {
            list: Vec::new(alloc),
        }
    }

    /// A call begins.
    pub fn push(&mut self, call: Call) -> Result<(), NoMemory>
        ensures { OnOk result (self.new ≡ call ∷ self.old) }
    {
        self.list.push(call)?;
        Ok(())
    }

    /// The innermost of the calls, if one is running.
    pub fn innermost(&self) -> Option<&Call>
        ensures { MatchOption result (self.now ≡ []) (λ call. self.now ≡ call.now ∷ without_innermost self.now) }
    {
        self.list.last()
    }

    /// The innermost call is over.
    pub fn pop(&mut self) -> Option<Call>
        ensures { MatchOption result ((self.old ≡ []) × (self.new ≡ [])) (λ call. self.old ≡ call ∷ self.new) }
    {
        self.list.pop()
    }
}
