//! The state of the machine that runs scripts: its frames, its store, and what a step asks of it.
#![tactic(auto)]

mod act;
mod algorithm_frame;
mod boxed;
mod calls;
mod frame;
mod functions;
mod handlers;
mod hook;
mod labels;
pub mod laws;
mod remaining;
mod script_function;
mod stack;
mod state;
mod statement_frame;
mod value_frame;

pub use act::{Act, Invocation};
pub use algorithm_frame::{AfterDefine, AlgorithmFrame, Attributes, Hint};
pub use boxed::Boxed;
pub use calls::{Call, Calls};
pub use frame::{EmitFrame, Frame, Here};
pub use handlers::{is_abrupt, is_among};
pub use hook::{CallId, Hook, HookId, Opener, Pending};
pub use labels::Labels;
pub use remaining::{Remaining, split_first};
pub use script_function::ScriptFunction;
pub use stack::Stack;
pub use state::State;
pub use statement_frame::{CompletionFrame, Loop, LoopTurn, StatementFrame, Visit, Visits};
pub use value_frame::{ArgumentUse, Arguments, MemberUse, Noted, ValueFrame};
