//! What the builtins of errors keep while they wait for a value (15.11).
use jl_text::Text;
use jl_value::ObjId;

/// What a builtin of errors has done so far.
#[derive(Drop)]
pub enum ErrorProgress {
    /// A new error waits for its message (15.11.1, 15.11.7).
    NewMessage { proto: ObjId },
    /// `Error.prototype.toString` waits for the name (15.11.4.4).
    Name { object: ObjId },
    /// It waits for the name as a primitive value.
    NamePrimitive { object: ObjId },
    /// It waits for the message.
    Message { name: Text },
    /// It waits for the message as a primitive value.
    MessagePrimitive { name: Text },
}
