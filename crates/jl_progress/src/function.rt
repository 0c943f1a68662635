//! What the builtins of the prototype of functions keep while they wait for a value (15.3).
use jl_text::List;
use jl_value::{ObjId, Value};

/// What `Function.prototype.apply` has done so far (15.3.4.3): it has the function that is called, its `this`, and the
/// object that has the arguments.
#[derive(Drop)]
pub enum FunctionProgress {
    /// It waits for the length of that object.
    Length {
        function: ObjId,
        this: Value,
        list: ObjId,
    },
    /// It waits for the length as a primitive value.
    LengthPrimitive {
        function: ObjId,
        this: Value,
        list: ObjId,
    },
    /// It waits for an element: the arguments before it, the index of the element after it, and the length.
    Element {
        function: ObjId,
        this: Value,
        list: ObjId,
        args: List<Value>,
        from: usize,
        length: usize,
    },
}
