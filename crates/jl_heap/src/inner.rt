use jl_text::{List, Text};
use jl_value::{Builtin, ObjId, Value};

/// What an object holds beside its properties (8.6.2, table 9).
pub enum Inner {
    Nothing,
    /// The primitive value that it stands for, its [[PrimitiveValue]].
    Wrapped(Value),
    /// A function of the script, by its number, and the environment in which it was made.
    Script {
        function: u32,
        env: usize,
    },
    /// A function that is there when a run begins.
    Native(Builtin),
    /// What `bind` made of a function (15.3.4.5).
    Bound {
        target: ObjId,
        this: Value,
        args: List<Value>,
    },
    /// The arguments of a call (10.6): the environment with the parameters, and for each index the name of the
    /// parameter that it is mapped to, if any.
    Mapped {
        env: usize,
        names: List<Option<Text>>,
    },
}

// By hand, as that of a value.
impl Drop for Inner {
    fn drop(self) {
        match self {
            Inner::Nothing
            | Inner::Wrapped(_)
            | Inner::Script {
                function: _,
                env: _,
            }
            | Inner::Native(_)
            | Inner::Bound {
                target: _,
                this: _,
                args: _,
            }
            | Inner::Mapped { env: _, names: _ } => {}
        }
    }
}
