use jl_value::Builtin;

/// What is called: a function of the script, or one that the script finds.
#[derive(Clone, Copy)]
pub enum Callee {
    /// The function with this number in the script's table of functions, which has so many parameters, and whose body
    /// mentions `arguments` or not.
    Script {
        function: u32,
        params: u32,
        mentions: bool,
    },
    /// A builtin. A function that `bind` made is the builtin `bound`.
    Native(Builtin),
}
