/// How many functions were entered, and how many conditions were both true and false.
#[derive(Clone, Copy, PartialEq, Eq, Debug)]
pub struct Totals {
    /// The functions that were entered.
    pub entered: u32,
    /// All functions of the script.
    pub functions: u32,
    /// The conditions that were both true and false.
    pub decided: u32,
    /// All conditions of the script.
    pub conditions: u32,
}
