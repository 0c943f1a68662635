use jl_analysis::RuleSet;

/// What the program can be asked for. A budget is the most steps of a script's run, from 0 to 1,000,000,000.
#[derive(Clone, Copy)]
pub enum Command {
    /// Runs a script woven, and reports what was odd by the chosen rules.
    Lint {
        budget: u64,
        rules: RuleSet,
    },
    /// Runs a script as it stands.
    Run {
        budget: u64,
    },
    /// Tells whether a script is accepted.
    Check,
    /// Writes the canonical text of a script.
    Print,
    /// Writes the text of the woven script.
    Instrument,
    /// Lists the operations of a script by their ids.
    Map,
    /// Writes the source map of the text of the woven script.
    Srcmap,
    /// Lists the segments of a source map.
    Unmap,
    /// Runs a script woven, and tells each of its operations.
    Trace {
        budget: u64,
    },
    /// Runs a woven text as it stands, and tells each of its operations.
    Exec {
        budget: u64,
    },
    /// Runs a script woven, and writes its operations as a record.
    Record {
        budget: u64,
    },
    /// Reports what was odd in a record by the chosen rules.
    Replay {
        rules: RuleSet,
    },
    /// Runs a script woven, and lists where it makes objects, and how many of these it never uses.
    Objects {
        budget: u64,
    },
    /// Runs a script woven, and lists the functions and the conditions that were not covered.
    Cover {
        budget: u64,
    },
    /// Does what `Lint` does with a script that it makes of so many functions, from 0 to 8,000.
    Soak {
        number: u32,
        budget: u64,
        rules: RuleSet,
    },
}
