//! What the definitions of this crate come to.
ghost use Rattle.jl_report.specs.Laws.{OneReport, OffNamesRules};

/// A report is one list of lines.
pub fn one_report()
    ensures { OneReport }
{}

/// What comments switch off is rules, for lines that count from 1.
pub fn off_names_rules()
    ensures { OffNamesRules }
{}
