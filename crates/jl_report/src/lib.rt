//! The report: for each place and rule the number of hits, as lines.
#![tactic(auto)]

pub mod laws;
mod line;
mod off_comments;
mod off_list;
mod reports;

pub use line::{Line, line_text};
pub use off_comments::off;
pub use off_list::Off;
pub use reports::{report, report_at};
