// Checks the text of a log that comes in pieces.
#![tactic(auto)]

mod checker;
mod report;
mod tally;

pub use checker::LogChecker;
pub use report::RefusedLine;
pub use tally::Tally;
