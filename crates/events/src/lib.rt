// What the lines of a trace say.
#![tactic(auto)]

mod keywords;
mod lines;
mod literals;
mod reasons;
mod shapes;

pub use lines::{check_line, read_event};
pub use reasons::read_reason;
pub use shapes::{Event, LineKind, Literals, Mode, NamedLiteral, Reason, SolverLiteral};
