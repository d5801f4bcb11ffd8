// The line of a report for a refused line.
ghost use Rattle.std.specs.Prelude.{Some};
ghost use Rattle.checker.specs.Texts.{refused_text};

use refusal::Refusal;
use std::fmt;

// A refused line by its number, counted from 1.
#[derive(Clone, Copy, Debug, PartialEq, Eq)]
pub struct RefusedLine {
    pub line: u64,
    pub refusal: Refusal,
}

impl fmt::Display for RefusedLine {
    ghost output = { λ r. Some (refused_text r) };

    fn fmt<W: fmt::Write>(&self, f: &mut fmt::Formatter<W>) -> fmt::Result {
        let RefusedLine { line, refusal } = *self;
        let number = refusal.number();
        let place = refusal.place();
        write!(f, "line {line} refused {number} {refusal} place {place}")
    }
}
