// The numbered list of refusals.
#![tactic(auto)]

ghost use Rattle.std.specs.Prelude.{◌≡◌, Some};
ghost use Rattle.refusal.specs.Refusals.{number_of, name_of, place_of};

use std::error::Error;
use std::fmt;

mod refusals;

pub use refusals::{Refusal, TableName};

impl Refusal {
    // The number in the list.
    pub fn number(self) -> u8
        ensures { result ≡ number_of self }
    {
        let (number, _, _) = self.entry();
        number
    }

    // The name in the list.
    pub fn name(self) -> &'static str
        ensures { result.now ≡ name_of self }
    {
        let (_, name, _) = self.entry();
        name
    }

    // The place in the line; 0 for a refusal that blames no word.
    pub fn place(self) -> usize
        ensures { result ≡ place_of self }
    {
        let (_, _, place) = self.entry();
        place
    }

    // The list: the number, the name and the place.
    fn entry(self) -> (u8, &'static str, usize)
        ensures number { result.0 ≡ number_of self }
        ensures name { result.1.now ≡ name_of self }
        ensures place { result.2 ≡ place_of self }
    {
        match self {
            Refusal::UnexpectedNewline { place } => (1, "UnexpectedNewline", place),
            Refusal::ExpectedNewline { place } => (2, "ExpectedNewline", place),
            Refusal::BoolLiteral { place } => (3, "BoolLiteral", place),
            Refusal::TupleMissingParens { place } => (4, "TupleMissingParens", place),
            Refusal::InvalidBoolLiteral { place } => (5, "InvalidBoolLiteral", place),
            Refusal::BoolLiteralNotP { place } => (6, "BoolLiteralNotP", place),
            Refusal::MissingColonJustification { place } => (7, "MissingColonJustification", place),
            Refusal::InvalidTheoryId { place } => (8, "InvalidTheoryId", place),
            Refusal::UnknownJustification { place } => (9, "UnknownJustification", place),
            Refusal::InvalidFrameInteger { place } => (10, "InvalidFrameInteger", place),
            Refusal::DecisionNotAxiom { place } => (11, "DecisionNotAxiom", place),
            Refusal::LineTooLong => (12, "LineTooLong", 0),
            Refusal::StackFrameNotPushed => (13, "StackFrameNotPushed", 0),
            Refusal::ConflictPending => (14, "ConflictPending", 0),
            Refusal::LeafNotActive => (15, "LeafNotActive", 0),
            Refusal::PopTooDeep => (16, "PopTooDeep", 0),
            Refusal::LeafStands => (17, "LeafStands", 0),
            Refusal::NoFrameBelow => (18, "NoFrameBelow", 0),
            Refusal::UnknownId { place } => (19, "UnknownId", place),
            Refusal::TermTooLarge { place } => (20, "TermTooLarge", place),
            Refusal::TableFull { .. } => (21, "TableFull", 0),
            Refusal::BadTables => (22, "BadTables", 0),
            Refusal::BadNumber => (23, "BadNumber", 0),
        }
    }
}

// A refusal is printed by its name.
impl fmt::Display for Refusal {
    ghost output = { λ r. Some (name_of r) };

    fn fmt<W: fmt::Write>(&self, f: &mut fmt::Formatter<W>) -> fmt::Result {
        f.write_str(self.name())
    }
}

impl Error for Refusal {}
