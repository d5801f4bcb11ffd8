// What a line of a trace says, as parts of the line.
use words::{Word, Words};

// How solver literals are written: `-5` in bare mode, `(not p5)` in prefixed mode.
#[derive(Clone, Copy, Debug, PartialEq, Eq)]
pub enum Mode {
    Bare,
    Prefixed,
}

#[derive(Clone, Copy, Debug, PartialEq, Eq)]
pub enum LineKind {
    Other,
    Assign,
    DecideAndOr,
    Conflict,
    Push,
    Pop,
    BeginCheck,
}

// The first word of a named literal.
#[derive(Clone, Copy, Debug, PartialEq, Eq)]
pub enum LiteralWord {
    Constant,
    Not,
    Id,
}

// The first word after an assign's literal.
#[derive(Clone, Copy, Debug, PartialEq, Eq)]
pub enum Keyword {
    Decision,
    Axiom,
    Bin,
    Clause,
    Justification,
    Unknown,
}

// A literal by the solver's own number, which is never 0.
#[derive(Clone, Copy, Debug, PartialEq, Eq)]
pub enum SolverLiteral {
    Constant(bool),
    Variable { number: u32, value: bool },
}

// Why a literal was assigned, as the line has it.
#[derive(Clone, Copy, Debug, PartialEq, Eq)]
pub enum Reason {
    Decision,
    Axiom,
    Bin(SolverLiteral),
    Clause(SolverLiteral),
    Theory(i32),
}

// An id with its place, and its value.
#[derive(Clone, Copy, Debug, PartialEq, Eq)]
pub struct NamedLiteral<'a> {
    pub id: Word<'a>,
    pub value: bool,
}

// The named literals that are left of a line.
#[derive(Clone, Copy, Debug, PartialEq, Eq)]
pub struct Literals<'a> {
    pub rest: Words<'a>,
}

#[derive(Clone, Copy, Debug, PartialEq, Eq)]
pub enum Event<'a> {
    Other,
    Assign {
        literal: NamedLiteral<'a>,
        rest: Words<'a>,
    },
    DecideAndOr,
    Conflict {
        literals: Literals<'a>,
    },
    Push {
        scope: u64,
    },
    Pop {
        count: u64,
        scope: u64,
    },
    BeginCheck {
        scope: u64,
    },
}
