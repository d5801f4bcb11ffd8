// Why a call is refused: one list for text, order, book and caller.

// The tables that can be full.
#[derive(Clone, Copy, Debug, PartialEq, Eq)]
pub enum TableName {
    Frames,
    Literals,
    Nodes,
    Propagations,
    Cuts,
    Answer,
}

// A refusal that blames a word holds the place of its first byte, one that misses a word the line's length.
#[derive(Clone, Copy, Debug, PartialEq, Eq)]
pub enum Refusal {
    // The text.
    UnexpectedNewline { place: usize },
    ExpectedNewline { place: usize },
    BoolLiteral { place: usize },
    TupleMissingParens { place: usize },
    InvalidBoolLiteral { place: usize },
    BoolLiteralNotP { place: usize },
    MissingColonJustification { place: usize },
    InvalidTheoryId { place: usize },
    UnknownJustification { place: usize },
    InvalidFrameInteger { place: usize },
    DecisionNotAxiom { place: usize },
    LineTooLong,
    // The solver's order.
    StackFrameNotPushed,
    ConflictPending,
    LeafNotActive,
    PopTooDeep,
    LeafStands,
    NoFrameBelow,
    // The book.
    UnknownId { place: usize },
    TermTooLarge { place: usize },
    // The caller.
    TableFull { table: TableName },
    BadTables,
    BadNumber,
}
