// Literals, and the nodes of the search tree.

// Entries of a table that follow one another: `count` of them, the first at the key `start`.
#[derive(Clone, Copy, Debug, PartialEq, Eq)]
pub struct Run {
    pub start: usize,
    pub count: usize,
}

// The value that a term is given; `literal` is the term's number.
#[derive(Clone, Copy, Debug, PartialEq, Eq)]
pub struct Assignment {
    pub literal: usize,
    pub value: bool,
}

// What led to an assignment; a theory goes by its number in the log.
#[derive(Clone, Copy, Debug, PartialEq, Eq)]
pub enum Justification {
    Axiom,
    Decision,
    Theory(i32),
    Propagate,
}

#[derive(Clone, Copy, Debug, PartialEq, Eq)]
pub struct Literal {
    pub term: Assignment,
    pub frame: usize,
    pub justification: Justification,
}

// `cut` is a run of cut entries, `backtrack` the node to which the conflict leads.
#[derive(Clone, Copy, Debug, PartialEq, Eq)]
pub struct Conflict {
    pub cut: Run,
    pub backtrack: usize,
}

// A BeginCheck may hold its parent's number, an Empty node holds its parent's, a Decision that of its literal.
#[derive(Clone, Copy, Debug, PartialEq, Eq)]
pub enum CdclKind {
    Root,
    BeginCheck(Option<usize>),
    Empty(usize),
    Decision(usize),
    Conflict(Conflict),
}

// `propagates` is a run of propagations; `conflicts` says that a conflict was found at the node.
#[derive(Clone, Copy, Debug, PartialEq, Eq)]
pub struct Cdcl {
    pub kind: CdclKind,
    pub frame: usize,
    pub propagates: Run,
    pub conflicts: bool,
}

// The node before and the node to jump back to, where a node has them. A BeginCheck or an Empty node is a side track.
#[derive(Clone, Copy, Debug, PartialEq, Eq)]
pub struct CdclBacklink {
    pub previous: Option<usize>,
    pub backtrack: Option<usize>,
    pub sidetrack: bool,
}
