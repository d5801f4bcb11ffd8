// What is counted and charged for a term.
use items::Assignment;

// An assignment of the tree, with the node at which it was made.
#[derive(Clone, Copy, Debug, PartialEq, Eq)]
pub struct TreeAssignment {
    pub term: Assignment,
    pub node: usize,
}

// How often a term was given a value, and what that cost.
#[derive(Clone, Copy, Debug, PartialEq, Eq)]
pub struct AssignData<M> {
    pub count: usize,
    pub charge: M,
}

// The same of a term for true and for false.
#[derive(Clone, Copy, Debug, PartialEq, Eq)]
pub struct TermData<M> {
    pub positive: AssignData<M>,
    pub negative: AssignData<M>,
}
