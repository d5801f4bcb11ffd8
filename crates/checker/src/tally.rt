// How many lines of each kind were read, and how many refused.
ghost use Rattle.std.specs.Prelude.{◌≡◌, true, List, [], ◌∷◌, ◌++◌, Some};
ghost use Rattle.checker.specs.Tallies.{Answer, tally_of, noted, one_more};
ghost use Rattle.checker.specs.Texts.{tally_text};

use events::LineKind;
use refusal::Refusal;
use std::fmt;

#[derive(Clone, Copy, Debug, Default, PartialEq, Eq)]
pub struct Tally {
    pub lines: u64,
    pub assign: u64,
    pub decide_and_or: u64,
    pub conflict: u64,
    pub push: u64,
    pub pop: u64,
    pub begin_check: u64,
    pub other: u64,
    pub refused: u64,
}

impl Tally {
    // No line yet.
    pub fn new() -> Self
        ensures { result ≡ tally_of [] }
    {
        Tally::default()
    }

    // One answer more.
    #[tactic(auto, using(crate::proofs::Sums::noted_is))]
    pub fn note(&mut self, answer: Result<LineKind, Refusal>)
        ensures after { self.new ≡ noted self.old answer }
        ensures laws { (xs : List Answer) → self.old ≡ tally_of xs → self.new ≡ tally_of (xs ++ answer ∷ []) }
    {
        add_one(&mut self.lines);
        match answer {
            Ok(LineKind::Other) => add_one(&mut self.other),
            Ok(LineKind::Assign) => add_one(&mut self.assign),
            Ok(LineKind::DecideAndOr) => add_one(&mut self.decide_and_or),
            Ok(LineKind::Conflict) => add_one(&mut self.conflict),
            Ok(LineKind::Push) => add_one(&mut self.push),
            Ok(LineKind::Pop) => add_one(&mut self.pop),
            Ok(LineKind::BeginCheck) => add_one(&mut self.begin_check),
            Err(_) => add_one(&mut self.refused),
        }
    }
}

// A count that has reached 2^64 - 1 stays there.
fn add_one(count: &mut u64)
    ensures { count.new ≡ one_more true count.old }
{
    *count = count.saturating_add(1);
}

impl fmt::Display for Tally {
    ghost output = { λ t. Some (tally_text t) };

    fn fmt<W: fmt::Write>(&self, f: &mut fmt::Formatter<W>) -> fmt::Result {
        let Tally {
            lines,
            assign,
            decide_and_or,
            conflict,
            push,
            pop,
            begin_check,
            other,
            refused,
        } = *self;
        write!(
            f,
            "lines {lines} assign {assign} decide-and-or {decide_and_or} conflict {conflict} \
             push {push} pop {pop} begin-check {begin_check} other {other} refused {refused}"
        )
    }
}
