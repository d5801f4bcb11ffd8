// The counts and charges of the terms, assignment by assignment.
ghost use Rattle.std.specs.Prelude.{◌≡◌, true, length};
ghost use Rattle.analysis.specs.Answers.{judged};
ghost use Rattle.analysis.specs.Charges.{within, charged};
ghost use Rattle.analysis.specs.Steps.{no_data, one_more, posted};

use crate::data::{AssignData, TermData, TreeAssignment};
use crate::entries::fill;
use measures::Join;
use refusal::Refusal;

// Whether each assignment is at a node and of a term for which there are entries.
pub(crate) fn within(assignments: &[TreeAssignment], nodes: usize, terms: usize) -> bool
    ensures { result ≡ within nodes terms assignments.now }
{
    assignments
        .iter()
        .all(|a| a.node < nodes && a.term.literal < terms)
}

fn no_data<M: Join>() -> TermData<M>
    ensures { result ≡ no_data M.Join.nothing }
{
    let none = AssignData {
        count: 0,
        charge: M::unit(),
    };
    TermData {
        positive: none,
        negative: none,
    }
}

// One assignment more, at a node of this total.
fn one_more<M: Join>(before: AssignData<M>, total: M) -> AssignData<M>
    ensures { result ≡ one_more M.Join.joined total before }
{
    AssignData {
        count: before.count.saturating_add(1),
        charge: before.charge.join(total),
    }
}

fn posted<M: Join>(before: TermData<M>, value: bool, total: M) -> TermData<M>
    ensures { result ≡ posted M.Join.joined value total before }
{
    if value {
        TermData {
            positive: one_more(before.positive, total),
            ..before
        }
    } else {
        TermData {
            negative: one_more(before.negative, total),
            ..before
        }
    }
}

// Cleared, then one for each assignment outside node 0.
#[tactic(auto, using(crate::proofs::Within::within_at, crate::proofs::Tallies::charge_none, crate::proofs::Tallies::charge_more))]
pub(crate) fn charge_all<M: Join>(
    assignments: &[TreeAssignment],
    totals: &[M],
    terms: &mut [TermData<M>],
)
    requires { within (length totals.now) (length terms.old) assignments.now ≡ true }
    ensures { terms.new ≡ charged M.Join.nothing M.Join.joined totals.now (length terms.old) assignments.now }
{
    fill(terms, no_data());
    for assignment in assignments {
        if assignment.node == 0 {
            continue;
        }
        let total = totals[assignment.node];
        let term = assignment.term.literal;
        terms[term] = posted(terms[term], assignment.term.value, total);
    }
}

// The counts and charges of all terms: cleared, then one for each assignment outside node 0, the charge by the total of its node.
pub fn charges<M: Join>(
    assignments: &[TreeAssignment],
    totals: &[M],
    terms: &mut [TermData<M>],
) -> Result<(), Refusal>
    ensures { (result, terms.new) ≡ judged (within (length totals.now) (length terms.old) assignments.now) (charged M.Join.nothing M.Join.joined totals.now (length terms.old) assignments.now) terms.old }
{
    if !within(assignments, totals.len(), terms.len()) {
        return Err(Refusal::BadTables);
    }
    charge_all(assignments, totals, terms);
    Ok(())
}
