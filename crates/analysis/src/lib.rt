// What the search cost: totals of the nodes of a tree, and the counts and charges of the terms that were assigned there.
//
// Every list of nodes is a tree, and tables are lent. A call that finds one too short changes nothing.
#![tactic(auto)]

ghost use Rattle.std.specs.Prelude.{◌≡◌};
ghost use Rattle.measures.specs.Measures.{empty_size, size_sum, size_weight};
ghost use Rattle.analysis.specs.Costs.{costed, Exact, Worked};

use crate::nodes::sweep_front;
use crate::terms::{charge_all, within};
use items::Cdcl;
use measures::{Measure, Size};
use refusal::Refusal;

mod data;
mod entries;
mod nodes;
mod terms;

pub use data::{AssignData, TermData, TreeAssignment};
pub use nodes::totals;
pub use terms::charges;

// The totals of the nodes, and by these the counts and charges of the terms.
#[tactic(auto, using(crate::proofs::Within::costs_done))]
pub fn costs<M: Measure>(
    nodes: &[Cdcl],
    assignments: &[TreeAssignment],
    depths: &mut [usize],
    totals: &mut [M],
    terms: &mut [TermData<M>],
) -> Result<(), Refusal>
    ensures { (result, (depths.new, totals.new, terms.new)) ≡ costed M.Join.nothing M.Join.joined M.Measure.weight nodes.now assignments.now depths.old totals.old terms.old }
{
    // The lengths first: short tables are refused without a look at any assignment.
    let count = nodes.len();
    if depths.len() < count || totals.len() < count || !within(assignments, count, terms.len()) {
        return Err(Refusal::BadTables);
    }
    sweep_front(nodes, depths, totals);
    charge_all(assignments, &totals[..count], terms);
    Ok(())
}

// The same by Size: what the Rust crate calls costs. The bound on its sums speaks of Size alone.
#[tactic(auto, using(crate::proofs::Sizes::exact, crate::proofs::Sizes::worked))]
pub fn size_costs(
    nodes: &[Cdcl],
    assignments: &[TreeAssignment],
    depths: &mut [usize],
    totals: &mut [Size],
    terms: &mut [TermData<Size>],
) -> Result<(), Refusal>
    ensures after { (result, (depths.new, totals.new, terms.new)) ≡ costed empty_size size_sum size_weight nodes.now assignments.now depths.old totals.old terms.old }
    ensures exact { Exact nodes.now assignments.now }
    ensures worked { Worked }
{
    costs(nodes, assignments, depths, totals, terms)
}
