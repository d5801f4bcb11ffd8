// The totals of the nodes, from the last node down to the first.
ghost use Rattle.std.specs.Prelude.{◌≡◌, ◌≤◌, length};
ghost use Rattle.analysis.specs.Answers.{overwritten};
ghost use Rattle.analysis.specs.Totals.{all_depths, all_totals, totalled};

use crate::entries::fill;
use items::Cdcl;
use measures::Measure;
use refusal::Refusal;
use tree::lead;

// The depths of the nodes, from the first node up, each from that of its lead.
#[tactic(auto, using(crate::proofs::Depths::found))]
fn find_depths(nodes: &[Cdcl], depths: &mut [usize])
    requires { length depths.old ≡ length nodes.now }
    ensures { depths.new ≡ all_depths nodes.now }
{
    // By number, since `lead` is asked by it, and lower depths are read by it.
    for k in 0..nodes.len() {
        depths[k] = match lead(nodes, k) {
            Some(next) => depths[next] + 1,
            None => 0,
        };
    }
}

// The totals of the nodes, from the last node down: what came from the nodes that lead to node k, joined with its own weight, is its total, and goes on to its lead.
#[tactic(auto, using(crate::proofs::Sweeps::swept))]
fn sweep<M: Measure>(nodes: &[Cdcl], depths: &[usize], totals: &mut [M])
    requires found { depths.now ≡ all_depths nodes.now }
    requires long { length totals.old ≡ length nodes.now }
    ensures { totals.new ≡ all_totals M.Join.nothing M.Join.joined M.Measure.weight nodes.now }
{
    fill(totals, M::unit());
    // By number: over `iter().enumerate().rev()` the bounds at k stay open.
    for k in (0..nodes.len()).rev() {
        let weight = M::weigh(nodes[k].kind, depths[k]);
        let total = totals[k].join(weight);
        totals[k] = total;
        if let Some(next) = lead(nodes, k) {
            totals[next] = totals[next].join(total);
        }
    }
}

// The depths and the totals, written over the first entries of longer tables.
pub(crate) fn sweep_front<M: Measure>(nodes: &[Cdcl], depths: &mut [usize], totals: &mut [M])
    requires depths { length nodes.now ≤ length depths.old }
    requires totals { length nodes.now ≤ length totals.old }
    ensures depths { depths.new ≡ overwritten (all_depths nodes.now) depths.old }
    ensures totals { totals.new ≡ overwritten (all_totals M.Join.nothing M.Join.joined M.Measure.weight nodes.now) totals.old }
{
    let count = nodes.len();
    let depths = &mut depths[..count];
    find_depths(nodes, depths);
    sweep(nodes, depths, &mut totals[..count]);
}

// Each node's total: the weights of all nodes whose way to the root passes through it, joined. Its depth beside it.
pub fn totals<M: Measure>(
    nodes: &[Cdcl],
    depths: &mut [usize],
    totals: &mut [M],
) -> Result<(), Refusal>
    ensures { (result, (depths.new, totals.new)) ≡ totalled M.Join.nothing M.Join.joined M.Measure.weight nodes.now depths.old totals.old }
{
    let count = nodes.len();
    if depths.len() < count || totals.len() < count {
        return Err(Refusal::BadTables);
    }
    sweep_front(nodes, depths, totals);
    Ok(())
}
