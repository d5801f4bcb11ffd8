// Trees of several shapes, with their depths and totals by Size and by Reach side by side, and what their assignments cost.
#![tactic(auto)]

use analysis::{AssignData, TermData, TreeAssignment, charges, size_costs, totals};
use anyhow::bail;
use items::{Assignment, Cdcl, CdclKind, Conflict, Run};
use measures::{Join, Measure, Reach, Size};
use tree::ToRoot;

fn main(rt: HostRuntime) -> anyhow::Result<()> {
    show(&rt, "root alone", &[node(CdclKind::Root)])?;
    show(
        &rt,
        "depth 1",
        &[node(CdclKind::Root), node(CdclKind::Decision(0))],
    )?;
    let chain = [
        node(CdclKind::Root),
        node(CdclKind::Decision(0)),
        node(CdclKind::Decision(1)),
        node(CdclKind::Decision(2)),
        node(CdclKind::Decision(3)),
    ];
    show(&rt, "chain", &chain)?;
    let star = [
        node(CdclKind::Root),
        node(CdclKind::BeginCheck(None)),
        node(CdclKind::Empty(0)),
        node(CdclKind::BeginCheck(Some(0))),
        conflict(0),
    ];
    show(&rt, "star", &star)?;
    let jump = [
        node(CdclKind::Root),
        node(CdclKind::Decision(0)),
        node(CdclKind::Decision(1)),
        conflict(1),
    ];
    show(&rt, "jump back", &jump)?;
    // Node 1 names a node that is not below it: it is a root of its own.
    let two_roots = [
        node(CdclKind::Root),
        node(CdclKind::Empty(1)),
        node(CdclKind::Decision(0)),
    ];
    show(&rt, "two roots", &two_roots)?;
    charge(&rt, &jump)?;
    large(&rt)
}

fn node(kind: CdclKind) -> Cdcl {
    Cdcl::new(kind, 0, 0)
}

fn conflict(backtrack: usize) -> Cdcl {
    let cut = Run { start: 0, count: 0 };
    node(CdclKind::Conflict(Conflict { cut, backtrack }))
}

fn show(rt: &impl Print, name: &str, nodes: &[Cdcl]) -> anyhow::Result<()> {
    let mut depths = [0usize; 8];
    let mut sizes = [Size::unit(); 8];
    let mut reaches = [Reach::unit(); 8];
    println!(rt; "{name}")?;
    totals(nodes, &mut depths, &mut sizes)?;
    totals(nodes, &mut depths, &mut reaches)?;
    let columns = depths.iter().zip(&sizes).zip(&reaches);
    for (k, ((depth, size), reach)) in columns.take(nodes.len()).enumerate() {
        let (size, reach) = (size.total, reach.depth);
        print!(rt; "node {k} depth {depth} size {size} reach {reach} way")?;
        print_way(rt, nodes, k)?;
    }
    Ok(())
}

fn print_way(rt: &impl Print, nodes: &[Cdcl], k: usize) -> anyhow::Result<()> {
    for node in ToRoot::new(nodes, k)? {
        print!(rt; " {node}")?;
    }
    println!(rt)?;
    Ok(())
}

// Two assignments of term 2 stand at node 1, and one of term 0 at node 0.
fn charge(rt: &impl Print, nodes: &[Cdcl]) -> anyhow::Result<()> {
    let assignments = [
        assigned(0, true, 0),
        assigned(1, true, 1),
        assigned(2, true, 1),
        assigned(2, true, 1),
        assigned(3, false, 2),
        assigned(3, true, 3),
    ];
    let mut depths = [0usize; 4];
    let mut sizes = [Size::unit(); 4];
    let mut reaches = [Reach::unit(); 4];
    let mut by_size = [uncleared(Size::weigh(CdclKind::Root, 9)); 4];
    let mut by_reach = [uncleared(Reach::weigh(CdclKind::Root, 9)); 4];
    size_costs(nodes, &assignments, &mut depths, &mut sizes, &mut by_size)?;
    totals(nodes, &mut depths, &mut reaches)?;
    charges(&assignments, &reaches, &mut by_reach)?;
    println!(rt; "charges")?;
    print_terms(rt, &by_size, &by_reach)?;
    // A table is short: refused, and all tables are as before.
    let few = &mut depths[..3];
    let short_depths = size_costs(nodes, &[], few, &mut sizes, &mut by_size).is_err();
    let short_totals = charges(&assignments, &reaches[..3], &mut by_reach).is_err();
    println!(rt; "short depths refused {short_depths}, short totals refused {short_totals}")?;
    print_terms(rt, &by_size, &by_reach)
}

fn print_terms(
    rt: &impl Print,
    by_size: &[TermData<Size>],
    by_reach: &[TermData<Reach>],
) -> anyhow::Result<()> {
    for (term, (by_size, by_reach)) in by_size.iter().zip(by_reach).enumerate() {
        let (yes, no) = (by_size.positive, by_size.negative);
        let (true_count, true_size) = (yes.count, yes.charge.total);
        let (false_count, false_size) = (no.count, no.charge.total);
        let true_reach = by_reach.positive.charge.depth;
        let false_reach = by_reach.negative.charge.depth;
        print!(rt; "term {term} true {true_count} size {true_size} reach {true_reach} ")?;
        println!(rt; "false {false_count} size {false_size} reach {false_reach}")?;
    }
    Ok(())
}

fn assigned(literal: usize, value: bool, node: usize) -> TreeAssignment {
    let term = Assignment { literal, value };
    TreeAssignment { term, node }
}

// What stood in a table before.
fn uncleared<M: Join>(charge: M) -> TermData<M> {
    let data = AssignData { count: 7, charge };
    TermData {
        positive: data,
        negative: data,
    }
}

// A chain and a star of 1,048,576 nodes, and 4,194,304 assignments at node 1 of each.
fn large(rt: &(impl Print + Alloc)) -> anyhow::Result<()> {
    let count = 1048576;
    let mut nodes = vec![in rt.alloc(); node(CdclKind::Root); count]?;
    let mut depths = vec![in rt.alloc(); 0usize; count]?;
    let mut sizes = vec![in rt.alloc(); Size::unit(); count]?;
    let mut reaches = vec![in rt.alloc(); Reach::unit(); count]?;
    let assignments = vec![in rt.alloc(); assigned(0, true, 1); 4194304]?;
    let mut terms = vec![in rt.alloc(); uncleared(Size::unit()); 1]?;
    for kind in [CdclKind::Decision(0), CdclKind::Empty(0)] {
        for node in nodes.iter_mut() {
            node.kind = kind;
        }
        let done = size_costs(&nodes, &assignments, &mut depths, &mut sizes, &mut terms).is_ok()
            && totals(&nodes, &mut depths, &mut reaches).is_ok();
        let (Some(size), Some(reach), Some(term)) = (sizes.first(), reaches.first(), terms.first())
        else {
            bail!("no nodes");
        };
        let (size, reach) = (size.total, reach.depth);
        let (count, charge) = (term.positive.count, term.positive.charge.total);
        println!(rt; "large {done} size {size} reach {reach} count {count} charge {charge}")?;
    }
    Ok(())
}
