// The tree of the search: each node's next one towards the root, its way there, and its depth.
//
// The tree is a list of nodes, which go by their places in it. Every list is taken: a node that names none below it is a root.
#![tactic(auto)]

ghost use Rattle.std.specs.Prelude.{◌≡◌};
ghost use Rattle.tree.specs.Leads.{lead};
ghost use Rattle.tree.specs.Ways.{Below};
ghost use Rattle.tree.specs.Left.{depth_from};

use items::Cdcl;
use refusal::Refusal;

mod cursor;

pub use cursor::ToRoot;

// The next node towards the root, if the node has one.
pub fn lead(nodes: &[Cdcl], number: usize) -> Option<usize>
    ensures value { result ≡ lead nodes.now number }
    ensures below { Below (lead nodes.now) }
{
    let node = nodes.get(number)?;
    node.backlink(number)
        .to_root()
        .filter(|&next| next < number)
}

// The number of steps from a node to the root.
pub fn depth(nodes: &[Cdcl], number: usize) -> Result<usize, Refusal>
    ensures { result ≡ depth_from nodes.now number }
{
    let mut way = ToRoot::new(nodes, number)?;
    way.next();
    Ok(way.count())
}

#[cfg(test)]
mod tests {
    use super::*;
    use items::CdclKind;

    #[test]
    fn no_such_node(rt: HostRuntime) {
        let root = Cdcl::new(CdclKind::Root, 0, 0);
        let decision = Cdcl::new(CdclKind::Decision(0), 0, 0);
        let nodes = [root, decision, decision];
        assert_eq!(rt; depth(&nodes, 2), Ok(2));
        assert_eq!(rt; depth(&nodes, 3), Err(Refusal::BadNumber));
        assert_eq!(rt; ToRoot::new(&nodes, 3), Err(Refusal::BadNumber));
        assert_eq!(rt; lead(&nodes, 3), None);
    }
}
