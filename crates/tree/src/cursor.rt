// The nodes of a way that are still to come.
ghost use Rattle.std.specs.Prelude.{◌≡◌, drop, ⊤};
ghost use Rattle.std.specs.Iterator.{MakesProgress, YieldsFirst, item_count};
ghost use Rattle.std.specs.List.{slice_get};
ghost use Rattle.tree.specs.Leads.{lead};
ghost use Rattle.tree.specs.Ways.{WayLaws};

use crate::lead;
use items::Cdcl;
use refusal::Refusal;

#[derive(Clone, Copy, Debug, PartialEq, Eq)]
pub struct ToRoot<'a> {
    nodes: &'a [Cdcl],
    at: Option<usize>,
}

impl<'a> ToRoot<'a> {
    ghost use Rattle.tree.specs.Left.{started, way_from};

    // The way of a node to the root, both ends in it.
    #[tactic(auto, using(crate::proofs::Leads::laws_of))]
    pub fn new(nodes: &'a [Cdcl], number: usize) -> Result<ToRoot<'a>, Refusal>
        ensures value { started result ≡ way_from nodes.now number }
        ensures laws { WayLaws (lead nodes.now) number }
    {
        if number >= nodes.len() {
            return Err(Refusal::BadNumber);
        }
        let at = Some(number);
        Ok(ToRoot { nodes, at })
    }
}

impl Iterator for ToRoot<'_> {
    ghost use Rattle.tree.specs.Left.{left};

    type Item = usize;

    ghost next_gives = { YieldsFirst left };

    ghost remaining = { item_count left };

    // Gives the node at hand, and goes on to its lead.
    #[tactic(auto, using(crate::proofs::Leads::way_more))]
    fn next(&mut self) -> Option<usize>
        ensures value { result ≡ slice_get (left self.old) 0 }
        ensures after { left self.new ≡ drop 1 (left self.old) }

        // What the trait asks.
        ensures steps { YieldsFirst left self.old result self.new }
        ensures goes { MakesProgress (λ _. ⊤) (item_count left) self.old result self.new }
    {
        let at = self.at?;
        self.at = lead(self.nodes, at);
        Some(at)
    }
}
