// Joinings and measures: what is made of the nodes of a tree.
#![tactic(auto)]

ghost use Rattle.std.specs.Prelude.{◌≡◌, ℕ};
ghost use Rattle.items.specs.declared.cdcl.CdclKind.{CdclKind as Kind};
ghost use Rattle.measures.specs.Measures.{empty_size, size_sum, size_weight, empty_reach, larger_reach, reach_weight};
ghost use Rattle.measures.specs.Sizes.{sizes_assoc, sizes_comm, sizes_none};
ghost use Rattle.std.proofs.Common.{rules};

use items::CdclKind;

mod kinds;

pub use kinds::{Reach, Size};

// A way to join values, in any order; the unit is the join of nothing.
pub trait Join: Copy {
    ghost nothing: { Self };

    ghost joined: { Self → Self → Self };

    fn unit() -> Self
        ensures { result ≡ nothing };

    fn join(self, other: Self) -> Self
        ensures { result ≡ joined self other };

    ghost assoc: { (x y z : Self) → joined (joined x y) z ≡ joined x (joined y z) };

    ghost comm: { (x y : Self) → joined x y ≡ joined y x };

    ghost unchanged: { (x : Self) → joined nothing x ≡ x };
}

// A joining that weighs a node by its kind and its depth.
pub trait Measure: Join {
    ghost weight: { Kind → ℕ → Self };

    fn weigh(kind: CdclKind, depth: usize) -> Self
        ensures { result ≡ weight kind depth };
}

impl Join for Size {
    ghost nothing = { empty_size };

    ghost joined = { size_sum };

    ghost assoc = { sizes_assoc };

    ghost comm = { sizes_comm };

    ghost unchanged = { sizes_none };

    fn unit() -> Size {
        Size { total: 0 }
    }

    fn join(self, other: Size) -> Size {
        Size {
            total: self.total.wrapping_add(other.total),
        }
    }
}

// Each node counts for one.
impl Measure for Size {
    ghost weight = { size_weight };

    fn weigh(_kind: CdclKind, _depth: usize) -> Size {
        Size { total: 1 }
    }
}

impl Join for Reach {
    ghost nothing = { empty_reach };

    ghost joined = { larger_reach };

    ghost assoc = { Prim.search rules };

    ghost comm = { Prim.search rules };

    ghost unchanged = { Prim.search rules };

    fn unit() -> Reach {
        Reach { depth: 0 }
    }

    fn join(self, other: Reach) -> Reach {
        Reach {
            depth: self.depth.max(other.depth),
        }
    }
}

// Each node counts for its depth.
impl Measure for Reach {
    ghost weight = { reach_weight };

    fn weigh(_kind: CdclKind, depth: usize) -> Reach {
        Reach { depth }
    }
}
