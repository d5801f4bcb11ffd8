// What the tables of a session hold: stack frames, literals and the nodes of the search tree.
#![tactic(auto)]

ghost use Rattle.std.specs.Prelude.{◌≡◌, take, drop};
ghost use Rattle.items.specs.Frames.{status_of, alive, new_frame};
ghost use Rattle.items.specs.Nodes.{new_node, backlink_of, to_root, lead_of};

mod cdcl;
mod stack;

pub use cdcl::{Assignment, Cdcl, CdclBacklink, CdclKind, Conflict, Justification, Literal, Run};
pub use stack::{StackFrame, TimeRange, TimeRangeStatus};

impl TimeRange {
    pub fn status(self) -> TimeRangeStatus
        ensures { result ≡ status_of self }
    {
        match self {
            TimeRange { start: 0, .. } => TimeRangeStatus::Global,
            TimeRange { end: u32::MAX, .. } => TimeRangeStatus::Active,
            TimeRange { leaked: true, .. } => TimeRangeStatus::Leaked,
            _ => TimeRangeStatus::Ended,
        }
    }
}

impl TimeRangeStatus {
    // A frame stands unless it is Ended.
    pub fn is_alive(self) -> bool
        ensures { result ≡ alive self }
    {
        self != TimeRangeStatus::Ended
    }
}

impl StackFrame {
    pub fn new(start: u32, from_cdcl: bool) -> Self
        ensures { result ≡ new_frame start from_cdcl }
    {
        StackFrame {
            from_cdcl,
            active: TimeRange {
                start,
                end: u32::MAX,
                leaked: false,
            },
        }
    }
}

impl Run {
    // The entries of the run: as many as the table has of them.
    pub fn entries<T>(self, table: &[T]) -> &[T]
        ensures { result.now ≡ take self.count (drop self.start table.now) }
    {
        let rest = &table[self.start.min(table.len())..];
        &rest[..self.count.min(rest.len())]
    }
}

impl Cdcl {
    // A node without propagations or a conflict; those to come stand from the key `propagated` on.
    pub fn new(kind: CdclKind, frame: usize, propagated: usize) -> Self
        ensures { result ≡ new_node kind frame propagated }
    {
        Cdcl {
            kind,
            frame,
            propagates: Run {
                start: propagated,
                count: 0,
            },
            conflicts: false,
        }
    }

    // How the node of this number is linked.
    pub fn backlink(self, number: usize) -> CdclBacklink
        ensures value { result ≡ backlink_of number self.kind }
        ensures lead { to_root result ≡ lead_of number self.kind }
    {
        let before = number.checked_sub(1);
        let (previous, backtrack, sidetrack) = match self.kind {
            CdclKind::Root => (None, None, false),
            CdclKind::BeginCheck(None) => (None, Some(0), true),
            CdclKind::BeginCheck(Some(parent)) | CdclKind::Empty(parent) => {
                (before.filter(|&node| node != parent), Some(parent), true)
            }
            CdclKind::Decision(_) => (before, None, false),
            CdclKind::Conflict(conflict) => (before, Some(conflict.backtrack), false),
        };
        CdclBacklink {
            previous,
            backtrack,
            sidetrack,
        }
    }
}

impl CdclBacklink {
    // The next node towards the root.
    pub fn to_root(self) -> Option<usize>
        ensures { result ≡ to_root self }
    {
        self.backtrack.or(self.previous)
    }
}

#[cfg(test)]
mod tests {
    use super::*;

    fn link(kind: CdclKind) -> CdclBacklink {
        Cdcl::new(kind, 0, 0).backlink(3)
    }

    fn linked_to(
        previous: Option<usize>,
        backtrack: Option<usize>,
        sidetrack: bool,
    ) -> CdclBacklink {
        CdclBacklink {
            previous,
            backtrack,
            sidetrack,
        }
    }

    #[test]
    fn links_of_node_3(rt: HostRuntime) {
        let cut = Run { start: 0, count: 2 };
        let conflict = Conflict { cut, backtrack: 1 };
        assert_eq!(rt; link(CdclKind::Root), linked_to(None, None, false));
        assert_eq!(rt;
            link(CdclKind::BeginCheck(None)),
            linked_to(None, Some(0), true)
        );
        assert_eq!(rt;
            link(CdclKind::BeginCheck(Some(2))),
            linked_to(None, Some(2), true)
        );
        assert_eq!(rt;
            link(CdclKind::BeginCheck(Some(1))),
            linked_to(Some(2), Some(1), true)
        );
        assert_eq!(rt; link(CdclKind::Empty(0)), linked_to(Some(2), Some(0), true));
        assert_eq!(rt;
            link(CdclKind::Decision(7)),
            linked_to(Some(2), None, false)
        );
        assert_eq!(rt;
            link(CdclKind::Conflict(conflict)),
            linked_to(Some(2), Some(1), false)
        );
        assert_eq!(rt;
            Cdcl::new(CdclKind::Decision(7), 0, 0).backlink(0).to_root(),
            None
        );
    }

    #[test]
    fn frames_and_runs(rt: HostRuntime) {
        let mut range = StackFrame::new(5, false).active;
        assert_eq!(rt; range.status(), TimeRangeStatus::Active);
        range.end = 6;
        assert_eq!(rt; range.status(), TimeRangeStatus::Ended);
        assert_eq!(rt; range.status().is_alive(), false);
        range.leaked = true;
        assert_eq!(rt; range.status(), TimeRangeStatus::Leaked);
        assert_eq!(rt;
            StackFrame::new(0, false).active.status(),
            TimeRangeStatus::Global
        );
        let table = [10u32, 11, 12];
        assert_eq!(rt; Run { start: 1, count: 5 }.entries(&table), &table[1..]);
        assert_eq!(rt; Run { start: 4, count: 1 }.entries(&table), &table[..0]);
    }
}
