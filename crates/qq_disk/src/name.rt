ghost use Rattle.std.specs.Prelude.{◌≡◌};
ghost use Rattle.std.proofs.Common.{rules};
ghost use Rattle.std.specs.Cmp.{partial_order_from_own_ties};
ghost use Rattle.std.specs.Cmp.Rules.{comparing};
ghost use Rattle.std.specs.Ordering.{nat_cmp, on, then_cmp, as_partial_cmp};

use std::cmp::Ordering;

/// What a file of a node's disk is for.
#[derive(Clone, Copy, Debug, PartialEq, Eq, Hash)]
pub enum FileKind {
    /// A file of the log that all queues share.
    Log,
    /// A run of one queue's entries, out of the log.
    Segment,
    /// One queue's state at an entry.
    Snapshot,
}

impl FileKind {
    ghost use Rattle.qq_disk.specs.Name.{rank};

    fn rank(self) -> u8
        ensures { result ≡ rank self }
    {
        match self {
            FileKind::Log => 0,
            FileKind::Segment => 1,
            FileKind::Snapshot => 2,
        }
    }
}

/// The name of a file. Logs come before segments and those before snapshots, each by their numbers.
#[derive(Clone, Copy, Debug, PartialEq, Eq, Hash)]
pub struct FileName {
    pub kind: FileKind,
    pub number: u64,
}

impl Ord for FileName {
    ghost use Rattle.qq_disk.specs.Name.{name_cmp};

    ghost cmp = { name_cmp };

    ghost total = { Prim.search (comparing, rules) };

    ghost matches_partial_cmp = { Prim.search (comparing, rules) };

    ghost matches_eq = { Prim.search (comparing, rules) };

    fn cmp(&self, other: &FileName) -> Ordering {
        self.kind
            .rank()
            .cmp(&other.kind.rank())
            .then(self.number.cmp(&other.number))
    }
}

impl PartialOrd for FileName {
    ghost use Rattle.qq_disk.specs.Name.{name_cmp};

    ghost partial_cmp = { as_partial_cmp name_cmp };

    ghost laws = { partial_order_from_own_ties (Prim.search (comparing, rules))
        (Prim.search (comparing, rules)) };

    fn partial_cmp(&self, other: &FileName) -> Option<Ordering> {
        Some(self.cmp(other))
    }
}
