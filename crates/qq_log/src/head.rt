ghost use Rattle.std.proofs.Common.{rules};
ghost use Rattle.std.specs.Cmp.Rules.{comparing};

use qq_base::{Index, Items, Term};

// The equality of both is written by hand, so that proofs see it as `same_head` and `same_span`.

/// What a snapshot is of (Ongaro's dissertation, section 5.1). All 0 stands for none.
#[derive(Clone, Copy, Debug, Eq)]
pub struct SnapshotHead {
    /// The last entry that it replaces.
    pub index: Index,
    /// That entry's term.
    pub term: Term,
    /// The last entry that was applied when it was taken.
    pub through: Index,
}

/// Where a run of a queue's entries lies.
#[derive(Clone, Copy, Debug, Eq)]
pub struct Span {
    /// The file's number.
    pub file: u64,
    /// Whether it is a segment file; else it is a log file.
    pub segment: bool,
    /// The first entry's index.
    pub first: Index,
    /// The last entry's index.
    pub last: Index,
}

/// Where a queue's entries lie.
pub type Places = Items<Span>;

impl PartialEq for SnapshotHead {
    ghost use Rattle.qq_log.specs.Same.{same_head};

    ghost eq = { same_head };

    ghost laws = { Prim.search (comparing, rules) };

    fn eq(&self, other: &Self) -> bool {
        self.index.0 == other.index.0
            && self.term.0 == other.term.0
            && self.through.0 == other.through.0
    }
}

impl PartialEq for Span {
    ghost use Rattle.qq_log.specs.Same.{same_span};

    ghost eq = { same_span };

    ghost laws = { Prim.search (comparing, rules) };

    fn eq(&self, other: &Self) -> bool {
        self.file == other.file
            && self.segment == other.segment
            && self.first.0 == other.first.0
            && self.last.0 == other.last.0
    }
}
