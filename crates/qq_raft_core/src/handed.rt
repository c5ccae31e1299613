//! The change that a server handed out last.
ghost use Rattle.std.specs.Prelude.{◌≡◌, ◌≤◌, ◌<◌, Some, length, IfSome, IfNone};
ghost use Rattle.std.specs.Bool.{Decides};
ghost use Rattle.qq_entry.specs.declared.command.Entry.{Entry};
ghost use Rattle.std.specs.Prelude.{List};
ghost use Rattle.qq_log.specs.Writable.{MayWrite};
ghost use Rattle.qq_log.specs.declared.op.Op.TheVariants.{Change};
ghost use Rattle.qq_raft_core.specs.Raft.{IsSound};
ghost use Rattle.qq_raft_core.specs.Undone.{change_before};

use crate::raft::Raft;
use crate::undo::{ends_before, item_at, same_vote, term_before, undos_from, vote_before};
use qq_base::{NodeId, QueueId, Term};
use qq_entry::Entries;
use qq_log::Op;
use qq_raft_msg::LogView;

/// All of a change but its entries.
#[derive(Clone, Copy)]
struct Head {
    queue: QueueId,
    op: u64,
    term: Term,
    vote: Option<NodeId>,
    keep: u64,
}

/// The entries of a change with this head. None exactly where an op is another one.
fn entries_of(head: Head, op: &Op) -> Option<&Entries>
    ensures some { IfSome result (λ entries. op.now ≡ Change head.queue head.op head.term head.vote
        (record { 0 = head.keep }) entries.now) }
    ensures none { IfNone result ((es : List Entry) → op.now ≡ Change head.queue head.op head.term
        head.vote (record { 0 = head.keep }) es → ⊥) }
{
    match op {
        Op::Change {
            queue,
            op,
            term,
            vote,
            keep,
            entries,
        } => {
            let same = head.queue.0 == queue.0
                && head.op == *op
                && head.term.0 == term.0
                && same_vote(head.vote, *vote)
                && head.keep == keep.0;
            if same { Some(entries) } else { None }
        }
        Op::SnapshotMade { .. } => None,
        Op::SegmentMade { .. } => None,
    }
}

impl<L: LogView> Raft<L> {
    /// Whether an op is the change before those from a place on.
    pub(crate) fn is_change(&self, place: usize, op: &Op) -> bool
        requires sound { IsSound L.log self.now }
        requires op { MayWrite op.now }
        requires some { 0 < place }
        requires there { place ≤ length self.now.undos.items }
        ensures { Decides result (change_before L.log self.now place ≡ Some op.now) }
    {
        let later = undos_from(&self.undos, place);
        let Some(undo) = item_at(&self.undos, place - 1) else {
            return false;
        };
        let keep = undo.keep;
        let head = Head {
            queue: self.queue,
            op: self.op - later.len() as u64,
            term: term_before(later, self.term),
            vote: vote_before(later, self.vote),
            keep,
        };
        match entries_of(head, op) {
            None => false,
            Some(entries) => ends_before(later, &self.log, keep, entries.as_slice()),
        }
    }
}
