//! A queue's state, as its records come to.
ghost use Rattle.std.specs.Prelude.{◌≡◌, ◌+◌, true, All, ◌&&◌, length, Option, Some, None, IfOk, IsOkUnless};
ghost use Rattle.std.specs.List.{list_all};
ghost use Rattle.qq_base.specs.declared.ids.NodeId.{NodeId};
ghost use Rattle.qq_base.specs.declared.ids.QueueId.{QueueId};
ghost use Rattle.qq_entry.specs.Range.{IsWritable as IsEntry};
ghost use Rattle.qq_log.specs.Stable.{new_state, carry_of, restates};
ghost use Rattle.qq_log.specs.Writable.{IsWritable, IsWritableCarry, IsVote};
ghost use Rattle.qq_log.specs.Same.{same_vote, same_carry};
ghost use Rattle.qq_log.specs.declared.op.Op.TheVariants.{Change};
ghost use Rattle.qq_wal_chain.specs.Lanes.{is_within_end, is_carry_within_ends, is_op_within_ends, is_head_within_ends, is_plain};
ghost use Rattle.qq_recover.specs.State.{state_with_op, state_with_carry, IsPlainLaneOf, IsWithinEnds};

use qq_base::{Index, Memory, NUMBER_END, NodeId, QueueId, Term};
use qq_entry::{Entries, Entry};
use qq_log::{Carry, Lane, Op, Places, SnapshotHead};
use std::alloc::Global;
use std::marker::Model;

/// What a queue's records come to. All entries of its log are known.
#[derive(Drop)]
pub(crate) struct State {
    op: u64,
    term: Term,
    vote: Option<NodeId>,
    base: SnapshotHead,
    snapshot: u64,
    entries: Vec<Entry>,
}

impl Model for State {
    ghost use Rattle.qq_log.specs.Stable.{Stable};
    ghost use Rattle.qq_recover.specs.State.{known_state, IsCarried};

    ghost Value = { Stable };

    ghost view = { λ s. known_state s.op s.term s.vote s.base s.snapshot s.entries.items };

    ghost invariant = { λ s. IsCarried
        (known_state s.op s.term s.vote s.base s.snapshot s.entries.items) };
}

fn is_within_end(n: u64) -> bool
    ensures { result ≡ is_within_end n }
{
    n <= NUMBER_END
}

pub(crate) fn is_last_within_end(keep: u64, count: usize) -> bool
    ensures { result ≡ is_within_end (keep + count) }
{
    keep <= NUMBER_END && count as u64 <= NUMBER_END - keep
}

fn are_terms_within_end(entries: &[Entry]) -> bool
    ensures { result ≡ list_all (λ e. is_within_end e.term.0) entries.now }
{
    let mut rest = entries;
    'entries: while let [entry, after @ ..] = rest {
        if !is_within_end(entry.term.0) {
            return false;
        }
        rest = after;
    }
    true
}

/// Whether no number of a change is past its end.
fn is_change_within_ends(op: u64, term: Term, keep: Index, entries: &[Entry]) -> bool
    ensures { (queue : QueueId) (vote : Option NodeId) →
        result ≡ is_op_within_ends (Change queue op term vote keep entries.now) }
{
    is_within_end(op)
        && is_within_end(term.0)
        && is_last_within_end(keep.0, entries.len())
        && are_terms_within_end(entries)
}

fn is_head_within_ends(head: SnapshotHead) -> bool
    ensures { result ≡ is_head_within_ends head }
{
    is_within_end(head.index.0) && is_within_end(head.term.0) && is_within_end(head.through.0)
}

fn is_carry_within_ends(carry: &Carry) -> bool
    ensures { result ≡ is_carry_within_ends carry.now }
{
    is_within_end(carry.op)
        && is_within_end(carry.term.0)
        && is_head_within_ends(carry.base)
        && is_within_end(carry.snapshot)
        && is_within_end(carry.last.0)
}

fn is_plain(carry: &Carry) -> bool
    ensures { result ≡ is_plain carry.now }
{
    carry.base.index.0 == 0 && carry.segments.len() == 0
}

fn same_vote(a: Option<NodeId>, b: Option<NodeId>) -> bool
    ensures { result ≡ same_vote a b }
{
    match (a, b) {
        (None, None) => true,
        (Some(a), Some(b)) => a.0 == b.0,
        _ => false,
    }
}

fn same_carry(a: &Carry, b: &Carry) -> bool
    ensures { result ≡ same_carry a.now b.now }
{
    a.queue.0 == b.queue.0
        && a.op == b.op
        && a.term.0 == b.term.0
        && same_vote(a.vote, b.vote)
        && a.base == b.base
        && a.snapshot == b.snapshot
        && a.segments == b.segments
        && a.last.0 == b.last.0
}

impl State {
    /// The state of a queue without ops.
    fn new(alloc: Global) -> Self
        ensures { result ≡ new_state }
    {
        State {
            op: 0,
            term: Term(0),
            vote: None,
            base: SnapshotHead {
                index: Index(0),
                term: Term(0),
                through: Index(0),
            },
            snapshot: 0,
            entries: Vec::new(alloc),
        }
    }

    /// The state that a first carry tells, which has no entries.
    fn of_carry(alloc: Global, carry: &Carry) -> Self
        requires writable { IsWritableCarry carry.now }
        requires may { (is_carry_within_ends carry.now && is_plain carry.now) ≡ true }
        requires empty { carry.now.last.0 ≡ 0 }
        ensures { state_with_carry None carry.now ≡ Some result }
    {
        State {
            op: carry.op,
            term: carry.term,
            vote: carry.vote,
            base: carry.base,
            snapshot: carry.snapshot,
            entries: Vec::new(alloc),
        }
    }

    /// The state with a change more, which is the next op and whose numbers are within their ends. None
    /// where the log isn't as long as it is to be kept.
    fn change(
        self,
        op: u64,
        term: Term,
        vote: Option<NodeId>,
        keep: Index,
        entries: Entries,
    ) -> Result<Option<State>, Memory>
        requires writable { IsVote vote }
        requires entries { All IsEntry entries }
        requires next { op ≡ self.op + 1 }
        requires within { (queue : QueueId) →
            is_op_within_ends (Change queue op term vote keep entries) ≡ true }
        ensures ok { (queue : QueueId) → IfOk result (λ state.
            state ≡ state_with_op (Some self) (Change queue op term vote keep entries)) }
        ensures want { IsOkUnless result Memory.Want }
    {
        let State {
            base,
            snapshot,
            entries: mut log,
            ..
        } = self;
        if keep.0 > log.len() as u64 {
            return Ok(None);
        }
        log.truncate(keep.0 as usize);
        let mut added = entries.into_vec();
        log.append(&mut added)?;
        Ok(Some(State {
            op,
            term,
            vote,
            base,
            snapshot,
            entries: log,
        }))
    }

    /// The number of the next op.
    fn next(&self) -> u64
        ensures { result ≡ self.now.op + 1 }
    {
        self.op + 1
    }

    /// Whether a carry says what the state is.
    fn is_restated_by(&self, alloc: Global, carry: &Carry) -> bool
        ensures { result ≡ restates carry.now self.now }
    {
        same_carry(carry, &self.carry(alloc, carry.queue))
    }

    /// What a new file restates of the state.
    pub(crate) fn carry(&self, alloc: Global, queue: QueueId) -> Carry
        ensures carry { result ≡ carry_of queue self.now }
        ensures writable { IsWritableCarry result }
        ensures within { is_carry_within_ends result ≡ true }
        ensures plain { is_plain result ≡ true }
    {
        Carry {
            queue,
            op: self.op,
            term: self.term,
            vote: self.vote,
            base: self.base,
            snapshot: self.snapshot,
            segments: Places::new(alloc),
            last: Index(self.entries.len() as u64),
        }
    }

    /// The lane that tells the state.
    pub(crate) fn into_lane(self, alloc: Global, queue: QueueId) -> Lane
        ensures queue { result.queue ≡ queue }
        ensures lane { IsPlainLaneOf self result }
        ensures ends { IsWithinEnds result }
    {
        let State {
            op,
            term,
            vote,
            base,
            entries,
            ..
        } = self;
        Lane {
            queue,
            op,
            term,
            vote,
            base,
            shadow: None,
            entries: Entries::from_vec(entries),
            places: Places::new(alloc),
        }
    }
}

/// The state with a change more, where it is the next op.
fn followed(
    state: State,
    op: u64,
    term: Term,
    vote: Option<NodeId>,
    keep: Index,
    entries: Entries,
) -> Result<Option<State>, Memory>
    requires writable { IsVote vote }
    requires entries { All IsEntry entries }
    requires within { (queue : QueueId) →
        is_op_within_ends (Change queue op term vote keep entries) ≡ true }
    ensures ok { (queue : QueueId) → IfOk result (λ new.
        new ≡ state_with_op (Some state) (Change queue op term vote keep entries)) }
    ensures want { IsOkUnless result Memory.Want }
{
    if op == state.next() {
        return state.change(op, term, vote, keep, entries);
    }
    Ok(None)
}

/// The state with a change more, whose numbers are within their ends.
fn changed(
    alloc: Global,
    state: Option<State>,
    op: u64,
    term: Term,
    vote: Option<NodeId>,
    keep: Index,
    entries: Entries,
) -> Result<Option<State>, Memory>
    requires writable { IsVote vote }
    requires entries { All IsEntry entries }
    requires within { (queue : QueueId) →
        is_op_within_ends (Change queue op term vote keep entries) ≡ true }
    ensures ok { (queue : QueueId) → IfOk result (λ new.
        new ≡ state_with_op state (Change queue op term vote keep entries)) }
    ensures want { IsOkUnless result Memory.Want }
{
    match state {
        Some(state) => followed(state, op, term, vote, keep, entries),
        None => followed(State::new(alloc), op, term, vote, keep, entries),
    }
}

/// The state with an op more, None where it doesn't fit.
pub(crate) fn state_with_op(
    alloc: Global,
    state: Option<State>,
    op: Op,
) -> Result<Option<State>, Memory>
    requires { IsWritable op }
    ensures ok { IfOk result (λ new. new ≡ state_with_op state op) }
    ensures want { IsOkUnless result Memory.Want }
{
    match op {
        Op::Change {
            op,
            term,
            vote,
            keep,
            entries,
            ..
        } => {
            if is_change_within_ends(op, term, keep, entries.as_slice()) {
                return changed(alloc, state, op, term, vote, keep, entries);
            }
            Ok(None)
        }
        Op::SnapshotMade { .. } => Ok(None),
        Op::SegmentMade { .. } => Ok(None),
    }
}

/// Whether a carry's numbers are within their ends, and it names neither a snapshot nor a segment.
fn may_carry(carry: &Carry) -> bool
    ensures { result ≡ (is_carry_within_ends carry.now && is_plain carry.now) }
{
    is_carry_within_ends(carry) && is_plain(carry)
}

/// The state with a carry more, which may be one.
fn carried(alloc: Global, state: Option<State>, carry: &Carry) -> Option<State>
    requires writable { IsWritableCarry carry.now }
    requires may { (is_carry_within_ends carry.now && is_plain carry.now) ≡ true }
    ensures { result ≡ state_with_carry state carry.now }
{
    match state {
        None => {
            if carry.last.0 == 0 {
                return Some(State::of_carry(alloc, carry));
            }
            None
        }
        Some(state) => {
            if state.is_restated_by(alloc, carry) {
                return Some(state);
            }
            None
        }
    }
}

/// The state with a carry more, None where it doesn't fit.
pub(crate) fn state_with_carry(alloc: Global, state: Option<State>, carry: &Carry) -> Option<State>
    requires { IsWritableCarry carry.now }
    ensures { result ≡ state_with_carry state carry.now }
{
    if may_carry(carry) {
        return carried(alloc, state, carry);
    }
    None
}
