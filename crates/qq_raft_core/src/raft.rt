//! What a server holds beside its machine, and how it changes.
ghost use Rattle.std.specs.Prelude.{◌≡◌, ◌+◌, ◌≤◌, ◌<◌, ◌++◌, ◌∷◌, [], All, take, drop, length, IfOk, IfErr, OnOk, OnErr, IsOkUnless};
ghost use Rattle.qq_base.specs.Fronts.{IsFront};
ghost use Rattle.qq_raft_core.specs.Undone.{before, begun, undo_of};
ghost use Rattle.qq_base.specs.declared.memory.TheConstants.{NUMBER_END};
ghost use Rattle.qq_log.specs.Stable.{no_snapshot};
ghost use Rattle.qq_raft_model.specs.State.{last, change, enter, wait, say};
ghost use Rattle.qq_log.specs.Writable.{IsQueue, IsVote, MayWrite};
ghost use Rattle.qq_log.specs.declared.op.Op.TheVariants.{Change};
ghost use Rattle.qq_raft_core.specs.Ends.{IsSendable};
ghost use Rattle.qq_raft_core.specs.Fits.{IsShort};
ghost use Rattle.qq_raft_core.specs.Raft.{server_of, IsSound, IsInLog, IsWaiting, IsCaused};
ghost use Rattle.qq_base.specs.Causes.{SpentOnlyWhere};

use crate::undo::Undo;
use qq_base::{Duplicate, Index, Memory, NUMBER_END, NodeId, QueueId, Term};
use qq_entry::{Entries, Entry};
use qq_log::Op;
use qq_raft_model::{Peer, Waiting};
use qq_raft_msg::{LogView, Role, Rpc};
use std::alloc::Global;
use std::collections::VecDeque;

/// A server but for its machine.
#[derive(Drop)]
pub struct Raft<L: LogView> {
    pub(crate) queue: QueueId,
    pub(crate) node: NodeId,
    /// The other members, in the order of the group.
    pub(crate) peers: Vec<Peer>,
    /// The number of the last change.
    pub(crate) op: u64,
    pub(crate) term: Term,
    pub(crate) vote: Option<NodeId>,
    pub(crate) log: L,
    /// The change up to which the disk is known to be durable.
    pub(crate) noticed: u64,
    pub(crate) role: Role,
    /// The leader of this term, as far as it is known.
    pub(crate) leader: Option<NodeId>,
    /// The last entry that is known to be committed.
    pub(crate) commit: u64,
    /// Messages that wait until a change is durable, in the order of their changes.
    pub(crate) waiting: VecDeque<Waiting>,
    /// Changes that are to be taken away.
    pub(crate) ops: VecDeque<Op>,
    /// Messages that are to be taken away.
    pub(crate) out: VecDeque<Rpc>,
    /// What leads back from the last changes, from the first that isn't noticed on.
    pub(crate) undos: Vec<Undo>,
    /// How many of them there were when the call began that is under way.
    pub(crate) mark: usize,
    /// Whether it is known that no term of its log falls, and that none is after its own.
    pub(crate) rising: bool,
}

/// Copies of a log's entries behind one index, up to another.
pub fn copy_behind<L: LogView>(
    alloc: Global,
    log: &L,
    first: u64,
    end: u64,
) -> Result<Vec<Entry>, Memory>
    requires whole { (L.log log.now).base ≡ no_snapshot }
    requires order { first ≤ end }
    requires within { end ≤ length (L.log log.now).entries }

    ensures ok { IfOk result (λ copied.
        copied.items ≡ drop first (take end (L.log log.now).entries)) }
    ensures want { IsOkUnless result Memory.Want }
{
    let mut copied = Vec::new(alloc);
    'entries: for index in first..end {
        let Some(entry) = log.entry(Index(index + 1)) else {
            unreachable!()
        };
        copied.push(entry.copy(alloc)?)?;
    }
    Ok(copied)
}

/// Adds copies of entries to a log that has room for them.
fn append_all<L: LogView>(alloc: Global, log: &mut L, entries: &[Entry]) -> Result<(), Memory>
    requires { length entries.now ≤ (L.log log.old).room }
    ensures base { (L.log log.new).base ≡ (L.log log.old).base }
    ensures ok { OnOk result ((L.log log.new).entries
        ≡ (L.log log.old).entries ++ entries.now) }
    ensures front { IsFront (L.log log.old).entries (L.log log.new).entries }
    ensures want { IsOkUnless result Memory.Want }
{
    'entries: for entry in entries {
        log.append(entry.copy(alloc)?);
    }
    Ok(())
}

/// Cuts a log behind an index and adds copies of entries.
fn replace_tail<L: LogView>(
    alloc: Global,
    log: &mut L,
    keep: u64,
    entries: &[Entry],
) -> Result<(), Memory>
    requires whole { (L.log log.old).base ≡ no_snapshot }
    requires last { length (L.log log.old).entries ≤ NUMBER_END }
    requires keep { keep ≤ length (L.log log.old).entries }
    requires old { All IsInLog (L.log log.old).entries }
    requires added { All IsInLog entries.now }
    requires within { 1 < length entries.now → keep + length entries.now ≤ NUMBER_END }
    ensures base { (L.log log.new).base ≡ no_snapshot }
    ensures ok { OnOk result ((L.log log.new).entries
        ≡ take keep (L.log log.old).entries ++ entries.now) }
    ensures kept { take keep (L.log log.new).entries ≡ take keep (L.log log.old).entries }
    ensures last { OnOk result (length (L.log log.new).entries ≤ NUMBER_END) }
    ensures entries { OnOk result (All IsInLog (L.log log.new).entries) }
    ensures end { OnOk result (keep + length entries.now ≤ NUMBER_END) }
    ensures cause { IfErr result (λ e. SpentOnlyWhere e NUMBER_END
        ((keep ≡ NUMBER_END) × (keep ≡ length (L.log log.old).entries))) }
{
    log.keep_to(Index(keep));
    log.reserve(entries.len())?;
    append_all(alloc, log, entries)?;
    Ok(())
}

/// A change of the log, which may be written.
#[tactic(auto, using(crate::proofs::Ranges::change_may))]
fn change_op(
    queue: QueueId,
    op: u64,
    term: Term,
    vote: Option<NodeId>,
    keep: u64,
    entries: Entries,
) -> Op
    requires queue { IsQueue queue }
    requires op { op ≤ NUMBER_END }
    requires term { term.0 ≤ NUMBER_END }
    requires vote { IsVote vote }
    requires last { keep + length entries ≤ NUMBER_END }
    requires entries { All IsInLog entries }
    requires short { IsShort entries }
    ensures value { result ≡ Change queue op term vote (record { 0 = keep }) entries }
    ensures may { MayWrite result }
{
    Op::Change {
        queue,
        op,
        term,
        vote,
        keep: Index(keep),
        entries,
    }
}

#[inline(always)]
fn push_undo(undos: &mut Vec<Undo>, undo: Undo) -> Result<(), Memory>
    ensures ok { OnOk result (undos.new.items ≡ undos.old.items ++ undo ∷ []) }
    ensures err { OnErr result (undos.new.items ≡ undos.old.items) }
    ensures want { IsOkUnless result Memory.Want }
{
    undos.push(undo)?;
    Ok(())
}

#[tactic(auto, using(crate::proofs::Ranges::all_more))]
#[inline(always)]
fn push_op(ops: &mut VecDeque<Op>, op: Op) -> Result<(), Memory>
    requires ops { All MayWrite ops.old.items }
    requires op { MayWrite op }
    ensures ok { OnOk result (ops.new.items ≡ ops.old.items ++ op ∷ []) }
    ensures ops { OnOk result (All MayWrite ops.new.items) }
    ensures want { IsOkUnless result Memory.Want }
{
    ops.push_back(op)?;
    Ok(())
}

/// Adds a message that may leave.
#[tactic(auto, using(crate::proofs::Ranges::all_more))]
pub(crate) fn push_rpc(out: &mut VecDeque<Rpc>, rpc: Rpc) -> Result<(), Memory>
    requires out { All IsSendable out.old.items }
    requires rpc { IsSendable rpc }
    ensures ok { OnOk result (out.new.items ≡ out.old.items ++ rpc ∷ []) }
    ensures out { OnOk result (All IsSendable out.new.items) }
    ensures want { IsOkUnless result Memory.Want }
{
    out.push_back(rpc)?;
    Ok(())
}

fn push_waiting(waiting: &mut VecDeque<Waiting>, op: u64, rpc: Rpc) -> Result<(), Memory>
    requires waiting { All IsWaiting waiting.old.items }
    requires rpc { IsSendable rpc }
    ensures ok { OnOk result (waiting.new.items ≡ waiting.old.items ++ wait op rpc ∷ []) }
    ensures waiting { OnOk result (All IsWaiting waiting.new.items) }
    ensures want { IsOkUnless result Memory.Want }
{
    waiting.push_back(Waiting { op, rpc })?;
    Ok(())
}

/// No entries, which may be written.
#[tactic(auto, using(crate::proofs::Ranges::all_none, crate::proofs::Ranges::none_short))]
pub(crate) fn no_entries(alloc: Global) -> Entries
    ensures value { result ≡ [] }
    ensures entries { All IsInLog result }
    ensures short { IsShort result }
{
    Entries::new(alloc)
}

impl<L: LogView> Raft<L> {
    /// The last entry's index.
    pub(crate) fn last(&self) -> u64
        requires { (L.log self.now.log).base ≡ no_snapshot }
        ensures { result ≡ last (server_of L.log self.now) }
    {
        self.log.last().0
    }

    /// A call begins.
    pub(crate) fn begin(&mut self)
        requires { IsSound L.log self.old }
        ensures sound { IsSound L.log self.new }
        ensures same { self.new ≡ record self.old { mark = self.new.mark } }
        ensures before { before L.log self.new ≡ begun L.log self.old }
    {
        self.mark = self.undos.len();
    }

    /// What leads back from a change that keeps so many entries.
    fn undo_of(&self, alloc: Global, keep: u64) -> Result<Undo, Memory>
        requires whole { (L.log self.now.log).base ≡ no_snapshot }
        requires keep { keep ≤ last (server_of L.log self.now) }
        ensures ok { IfOk result (λ undo. undo ≡ undo_of L.log keep self.now) }
        ensures want { IsOkUnless result Memory.Want }
    {
        let cut = copy_behind(alloc, &self.log, keep, self.last())?;
        Ok(Undo {
            term: self.term,
            vote: self.vote,
            keep,
            cut: Entries::from_vec(cut),
        })
    }

    /// Hands a change out and works on it at once.
    #[tactic(auto, unfolding(qq_raft_model::specs::State::change))]
    #[inline(always)]
    pub(crate) fn change(
        &mut self,
        alloc: Global,
        term: Term,
        vote: Option<NodeId>,
        keep: u64,
        entries: Entries,
    ) -> Result<(), Memory>
        requires sound { IsSound L.log self.old }
        requires term { term.0 ≤ NUMBER_END }
        requires keep { keep ≤ last (server_of L.log self.old) }
        requires vote { IsVote vote }
        requires within { 1 < length entries → keep + length entries ≤ NUMBER_END }
        requires entries { All IsInLog entries }
        requires short { IsShort entries }
        ensures sound { OnOk result (IsSound L.log self.new) }
        ensures ok { OnOk result (server_of L.log self.new
            ≡ change term vote keep entries (server_of L.log self.old)) }
        ensures before { before L.log self.new ≡ before L.log self.old }
        ensures cause { IfErr result (IsCaused (server_of L.log self.old)) }
    {
        let full = self.op >= NUMBER_END;
        if full {
            return Err(Memory::Spent { number: self.op });
        }
        let rising = self.still_rises(keep, entries.as_slice(), term);
        let undo = self.undo_of(alloc, keep)?;
        push_undo(&mut self.undos, undo)?;
        self.op += 1;
        replace_tail(alloc, &mut self.log, keep, entries.as_slice())?;
        let change = change_op(self.queue, self.op, term, vote, keep, entries);
        push_op(&mut self.ops, change)?;
        self.term = term;
        self.vote = vote;
        self.rising = rising;
        Ok(())
    }

    /// A later term makes a follower without a vote.
    #[tactic(auto, unfolding(qq_raft_model::specs::State::enter))]
    pub(crate) fn enter(&mut self, alloc: Global, term: Term) -> Result<(), Memory>
        requires sound { IsSound L.log self.old }
        requires term { term.0 ≤ NUMBER_END }
        ensures sound { OnOk result (IsSound L.log self.new) }
        ensures ok { OnOk result (server_of L.log self.new
            ≡ enter term (server_of L.log self.old)) }
        ensures before { before L.log self.new ≡ before L.log self.old }
        ensures cause { IfErr result (IsCaused (server_of L.log self.old)) }
    {
        if term.0 <= self.term.0 {
            return Ok(());
        }
        let last = self.last();
        self.change(alloc, term, None, last, no_entries(alloc))?;
        self.role = Role::Follower;
        self.leader = None;
        Ok(())
    }

    /// A message that speaks of the changes so far leaves once the last of these is durable.
    #[tactic(auto, unfolding(qq_raft_model::specs::State::say_all))]
    pub(crate) fn say(&mut self, rpc: Rpc) -> Result<(), Memory>
        requires sound { IsSound L.log self.old }
        requires rpc { IsSendable rpc }
        ensures sound { OnOk result (IsSound L.log self.new) }
        ensures ok { OnOk result (server_of L.log self.new
            ≡ say rpc (server_of L.log self.old)) }
        ensures before { before L.log self.new ≡ before L.log self.old }
        ensures want { IsOkUnless result Memory.Want }
    {
        if self.op <= self.noticed {
            push_rpc(&mut self.out, rpc)
        } else {
            push_waiting(&mut self.waiting, self.op, rpc)
        }
    }
}
