//! What a leader sends to the others.
ghost use Rattle.std.specs.Prelude.{◌≡◌, ◌+◌, ◌≤◌, ◌++◌, ◌∷◌, [], All, length, map, filter, IfOk, IfErr, OnOk, IsOkUnless};
ghost use Rattle.std.specs.List.{list_any};
ghost use Rattle.qq_base.specs.declared.memory.TheConstants.{NUMBER_END};
ghost use Rattle.qq_log.specs.Stable.{no_snapshot};
ghost use Rattle.qq_raft_msg.specs.declared.rpc.Rpc.TheVariants.{Append};
ghost use Rattle.qq_raft_model.specs.declared.peer.Peer.{Peer};
ghost use Rattle.qq_raft_model.specs.State.{last, change};
ghost use Rattle.qq_raft_model.specs.Leading.{send, add_entry, append_entry, flush, flush_within, lags};
ghost use Rattle.qq_raft_core.specs.Fits.{IsShort};
ghost use Rattle.qq_raft_core.specs.Peers.{picks, append_from, sent_to, passed};
ghost use Rattle.qq_raft_msg.specs.Rpc.{IsWritable};
ghost use Rattle.qq_raft_core.specs.Ends.{HasEnds, IsSendable};
ghost use Rattle.qq_raft_core.specs.Undone.{before};
ghost use Rattle.qq_raft_core.specs.Raft.{IsSender};
ghost use Rattle.qq_raft_core.specs.Raft.{server_of, IsSound, IsInLog, IsPeer, IsCaused};

use crate::batch::{batch_from, term_at};
use crate::peers::Target;
use crate::raft::{Raft, push_rpc};
use qq_base::{Index, Memory, NodeId, Term};
use qq_command::entries_read_back;
use qq_entry::{Entries, Entry};
use qq_raft_model::Peer;
use qq_raft_msg::{AppendMsg, LogView, Role, Rpc};
use std::alloc::Global;
use std::collections::VecDeque;

/// Who sends, and what the others are told.
#[derive(Clone, Copy)]
struct Sender {
    node: NodeId,
    term: Term,
    commit: u64,
}

/// The message for one member.
fn append_from<L: LogView>(
    alloc: Global,
    sender: Sender,
    log: &L,
    peer: &Peer,
) -> Result<AppendMsg, Memory>
    requires whole { (L.log log.now).base ≡ no_snapshot }
    requires last { length (L.log log.now).entries ≤ NUMBER_END }
    requires entries { All IsInLog (L.log log.now).entries }
    requires sender { IsSender sender.node sender.term sender.commit }
    requires peer { IsPeer peer.now }
    ensures ok { IfOk result (λ m. Append m
        ≡ append_from sender.node sender.term sender.commit (L.log log.now).entries peer.now) }
    ensures rpc { IfOk result (λ m. IsWritable (Append m)) }
    ensures ends { IfOk result (λ m. HasEnds (Append m)) }
    ensures end { IfOk result (λ m. peer.now.next + length m.entries ≤ NUMBER_END + 1) }
    ensures want { IsOkUnless result Memory.Want }
{
    let before = peer.next.saturating_sub(1);
    Ok(AppendMsg {
        from: sender.node,
        to: peer.node,
        term: sender.term,
        prev_index: Index(before),
        prev_term: term_at(log, before),
        commit: Index(sender.commit),
        entries: batch_from(alloc, log, peer.next)?,
    })
}

/// Sends to one member, if it is picked: its next entry is behind what was sent.
fn send_to<L: LogView>(
    alloc: Global,
    sender: Sender,
    log: &L,
    target: Target,
    peer: &mut Peer,
    out: &mut VecDeque<Rpc>,
) -> Result<(), Memory>
    requires whole { (L.log log.now).base ≡ no_snapshot }
    requires last { length (L.log log.now).entries ≤ NUMBER_END }
    requires entries { All IsInLog (L.log log.now).entries }
    requires sender { IsSender sender.node sender.term sender.commit }
    requires peer { IsPeer peer.old }
    requires out { All IsSendable out.old.items }
    ensures ok { OnOk result (out.new.items ≡ out.old.items
        ++ sent_to target sender.node sender.term sender.commit (L.log log.now).entries peer.old) }
    ensures peer { OnOk result (peer.new ≡ passed target (L.log log.now).entries peer.old) }
    ensures peer_kept { IsPeer peer.new }
    ensures out { OnOk result (All IsSendable out.new.items) }
    ensures want { IsOkUnless result Memory.Want }
{
    if !target.picks(log.last().0, peer) {
        return Ok(());
    }
    let message = append_from(alloc, sender, log, peer)?;
    let count = message.entries.len() as u64;
    push_rpc(out, Rpc::Append(message))?;
    peer.next += count;
    Ok(())
}

/// Sends to each member that is picked.
fn send_to_each<L: LogView>(
    alloc: Global,
    sender: Sender,
    log: &L,
    target: Target,
    peers: &mut [Peer],
    out: &mut VecDeque<Rpc>,
) -> Result<(), Memory>
    requires whole { (L.log log.now).base ≡ no_snapshot }
    requires last { length (L.log log.now).entries ≤ NUMBER_END }
    requires entries { All IsInLog (L.log log.now).entries }
    requires sender { IsSender sender.node sender.term sender.commit }
    requires each { All IsPeer peers.old }
    requires out { All IsSendable out.old.items }
    ensures ok { OnOk result (out.new.items ≡ out.old.items
        ++ map (append_from sender.node sender.term sender.commit (L.log log.now).entries)
        (filter (picks target (length (L.log log.now).entries)) peers.old)) }
    ensures peers { OnOk result
        (peers.new ≡ map (passed target (L.log log.now).entries) peers.old) }
    ensures each { All IsPeer peers.new }
    ensures out { OnOk result (All IsSendable out.new.items) }
    ensures want { IsOkUnless result Memory.Want }
{
    'peers: for peer in peers.iter_mut() {
        send_to(alloc, sender, log, target, peer, out)?;
    }
    Ok(())
}

fn send_to_all<L: LogView>(
    alloc: Global,
    sender: Sender,
    log: &L,
    target: Target,
    peers: &mut Vec<Peer>,
    out: &mut VecDeque<Rpc>,
) -> Result<(), Memory>
    requires whole { (L.log log.now).base ≡ no_snapshot }
    requires last { length (L.log log.now).entries ≤ NUMBER_END }
    requires entries { All IsInLog (L.log log.now).entries }
    requires sender { IsSender sender.node sender.term sender.commit }
    requires each { All IsPeer peers.old.items }
    requires out { All IsSendable out.old.items }
    ensures ok { OnOk result (out.new.items ≡ out.old.items
        ++ map (append_from sender.node sender.term sender.commit (L.log log.now).entries)
        (filter (picks target (length (L.log log.now).entries)) peers.old.items)) }
    ensures peers { OnOk result
        (peers.new.items ≡ map (passed target (L.log log.now).entries) peers.old.items) }
    ensures each { All IsPeer peers.new.items }
    ensures out { OnOk result (All IsSendable out.new.items) }
    ensures want { IsOkUnless result Memory.Want }
{
    send_to_each(alloc, sender, log, target, peers, out)
}

#[tactic(auto, using(crate::proofs::Ranges::one_all, crate::proofs::Ranges::one_short))]
fn one_entry(alloc: Global, entry: Entry) -> Result<Entries, Memory>
    requires { IsInLog entry }
    ensures ok { IfOk result (λ entries. entries ≡ entry ∷ []) }
    ensures entries { IfOk result (All IsInLog) }
    ensures short { IfOk result IsShort }
    ensures want { IsOkUnless result Memory.Want }
{
    entries_read_back();
    let mut entries = Vec::with_capacity(alloc, 1)?;
    entries.push(entry)?;
    Ok(Entries::from_vec(entries))
}

impl<L: LogView> Raft<L> {
    /// Sends each member that is picked what it lacks.
    #[tactic(auto, unfolding(qq_raft_model::specs::Leading::send))]
    pub(crate) fn send(&mut self, alloc: Global, target: Target) -> Result<(), Memory>
        requires sound { IsSound L.log self.old }
        ensures sound { OnOk result (IsSound L.log self.new) }
        ensures ok { OnOk result (server_of L.log self.new
            ≡ send (picks target (last (server_of L.log self.old))) (server_of L.log self.old)) }
        ensures before { before L.log self.new ≡ before L.log self.old }
        ensures want { IsOkUnless result Memory.Want }
    {
        let sender = Sender {
            node: self.node,
            term: self.term,
            commit: self.commit,
        };
        send_to_all(
            alloc,
            sender,
            &self.log,
            target,
            &mut self.peers,
            &mut self.out,
        )
    }

    /// A leader adds an entry, which isn't sent yet.
    pub(crate) fn append_entry(&mut self, alloc: Global, entry: Entry) -> Result<(), Memory>
        requires sound { IsSound L.log self.old }
        requires entry { IsInLog entry }
        ensures sound { OnOk result (IsSound L.log self.new) }
        ensures ok { OnOk result (server_of L.log self.new
            ≡ append_entry entry (server_of L.log self.old)) }
        ensures before { before L.log self.new ≡ before L.log self.old }
        ensures cause { IfErr result (IsCaused (server_of L.log self.old)) }
    {
        let entries = one_entry(alloc, entry)?;
        let (term, vote, last) = (self.term, self.vote, self.last());
        self.change(alloc, term, vote, last, entries)
    }

    /// A leader adds an entry and sends it.
    #[tactic(auto, unfolding(qq_raft_model::specs::Leading::add_entry))]
    pub(crate) fn add_entry(&mut self, alloc: Global, entry: Entry) -> Result<(), Memory>
        requires sound { IsSound L.log self.old }
        requires entry { IsInLog entry }
        ensures sound { OnOk result (IsSound L.log self.new) }
        ensures ok { OnOk result (server_of L.log self.new
            ≡ add_entry entry (server_of L.log self.old)) }
        ensures before { before L.log self.new ≡ before L.log self.old }
        ensures cause { IfErr result (IsCaused (server_of L.log self.old)) }
    {
        self.append_entry(alloc, entry)?;
        self.send(alloc, Target::Everyone)
    }

    /// Whether another member wasn't sent the last entry.
    fn some_lag(&self) -> bool
        requires { (L.log self.now.log).base ≡ no_snapshot }
        ensures { result
            ≡ list_any (lags (last (server_of L.log self.now))) self.now.peers.items }
    {
        let last = self.last();
        self.peers.iter().any(|peer| peer.next <= last)
    }

    /// Message after message, until each of the others was sent the last entry, or so many times.
    fn flush_within(&mut self, alloc: Global, rounds: u64) -> Result<(), Memory>
        requires { IsSound L.log self.old }
        ensures sound { OnOk result (IsSound L.log self.new) }
        ensures ok { OnOk result (server_of L.log self.new
            ≡ flush_within rounds (server_of L.log self.old)) }
        ensures before { before L.log self.new ≡ before L.log self.old }
        ensures want { IsOkUnless result Memory.Want }
    {
        'sends: for round in 0..rounds {
            let lag = self.some_lag();
            if !lag {
                return Ok(());
            }
            self.send(alloc, Target::Lagging)?;
        }
        Ok(())
    }

    /// A leader sends each of the others what it wasn't sent.
    #[tactic(auto, unfolding(qq_raft_model::specs::Leading::flush))]
    pub(crate) fn try_flush(&mut self, alloc: Global) -> Result<(), Memory>
        requires { IsSound L.log self.old }
        ensures sound { OnOk result (IsSound L.log self.new) }
        ensures ok { OnOk result (server_of L.log self.new
            ≡ flush (server_of L.log self.old)) }
        ensures before { before L.log self.new ≡ before L.log self.old }
        ensures want { IsOkUnless result Memory.Want }
    {
        if self.role != Role::Leader {
            return Ok(());
        }
        let last = self.last();
        self.flush_within(alloc, last + 1)
    }
}
