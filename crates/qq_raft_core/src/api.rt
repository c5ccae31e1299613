//! What the layer above calls.
ghost use Rattle.std.specs.Prelude.{◌≡◌, ◌<◌, ◌^◌, [], ◌∷◌, Ok, Some, true, false, not, All, drop, filter, map, length, nat_eq, slice_get, IfOk, IfErr, IfSome, OnOk, OnErr, IsOkUnless};
ghost use Rattle.qq_log.specs.Stable.{no_snapshot};
ghost use Rattle.qq_raft_model.specs.State.{last};
ghost use Rattle.qq_raft_model.specs.Leading.{flush};
ghost use Rattle.qq_raft_model.specs.Server.{new_peer, restart, tick, receive, is_ready, submit, add, notice};
ghost use Rattle.qq_entry.specs.Range.{IsCommand, HasContent};
ghost use Rattle.qq_log.specs.Writable.{MayWrite};
ghost use Rattle.qq_raft_msg.specs.Rpc.{IsNode, IsWritable};
ghost use Rattle.qq_raft_core.specs.Ends.{IsSendable};
ghost use Rattle.qq_raft_core.specs.Fits.{fits};
ghost use Rattle.std.specs.Bool.{Decides};
ghost use Rattle.qq_raft_core.specs.Undone.{before, last_handed, LeadsBack, unnoticed};
ghost use Rattle.qq_raft_core.specs.Raft.{server_of, lane_of, IsSound, IsCaused, IsWithinEnds, HandsNothingOut, state_of};

use crate::fits::{has_indices, has_peer, has_size, is_within};
use crate::raft::Raft;
use crate::rising::log_rises;
use crate::undo::drop_front;
use qq_base::{Index, Memory, NodeId, QueueId};
use qq_entry::Command;
use qq_log::Op;
use qq_raft_model::Peer;
use qq_raft_msg::{LogView, MemberState, Role, Rpc};
use std::alloc::Global;
use std::collections::VecDeque;
use std::mem;

/// The other members.
fn new_peers(alloc: Global, node: NodeId, members: &[NodeId]) -> Result<Vec<Peer>, Memory>
    ensures ok { IfOk result (λ peers. peers.items
        ≡ map new_peer (filter (λ (q : NodeId). not (nat_eq q.0 node.0)) members.now)) }
    ensures want { IsOkUnless result Memory.Want }
{
    let mut peers = Vec::new(alloc);
    'members: for member in members {
        if member.0 != node.0 {
            peers.push(Peer {
                node: *member,
                next: 1,
                matched: 0,
                granted: false,
            })?;
        }
    }
    Ok(peers)
}

impl<L: LogView> Raft<L> {
    /// A follower with what its disk holds, all of which is durable. Its log is whole, and no number is past
    /// its end. The only error is `Memory::Want`, out of memory, which gives the log up.
    pub fn new(
        alloc: Global,
        queue: QueueId,
        node: NodeId,
        members: &[NodeId],
        log: L,
    ) -> Result<Self, Memory>
        requires members { length members.now < 2 ^ 32 }
        requires nodes { IsNode node × All IsNode members.now }
        requires whole { (L.log log).base ≡ no_snapshot }
        requires ends { IsWithinEnds (L.log log) }

        ensures sound { IfOk result (IsSound L.log) }
        ensures ok { IfOk result (λ server. server_of L.log server
            ≡ restart node members.now (lane_of queue (L.log log))) }
        ensures undos { IfOk result (λ server. server.undos.items ≡ []) }
        ensures want { IsOkUnless result Memory.Want }
    {
        let peers = new_peers(alloc, node, members)?;
        let (op, term, vote) = log.start();
        let rising = log_rises(&log, term);
        let waiting = VecDeque::new(alloc);
        let ops = VecDeque::new(alloc);
        let out = VecDeque::new(alloc);
        let undos = Vec::new(alloc);
        Ok(Raft {
            queue,
            node,
            peers,
            op,
            term,
            vote,
            log,
            noticed: op,
            role: Role::Follower,
            leader: None,
            commit: 0,
            waiting,
            ops,
            out,
            undos,
            mark: 0,
            rising,
        })
    }

    /// Time has passed without word from a leader, or a leader is to send. After an error it hands nothing
    /// out. `Spent` comes only where a number stands at its end.
    pub fn tick(&mut self, alloc: Global) -> Result<(), Memory>
        requires { IsSound L.log self.old }

        ensures sound { OnOk result (IsSound L.log self.new) }
        ensures ok { OnOk result (server_of L.log self.new ≡ tick (server_of L.log self.old)) }
        ensures err { OnErr result (HandsNothingOut (server_of L.log self.new)) }
        ensures back { LeadsBack L.log self.old self.new }
        ensures cause { IfErr result (IsCaused (server_of L.log self.old)) }
    {
        self.begin();
        if let Err(cause) = self.try_tick(alloc) {
            self.clear();
            return Err(cause);
        }
        Ok(())
    }

    /// Whether it takes a message: one for itself, from another member, whose terms and indices are within
    /// their ends, and whose entries may be written to the log in one change.
    #[tactic(auto, unfolding(crate::specs::Fits::fits))]
    pub fn fits(&self, rpc: &Rpc) -> bool
        requires { IsWritable rpc.now }
        ensures { result ≡ fits (server_of L.log self.now) rpc.now }
    {
        let envelope = rpc.envelope();
        envelope.to.0 == self.node.0
            && has_peer(envelope.from, &self.peers)
            && is_within(envelope.term.0)
            && has_indices(rpc)
            && has_size(rpc)
    }

    /// Takes a message that fits. After an error it hands nothing out. `Spent` comes only where a number
    /// stands at its end.
    pub fn receive(&mut self, alloc: Global, rpc: Rpc) -> Result<(), Memory>
        requires sound { IsSound L.log self.old }
        requires rpc { IsWritable rpc }
        requires fits { fits (server_of L.log self.old) rpc ≡ true }

        ensures sound { OnOk result (IsSound L.log self.new) }
        ensures ok { OnOk result (server_of L.log self.new
            ≡ receive rpc (server_of L.log self.old)) }
        ensures err { OnErr result (HandsNothingOut (server_of L.log self.new)) }
        ensures back { LeadsBack L.log self.old self.new }
        ensures cause { IfErr result (IsCaused (server_of L.log self.old)) }
    {
        self.begin();
        if let Err(cause) = self.try_receive(alloc, rpc) {
            self.clear();
            return Err(cause);
        }
        Ok(())
    }

    /// A ready leader adds an entry of its term for a command, at this time, and sends it to all others. Any
    /// other server stays as it is. After an error it hands nothing out. `Spent` comes only where a number
    /// stands at its end.
    pub fn submit(&mut self, alloc: Global, time: u64, command: Command) -> Result<(), Memory>
        requires sound { IsSound L.log self.old }
        requires command { IsCommand command × HasContent command }

        ensures sound { OnOk result (IsSound L.log self.new) }
        ensures ok { OnOk result (server_of L.log self.new
            ≡ submit time command (server_of L.log self.old)) }
        ensures err { OnErr result (HandsNothingOut (server_of L.log self.new)) }
        ensures back { LeadsBack L.log self.old self.new }
        ensures cause { IfErr result (IsCaused (server_of L.log self.old)) }
    {
        self.begin();
        if let Err(cause) = self.try_submit(alloc, time, command) {
            self.clear();
            return Err(cause);
        }
        Ok(())
    }

    /// A ready leader adds an entry of its term for a command, at this time, which isn't sent before the next
    /// `flush`. Any other server stays as it is. After an error it hands nothing out. `Spent` comes only where
    /// a number stands at its end.
    pub fn add(&mut self, alloc: Global, time: u64, command: Command) -> Result<(), Memory>
        requires sound { IsSound L.log self.old }
        requires command { IsCommand command × HasContent command }

        ensures sound { OnOk result (IsSound L.log self.new) }
        ensures ok { OnOk result (server_of L.log self.new
            ≡ add time command (server_of L.log self.old)) }
        ensures err { OnErr result (HandsNothingOut (server_of L.log self.new)) }
        ensures back { LeadsBack L.log self.old self.new }
        ensures cause { IfErr result (IsCaused (server_of L.log self.old)) }
    {
        self.begin();
        if let Err(cause) = self.try_add(alloc, time, command) {
            self.clear();
            return Err(cause);
        }
        Ok(())
    }

    /// A leader sends each of the others the entries that it wasn't sent. Any other server stays as it is.
    /// After an error, which is `Memory::Want` alone, it hands nothing out.
    pub fn flush(&mut self, alloc: Global) -> Result<(), Memory>
        requires { IsSound L.log self.old }

        ensures sound { OnOk result (IsSound L.log self.new) }
        ensures ok { OnOk result (server_of L.log self.new ≡ flush (server_of L.log self.old)) }
        ensures err { OnErr result (HandsNothingOut (server_of L.log self.new)) }
        ensures back { LeadsBack L.log self.old self.new }
        ensures want { IsOkUnless result Memory.Want }
    {
        self.begin();
        if let Err(cause) = self.try_flush(alloc) {
            self.clear();
            return Err(cause);
        }
        Ok(())
    }

    /// The changes up to a number are durable. After an error it hands nothing out. `Spent` comes only where
    /// a number stands at its end.
    pub fn notice(&mut self, alloc: Global, op: u64) -> Result<(), Memory>
        requires { IsSound L.log self.old }

        ensures sound { OnOk result (IsSound L.log self.new) }
        ensures ok { OnOk result (server_of L.log self.new ≡ notice op (server_of L.log self.old)) }
        ensures err { OnErr result (HandsNothingOut (server_of L.log self.new)) }
        ensures back { LeadsBack L.log self.old self.new }
        ensures cause { IfErr result (IsCaused (server_of L.log self.old)) }
    {
        self.begin();
        if let Err(cause) = self.try_notice(alloc, op) {
            self.clear();
            return Err(cause);
        }
        Ok(())
    }

    /// It gives up what it would hand out, as after a refused call. All else stays.
    pub fn clear(&mut self)
        ensures none { HandsNothingOut (server_of L.log self.new) }
        ensures same { self.new ≡ record self.old {
          waiting = self.new.waiting;
          ops = self.new.ops;
          out = self.new.out;
        } }
        ensures before { before L.log self.new ≡ before L.log self.old }
    {
        self.waiting.clear();
        self.ops.clear();
        self.out.clear();
    }

    /// The next change for the log's disk, which the log takes and writes. None exactly where there is none.
    #[tactic(auto, using(crate::proofs::Ranges::all_rest, crate::proofs::Ranges::all_front))]
    pub fn next_op(&mut self) -> Option<Op>
        requires { IsSound L.log self.old }

        ensures may { IfSome result MayWrite }
        ensures sound { IsSound L.log self.new }
        ensures value { result ≡ slice_get (server_of L.log self.old).ops 0 }
        ensures rest { self.new.ops.items ≡ drop 1 self.old.ops.items }
        ensures same { self.new ≡ record self.old { ops = self.new.ops } }
    {
        self.ops.pop_front()
    }

    /// All changes for the log's disk, in order, which the log takes and writes.
    pub fn take_ops(&mut self, alloc: Global) -> VecDeque<Op>
        requires { IsSound L.log self.old }

        ensures may { All MayWrite result.items }
        ensures sound { IsSound L.log self.new }
        ensures value { result.items ≡ (server_of L.log self.old).ops }
        ensures rest { self.new.ops.items ≡ [] }
        ensures same { self.new ≡ record self.old { ops = self.new.ops } }
    {
        mem::replace(&mut self.ops, VecDeque::new(alloc))
    }

    /// How many changes wait for the log's disk.
    pub fn waiting(&self) -> usize
        ensures { result ≡ length self.now.ops.items }
    {
        self.ops.len()
    }

    /// Puts an op before the changes that wait for the log's disk. Without memory it is handed back.
    pub fn put_first(&mut self, op: Op) -> Result<(), Op>
        requires sound { IsSound L.log self.old }
        requires op { MayWrite op }

        ensures sound { IsSound L.log self.new }
        ensures ok { OnOk result (self.new.ops.items ≡ op ∷ self.old.ops.items) }
        ensures err { OnErr result (self.new.ops.items ≡ self.old.ops.items) }
        ensures back { IfErr result (λ returned. returned ≡ op) }
        ensures same { self.new ≡ record self.old { ops = self.new.ops } }
    {
        match self.ops.push_front(op) {
            Ok(()) => Ok(()),
            Err(failed) => Err(failed.value),
        }
    }

    /// Whether an op is the change that it handed out last. What leads back from it has to be there still, as
    /// it is until it is given up once the change is noticed.
    pub fn was_last(&self, op: &Op) -> bool
        requires sound { IsSound L.log self.now }
        requires op { MayWrite op.now }

        ensures { Decides result (last_handed L.log self.now ≡ Some op.now) }
    {
        let place = self.undos.len().saturating_sub(self.ops.len());
        if place == 0 {
            return false;
        }
        self.is_change(place, op)
    }

    /// It gives up what leads back from changes that were noticed.
    pub fn forget_noticed(&mut self)
        requires { IsSound L.log self.old }

        ensures sound { IsSound L.log self.new }
        ensures server { server_of L.log self.new ≡ server_of L.log self.old }
        ensures undos { self.new.undos.items ≡ unnoticed self.old }
        ensures same { self.new ≡ record self.old { undos = self.new.undos; mark = 0 } }
    {
        let open = self.op.saturating_sub(self.noticed);
        let count = (self.undos.len() as u64).saturating_sub(open);
        self.mark = 0;
        drop_front(&mut self.undos, count as usize);
    }

    /// The next message that may leave: it has bytes, and fits whoever gets it by its numbers. None exactly
    /// where there is none.
    #[tactic(auto, using(crate::proofs::Ranges::all_rest, crate::proofs::Ranges::all_front))]
    pub fn next_rpc(&mut self) -> Option<Rpc>
        requires { IsSound L.log self.old }

        ensures rpc { IfSome result IsSendable }
        ensures sound { IsSound L.log self.new }
        ensures value { result ≡ slice_get (server_of L.log self.old).out 0 }
        ensures rest { self.new.out.items ≡ drop 1 self.old.out.items }
        ensures same { self.new ≡ record self.old { out = self.new.out } }
    {
        self.out.pop_front()
    }

    /// What it tells of itself.
    pub fn state(&self) -> MemberState
        requires { IsSound L.log self.now }

        ensures { result ≡ state_of (server_of L.log self.now) }
    {
        MemberState {
            role: self.role,
            term: self.term,
            last: Index(self.last()),
            commit: Index(self.commit),
        }
    }

    /// The number of its last change.
    pub fn op(&self) -> u64
        ensures { result ≡ (server_of L.log self.now).op }
    {
        self.op
    }

    /// The change up to which it was told that its disk is durable.
    pub fn noticed(&self) -> u64
        ensures { result ≡ (server_of L.log self.now).noticed }
    {
        self.noticed
    }

    /// The leader of its term, as far as it knows.
    pub fn leader(&self) -> Option<NodeId>
        ensures { result ≡ (server_of L.log self.now).leader }
    {
        self.leader
    }

    /// Its log.
    pub fn log(&self) -> &L
        ensures { result.now ≡ self.now.log }
    {
        &self.log
    }

    /// Whether it leads and has committed an entry of its term (Ongaro's dissertation, section 6.4).
    pub fn ready(&self) -> bool
        requires { IsSound L.log self.now }

        ensures { result ≡ is_ready (server_of L.log self.now) }
    {
        self.is_ready()
    }
}
