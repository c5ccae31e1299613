//! Groups that are opened over the disks of their members.
ghost use Rattle.std.specs.Prelude.{◌≡◌, ◌<◌, ◌^◌, ℕ, true, All, [], length, IfOk, IfErr, OnOk, IsOkUnless};
ghost use Rattle.std.specs.List.{AllByRecursion};
ghost use Rattle.qq_raft_msg.specs.Rpc.{IsNode};
ghost use Rattle.qq_raft_model.specs.Group.{group_after, has_node, Group as GroupState};
ghost use Rattle.qq_group.specs.Follows.{OthersStay};
ghost use Rattle.qq_group.specs.Group.{IsSound, Represents, server_at};
ghost use Rattle.qq_group.specs.Opening.{AreApart, AreDown, AreEmpty, HasStartedBy, HaveStarted, is_named, IsFoundBy, IsFresh, IsOpened, IsOpeningCaused, IsReady, IsStart, missing, OpensOver, restarts_by, Starts};

use crate::group::Group;
use crate::restart::RestartFault;
use crate::seat::Seat;
use qq_base::{Memory, NodeId, QueueId};
use qq_entry::{Entries, Entry};
use qq_log::NODE_LIMIT;
use qq_raft_msg::{Bag, LogView, Queue};
use std::alloc::Global;
use thiserror::Error;

/// Why a group wasn't opened.
#[derive(Clone, Copy, Debug, PartialEq, Eq, Error)]
pub enum GroupFault {
    /// Members aren't named.
    #[error("short of {members} members")]
    Short {
        /// How many, at most 255.
        members: u8,
    },
    /// Out of memory.
    #[error("{0}")]
    Memory(Memory),
}

/// Whether a node is named.
fn is_named<Q: Drop, L: Drop>(node: NodeId, starts: &[(NodeId, Option<(Q, L)>)]) -> bool
    ensures { result ≡ is_named node starts.now }
{
    starts.iter().any(|start| start.0.0 == node.0)
}

/// How many nodes aren't named.
fn missing<Q: Drop, L: Drop>(nodes: &[NodeId], starts: &[(NodeId, Option<(Q, L)>)]) -> usize
    ensures { result ≡ missing nodes.now starts.now }
{
    nodes
        .iter()
        .filter(|node| !is_named(**node, starts))
        .count()
}

/// A seat for each number of a node, all of them empty.
fn empty_seats<Q: Queue, L: LogView>(alloc: Global) -> Result<Vec<Seat<Q, L>>, Memory>
    ensures empty { IfOk result (λ seats. AreEmpty seats.items) }
    ensures want { IsOkUnless result Memory.Want }
{
    let mut seats = Vec::new(alloc);
    'seats: for _ in 0..NODE_LIMIT + 1 {
        seats.push(Seat {
            server: None,
            known: false,
            noticed: 0,
            handed: 0,
            left: None,
            returned: None,
        })?;
    }
    Ok(seats)
}

impl<Q: Queue, L: LogView> Group<Q, L> {
    /// A group whose members are down.
    fn all_down(
        alloc: Global,
        queue: QueueId,
        nodes: &[NodeId],
        audit: Vec<Entry>,
    ) -> Result<Self, Memory>
        requires nodes { All IsNode nodes.now }
        requires count { length nodes.now < 2 ^ 32 }

        ensures sound { IfOk result (IsSound Q.stands L.log Q.applied) }
        ensures ok { IfOk result (IsOpened queue nodes.now audit.items) }
        ensures want { IsOkUnless result Memory.Want }
    {
        let nodes = Vec::from_slice(alloc, nodes)?;
        let seats = empty_seats(alloc)?;
        Ok(Group {
            queue,
            nodes,
            seats,
            bag: Bag::new(alloc),
            audit,
        })
    }

    /// Starts a member, if its disk gave a log.
    fn start_one(
        &mut self,
        alloc: Global,
        node: NodeId,
        start: Option<(Q, L)>,
    ) -> Result<(), Memory>
        requires sound { IsSound Q.stands L.log Q.applied self.old }
        requires node { IsNode node }
        requires member { has_node node.0 self.old.nodes.items ≡ true }
        requires fresh { IsFresh self.old node.0 }
        requires ready { IsReady Q.stands L.log Q.applied start }

        ensures sound { IsSound Q.stands L.log Q.applied self.new }
        ensures ok { OnOk result ((g : GroupState) → Represents L.log g self.old →
            IsFoundBy L.log g node.0 start →
            Represents L.log (group_after g (restarts_by L.log node.0 start [])) self.new) }
        ensures started { OnOk result (HasStartedBy Q.stands start (server_at node.0 self.new)) }
        ensures others { OthersStay node.0 self.old self.new }
        ensures nodes { self.new.nodes ≡ self.old.nodes }
        ensures audit { self.new.audit ≡ self.old.audit }
        ensures want { IsOkUnless result Memory.Want }
    {
        let Some((machine, log)) = start else {
            return Ok(());
        };
        match self.restart(alloc, node, machine, log) {
            Ok(()) => Ok(()),
            Err(RestartFault::Memory(cause)) => Err(cause),
            Err(RestartFault::Lost { .. }) => unreachable!(),
        }
    }

    /// Starts members one after another.
    fn start_each(
        &mut self,
        alloc: Global,
        starts: Vec<(NodeId, Option<(Q, L)>)>,
    ) -> Result<(), Memory>
        requires sound { IsSound Q.stands L.log Q.applied self.old }
        requires each { AllByRecursion
            (IsStart Q.stands L.log Q.applied self.old.nodes.items) starts.items }
        requires apart { AreApart starts.items }
        requires fresh { (k : ℕ) → IsFresh self.old k }

        ensures sound { IsSound Q.stands L.log Q.applied self.new }
        ensures ok { OnOk result (Starts L.log starts.items self.old self.new) }
        ensures started { OnOk result (HaveStarted Q.stands starts.items self.new) }
        ensures others { OnOk result (AreDown starts.items self.new) }
        ensures nodes { self.new.nodes ≡ self.old.nodes }
        ensures audit { self.new.audit ≡ self.old.audit }
        ensures want { IsOkUnless result Memory.Want }
    {
        'starts: for start in starts {
            self.start_one(alloc, start.0, start.1)?;
        }
        Ok(())
    }

    /// A group whose audit is empty, of these nodes. Each member that is given a machine that has applied
    /// nothing and the log of its disk starts. One that is given none, since its disk failed, is down, and its
    /// first restart takes its log as it is found. `Short` comes exactly where a member isn't named.
    pub fn new(
        alloc: Global,
        queue: QueueId,
        nodes: &[NodeId],
        starts: Vec<(NodeId, Option<(Q, L)>)>,
    ) -> Result<Self, GroupFault>
        requires nodes { All IsNode nodes.now }
        requires count { length nodes.now < 2 ^ 32 }
        requires each { AllByRecursion (IsStart Q.stands L.log Q.applied nodes.now) starts.items }
        requires apart { AreApart starts.items }

        ensures sound { IfOk result (IsSound Q.stands L.log Q.applied) }
        ensures ok { IfOk result (OpensOver L.log queue nodes.now [] starts.items) }
        ensures started { IfOk result (HaveStarted Q.stands starts.items) }
        ensures others { IfOk result (AreDown starts.items) }
        ensures nodes { IfOk result (λ group. group.nodes.items ≡ nodes.now) }
        ensures audit { IfOk result (λ group. group.audit.items ≡ []) }
        ensures named { IfOk result (λ group. missing nodes.now starts.items ≡ 0) }
        ensures cause { IfErr result (IsOpeningCaused nodes.now starts.items) }
    {
        Group::resume(alloc, queue, nodes, Entries::new(alloc), starts)
    }

    /// A group as `new` gives it, that goes on with the audit that it had.
    pub fn resume(
        alloc: Global,
        queue: QueueId,
        nodes: &[NodeId],
        audit: Entries,
        starts: Vec<(NodeId, Option<(Q, L)>)>,
    ) -> Result<Self, GroupFault>
        requires nodes { All IsNode nodes.now }
        requires count { length nodes.now < 2 ^ 32 }
        requires each { AllByRecursion (IsStart Q.stands L.log Q.applied nodes.now) starts.items }
        requires apart { AreApart starts.items }

        ensures sound { IfOk result (IsSound Q.stands L.log Q.applied) }
        ensures ok { IfOk result (OpensOver L.log queue nodes.now audit starts.items) }
        ensures started { IfOk result (HaveStarted Q.stands starts.items) }
        ensures others { IfOk result (AreDown starts.items) }
        ensures nodes { IfOk result (λ group. group.nodes.items ≡ nodes.now) }
        ensures audit { IfOk result (λ group. group.audit.items ≡ audit) }
        ensures named { IfOk result (λ group. missing nodes.now starts.items ≡ 0) }
        ensures cause { IfErr result (IsOpeningCaused nodes.now starts.items) }
    {
        let missing = missing(nodes, starts.as_slice());
        if missing > 0 {
            return Err(GroupFault::Short {
                members: missing.min(255) as u8,
            });
        }
        let mut group = match Group::all_down(alloc, queue, nodes, audit.into_vec()) {
            Ok(group) => group,
            Err(cause) => return Err(GroupFault::Memory(cause)),
        };
        match group.start_each(alloc, starts) {
            Ok(()) => Ok(group),
            Err(cause) => Err(GroupFault::Memory(cause)),
        }
    }
}
