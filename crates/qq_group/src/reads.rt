//! What a group tells of itself.
ghost use Rattle.std.specs.Prelude.{◌≡◌, IfSome, is_some, length, slice_get};
ghost use Rattle.std.specs.List.{list_all};
ghost use Rattle.std.specs.Option.{option_copied};
ghost use Rattle.qq_raft_msg.specs.Bag.{at_place};
ghost use Rattle.qq_group.specs.Group.{IsSound, server_at};
ghost use Rattle.qq_group.specs.declared.seat.Seat.{Seat};
ghost use Rattle.qq_group.specs.Restarts.{is_known, noticed_at};
ghost use Rattle.qq_group.specs.Reads.{handed_at, has_settled, is_idle, machine_at, member_at, noticed_by, op_at, receiver_of};

use crate::group::Group;
use qq_base::{Index, NodeId};
use qq_entry::Entry;
use qq_raft_msg::{LogView, MemberState, Queue};

impl<Q: Queue, L: LogView> Group<Q, L> {
    /// The entries that were committed, in order. They only grow.
    pub fn audit(&self) -> &[Entry]
        ensures { result.now ≡ self.now.audit.items }
    {
        self.audit.as_slice()
    }

    /// The index of the last entry that was committed, 0 for none.
    pub fn end(&self) -> Index
        ensures { result.0 ≡ length self.now.audit.items }
    {
        Index(self.audit.len() as u64)
    }

    /// The nodes of its members, the first member first.
    pub fn members(&self) -> &[NodeId]
        ensures { result.now ≡ self.now.nodes.items }
    {
        self.nodes.as_slice()
    }

    /// How many messages are on their way.
    pub fn messages(&self) -> u32
        ensures { result ≡ length self.now.bag }
    {
        self.bag.len()
    }

    /// Whom the message at a place, from 1, is for. None exactly where there is none.
    pub fn receiver(&self, place: u32) -> Option<NodeId>
        ensures { result ≡ receiver_of (at_place place self.now.bag) }
    {
        match self.bag.get(place) {
            None => None,
            Some(rpc) => Some(rpc.envelope().to),
        }
    }

    /// What a member's server tells of itself. None exactly where the member is down.
    pub fn member(&self, node: NodeId) -> Option<MemberState>
        requires { IsSound Q.stands L.log Q.applied self.now }

        ensures { result ≡ member_at L.log (server_at node.0 self.now) }
    {
        match self.server(node) {
            None => None,
            Some(server) => Some(server.state()),
        }
    }

    /// The queue of a member, as far as it has applied what was committed. None exactly where the member is
    /// down.
    pub fn machine(&self, node: NodeId) -> Option<&Q>
        ensures { option_copied result ≡ machine_at (server_at node.0 self.now) }
    {
        match self.server(node) {
            None => None,
            Some(server) => Some(server.machine()),
        }
    }

    /// The greatest op that a member may be told to be durable, which is how many ops its log was handed, but
    /// for one that was given back. 0 where the member is down.
    pub fn handed(&self, node: NodeId) -> u64
        ensures { result ≡ handed_at (slice_get self.now.seats.items node.0) }
    {
        match self.seat(node) {
            None => 0,
            Some(seat) => seat.handed_up(),
        }
    }

    /// The number of a member's last change, which its log may not have been handed yet. 0 where the member is
    /// down.
    pub fn op(&self, node: NodeId) -> u64
        ensures { result ≡ op_at L.log (server_at node.0 self.now) }
    {
        match self.server(node) {
            None => 0,
            Some(server) => server.op(),
        }
    }

    /// The op up to which a member was told that its log is durable. 0 where the member is down.
    pub fn noticed(&self, node: NodeId) -> u64
        ensures { result ≡ noticed_by L.log (server_at node.0 self.now) }
    {
        match self.server(node) {
            None => 0,
            Some(server) => server.noticed(),
        }
    }

    /// The op up to which a member was ever told that its log is durable, also where it is down. None exactly where it
    /// isn't known what its log was handed, which it is from its first restart on.
    pub fn last_noticed(&self, node: NodeId) -> Option<u64>
        ensures known { is_some result ≡ is_known (slice_get self.now.seats.items node.0) }
        ensures noticed { IfSome result (λ op.
            op ≡ noticed_at (slice_get self.now.seats.items node.0)) }
    {
        match self.seat(node) {
            None => None,
            Some(seat) => {
                if !seat.known {
                    return None;
                }
                Some(seat.noticed)
            }
        }
    }

    fn all_settled(&self) -> bool
        ensures { result ≡ list_all (λ (seat : Seat Q L). has_settled L.log seat seat.server)
            self.now.seats.items }
    {
        self.seats.iter().all(|seat| seat.has_settled())
    }

    /// Whether no message is on its way, and no member that is up has a change that waits for its log or of
    /// which it wasn't told yet that it is durable.
    pub fn idle(&self) -> bool
        ensures { result ≡ is_idle L.log self.now }
    {
        if self.bag.len() > 0 {
            return false;
        }
        self.all_settled()
    }
}
