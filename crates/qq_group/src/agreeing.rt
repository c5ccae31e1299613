//! The entries of a member's log, one by one.
ghost use Rattle.std.specs.Prelude.{◌≡◌, ◌≤◌, ◌^◌};
ghost use Rattle.std.specs.Option.{option_copied};
ghost use Rattle.qq_group.specs.Agreeing.{entry_by};
ghost use Rattle.qq_group.specs.Group.{IsSound, server_at};

use crate::group::Group;
use qq_base::{Index, NodeId};
use qq_entry::Entry;
use qq_raft_msg::{LogView, Queue};

impl<Q: Queue, L: LogView> Group<Q, L> {
    /// The entry at a place, from 0, of a member's log. None exactly where the member is down or its log ends
    /// before it.
    pub fn entry(&self, node: NodeId, place: u64) -> Option<&Entry>
        requires sound { IsSound Q.stands L.log Q.applied self.now }
        requires place { place ≤ 2 ^ 63 }

        ensures { option_copied result ≡ entry_by L.log place (server_at node.0 self.now) }
    {
        match self.server(node) {
            None => None,
            Some(server) => server.log().entry(Index(place + 1)),
        }
    }
}
