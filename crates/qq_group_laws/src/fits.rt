//! The messages that are on their way in a group.
ghost use Rattle.std.specs.Prelude.{◌≡◌, List, Some, true};
ghost use Rattle.qq_entry.specs.declared.command.Entry.{Entry};
ghost use Rattle.qq_raft_core.specs.Fits.{fits};
ghost use Rattle.qq_raft_core.specs.Raft.{server_of};
ghost use Rattle.qq_raft_protocol.specs.Facts.{In};
ghost use Rattle.qq_raft_msg.specs.Rpc.{envelope};
ghost use Rattle.qq_raft_msg.specs.declared.rpc.Rpc.{Rpc};
ghost use Rattle.qq_raft.specs.declared.server.Server.{Server};
ghost use Rattle.qq_raft_model.specs.Group.{Event, Group as GroupState, group_after};
ghost use Rattle.qq_raft_model.specs.Promises.{IsOpened};
ghost use Rattle.qq_group.specs.Group.{IsReached, IsSound, Represents, server_at};
ghost use Rattle.qq_group.specs.declared.group.Group.{Group};
ghost use Rattle.qq_group_laws.specs.Addressed.{IsBetween};

use qq_raft_msg::{LogView, Queue};

/// A law: whatever happens in a group that was opened, each message that is on its way is from one member to another.
pub fn a_message_is_from_one_member_to_another()
    ensures { (g : GroupState) (whole : List Entry) (events : List Event) (rpc : Rpc) →
        IsOpened g whole → In rpc (group_after g events).bag → IsBetween g.nodes rpc }
{}

/// A law: a message that is on its way fits the server that it reaches: it is for that server, from one of
/// its peers, its terms and indices are within their ends, and its entries no more than one change may have.
/// So none is lost because it doesn't fit.
pub fn a_message_always_fits<Q: Queue, L: LogView>()
    ensures { (g : GroupState) (group : Group Q L) (rpc : Rpc) (s : Server Q L) → IsReached g →
        Represents L.log g group → IsSound Q.stands L.log Q.applied group → In rpc group.bag →
        server_at (envelope rpc).to.0 group ≡ Some s → fits (server_of L.log s.raft) rpc ≡ true }
{}
