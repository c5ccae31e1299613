//! The server of a member.
ghost use Rattle.std.specs.Prelude.{◌≡◌, ◌<◌, is_some, length, true};
ghost use Rattle.std.specs.Option.{option_copied};
ghost use Rattle.qq_group.specs.Group.{server_at};

use crate::group::Group;
use qq_base::NodeId;
use qq_raft::Server;
use qq_raft_msg::{LogView, Queue};

impl<Q: Queue, L: LogView> Group<Q, L> {
    /// A member's server. None exactly where the member is down.
    pub(crate) fn server(&self, node: NodeId) -> Option<&Server<Q, L>>
        ensures { option_copied result ≡ server_at node.0 self.now }
    {
        match self.seat(node) {
            None => None,
            Some(seat) => seat.server.as_ref(),
        }
    }

    #[tactic(auto, using(crate::proofs::Stepped::up_within))]
    pub(crate) fn is_up(&self, node: NodeId) -> bool
        ensures value { result ≡ is_some (server_at node.0 self.now) }
        ensures there { result ≡ true → node.0 < length self.now.seats.items }
    {
        self.server(node).is_some()
    }
}
