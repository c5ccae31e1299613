//! Which member leads.
ghost use Rattle.std.specs.Prelude.{◌≡◌, is_none};
ghost use Rattle.std.specs.Option.{option_copied};
ghost use Rattle.qq_group.specs.Group.{IsSound, server_at};
ghost use Rattle.qq_group.specs.Reads.{later, leader_of, leading_at, machine_of};

use crate::group::Group;
use qq_base::{NodeId, Term};
use qq_raft_msg::{LogView, Queue};

/// A member that leads and may take commands.
#[derive(Clone, Copy)]
pub(crate) struct Leading {
    pub(crate) node: NodeId,
    pub(crate) term: Term,
}

/// The one of the later term, the first where they are equal.
fn later(best: Option<Leading>, next: Option<Leading>) -> Option<Leading>
    ensures { result ≡ later best next }
{
    match (best, next) {
        (_, None) => best,
        (None, Some(_)) => next,
        (Some(before), Some(after)) => {
            if before.term.0 < after.term.0 {
                return next;
            }
            best
        }
    }
}

impl<Q: Queue, L: LogView> Group<Q, L> {
    /// A member, where it leads and may take commands.
    fn leading(&self, node: NodeId) -> Option<Leading>
        requires { IsSound Q.stands L.log Q.applied self.now }

        ensures { result ≡ leading_at L.log node (server_at node.0 self.now) }
    {
        match self.server(node) {
            None => None,
            Some(server) => {
                if !server.ready() {
                    return None;
                }
                Some(Leading {
                    node,
                    term: server.state().term,
                })
            }
        }
    }

    /// The member that leads and may take commands: it has committed an entry of its term (Ongaro's
    /// dissertation, section 6.4). Of several, whose terms differ, the one of the latest term. None exactly
    /// where there is none.
    pub fn leader(&self) -> Option<NodeId>
        requires { IsSound Q.stands L.log Q.applied self.now }

        ensures { result ≡ leader_of L.log self.now }
    {
        let mut best = None;
        'nodes: for node in self.nodes.as_slice() {
            best = later(best, self.leading(*node));
        }
        match best {
            None => None,
            Some(leading) => Some(leading.node),
        }
    }

    /// The queue of the member that leads and may take commands, whose counts are the group's. None exactly
    /// where `leader` is.
    pub fn leading_machine(&self) -> Option<&Q>
        requires { IsSound Q.stands L.log Q.applied self.now }

        ensures value { option_copied result ≡ machine_of (leader_of L.log self.now) self.now }
        ensures none { is_none result ≡ is_none (leader_of L.log self.now) }
    {
        match self.leader() {
            None => None,
            Some(node) => self.machine(node),
        }
    }
}
