//! Members that restart.
ghost use Rattle.qq_base.specs.declared.memory.TheConstants.{NUMBER_END};
ghost use Rattle.std.specs.Prelude.{◌≡◌, ◌<◌, ◌≤◌, ◌^◌, All, None, length, true, IfOk, IfErr, OnOk, OnErr, IsOkUnless, slice_get};
ghost use Rattle.std.specs.Bool.{Decides};
ghost use Rattle.qq_log.specs.Stable.{no_snapshot};
ghost use Rattle.qq_raft_core.specs.Raft.{IsWithinEnds};
ghost use Rattle.qq_raft_msg.specs.Rpc.{IsNode};
ghost use Rattle.qq_raft_model.specs.Group.{has_node};
ghost use Rattle.qq_group.specs.Follows.{OthersStay};
ghost use Rattle.qq_group.specs.Group.{HasState, IsServing, IsSound, server_at};
ghost use Rattle.qq_group.specs.Handing.{returned_at};
ghost use Rattle.qq_group.specs.Restarts.{Finds, HasStarted, IsIntactAt, IsStarted, noticed_at, IsRestartCaused, Restarts};
ghost use Rattle.qq_group.specs.declared.restart.RestartFault.TheVariants.{Lost};

use crate::group::Group;
use crate::seat::Seat;
use qq_base::{Memory, NodeId};
use qq_raft::Server;
use qq_raft_msg::{LogView, Queue};
use std::alloc::Global;
use thiserror::Error;

/// Why a member didn't restart.
#[derive(Clone, Copy, Debug, PartialEq, Eq, Error)]
pub enum RestartFault {
    /// Its log isn't what the ops that it was handed come to, up to one that isn't older than what was noticed.
    #[error("noticed {noticed} found {found}")]
    Lost {
        /// The greatest op that it was noticed of.
        noticed: u64,
        /// The op of the log that was found.
        found: u64,
    },
    /// Out of memory.
    #[error("{0}")]
    Memory(Memory),
}

impl From<Memory> for RestartFault {
    ghost use Rattle.qq_group.specs.declared.restart.RestartFault.TheVariants.{Memory};

    ghost from_gives = { λ m e. e ≡ Memory m };

    fn from(cause: Memory) -> Self {
        RestartFault::Memory(cause)
    }
}

impl<Q: Queue, L: LogView> Group<Q, L> {
    /// Puts a server that has just started into its seat.
    fn start(&mut self, node: NodeId, server: Server<Q, L>)
        requires sound { IsSound Q.stands L.log Q.applied self.old }
        requires server { IsServing Q.stands L.log Q.applied server }
        requires there { node.0 < length self.old.seats.items }

        ensures sound { IsSound Q.stands L.log Q.applied self.new }
        ensures nodes { self.new.nodes ≡ self.old.nodes }
        ensures started { IsStarted node.0 server.raft.op server self.old self.new }
    {
        let op = server.op();
        let Some(seat) = self.seats.get_mut(node.0 as usize) else {
            unreachable!()
        };
        seat.server = Some(server);
        seat.known = true;
        seat.noticed = op;
        seat.handed = op;
        seat.left = None;
        seat.returned = None;
    }

    /// A member that is down restarts with a machine that has applied nothing and the log that its disk
    /// holds. `Lost` comes exactly where it is known what the log was handed, and the log isn't what these ops
    /// come to, up to one that isn't older than what was noticed. After an error the member stays down, and
    /// nothing has changed.
    pub fn restart(
        &mut self,
        alloc: Global,
        node: NodeId,
        machine: Q,
        log: L,
    ) -> Result<(), RestartFault>
        requires sound { IsSound Q.stands L.log Q.applied self.old }
        requires node { IsNode node }
        requires member { has_node node.0 self.old.nodes.items ≡ true }
        requires down { server_at node.0 self.old ≡ None }
        requires whole { (L.log log).base ≡ no_snapshot }
        requires ends { IsWithinEnds (L.log log) }
        requires machine { Q.applied machine ≡ 0 }
        requires state { HasState Q.stands machine }

        ensures sound { IsSound Q.stands L.log Q.applied self.new }
        ensures nodes { self.new.nodes ≡ self.old.nodes }
        ensures ok { OnOk result (Restarts L.log node.0 (L.log log) self.old self.new) }
        ensures started { OnOk result (HasStarted Q.stands machine (server_at node.0 self.new)) }
        ensures audit { self.new.audit ≡ self.old.audit }
        ensures bag { self.new.bag ≡ self.old.bag }
        ensures others { OthersStay node.0 self.old self.new }
        ensures returned { OnOk result
            (returned_at (slice_get self.new.seats.items node.0) ≡ None) }
        ensures found { OnOk result (Finds L.log node.0 (L.log log) self.old) }
        ensures err { OnErr result (self.new ≡ self.old) }
        ensures cause { IfErr result (IsRestartCaused L.log node.0 (L.log log) self.old) }
    {
        if !self.is_intact(node, &log) {
            return Err(self.lost(node, &log));
        }
        let server = match Server::new(
            alloc,
            self.queue,
            node,
            self.nodes.as_slice(),
            machine,
            log,
        ) {
            Ok(server) => server,
            Err(cause) => return Err(RestartFault::Memory(cause)),
        };
        self.start(node, server);
        Ok(())
    }

    /// Whether a log was found to hold what a member's ops come to, as far as these are known.
    fn is_intact(&self, node: NodeId, log: &L) -> bool
        requires sound { IsSound Q.stands L.log Q.applied self.now }
        requires whole { (L.log log.now).base ≡ no_snapshot }
        requires last { length (L.log log.now).entries ≤ NUMBER_END }
        ensures { Decides result
            (IsIntactAt L.log (slice_get self.now.seats.items node.0) (L.log log.now)) }
    {
        let Some(seat) = self.seat(node) else {
            return true;
        };
        if !seat.known {
            return true;
        }
        seat.is_intact(log)
    }

    /// What is told of a log that lost something.
    fn lost(&self, node: NodeId, log: &L) -> RestartFault
        ensures { result ≡ Lost (noticed_at (slice_get self.now.seats.items node.0))
            (L.log log.now).op }
    {
        let (found, _, _) = log.start();
        match self.seat(node) {
            None => RestartFault::Lost { noticed: 0, found },
            Some(seat) => RestartFault::Lost {
                noticed: seat.noticed,
                found,
            },
        }
    }
}
