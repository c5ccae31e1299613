ghost use Rattle.std.specs.Prelude.{◌≡◌, ◌≤◌, ◌&&◌, IfSome, None, is_none, is_some, length, nat_lt, true, if◌then◌else◌};
ghost use Rattle.std.specs.Bool.{Decides};
ghost use Rattle.qq_group.specs.Handing.{held, IsLastBy};
ghost use Rattle.qq_group.specs.Reads.{has_settled};
ghost use Rattle.qq_base.specs.declared.memory.TheConstants.{NUMBER_END};
ghost use Rattle.qq_log.specs.Stable.{no_snapshot};
ghost use Rattle.qq_log.specs.Writable.{MayWrite};
ghost use Rattle.qq_group.specs.Group.{IsLeft, IsServed};
ghost use Rattle.qq_group.specs.Restarts.{IsIntact};
ghost use Rattle.qq_group.specs.Step.{IsDropped, IsLeaving};

use qq_log::Op;
use qq_raft::Server;
use qq_raft_core::Lanes;
use qq_raft_msg::{LogView, Queue};

/// A member of a group.
#[derive(Drop)]
pub(crate) struct Seat<Q: Drop, L: LogView> {
    /// Its server, none while it is down.
    pub(crate) server: Option<Server<Q, L>>,
    /// Whether the following are known: a group that goes on over old disks doesn't know them until the
    /// member's first restart.
    pub(crate) known: bool,
    /// The op up to which the server was told that its log is durable.
    pub(crate) noticed: u64,
    /// How many ops the log was handed, from the first on.
    pub(crate) handed: u64,
    /// What its last server left, from which it is known what its log may hold.
    pub(crate) left: Option<Lanes<L>>,
    /// The last op that its log was handed, where it was given back.
    pub(crate) returned: Option<Op>,
}

impl<Q: Drop, L: LogView> Seat<Q, L> {
    /// How many ops its log was handed. One that was given back doesn't count.
    fn held(&self) -> u64
        ensures { result ≡ held self.now }
    {
        if self.returned.is_some() {
            return self.handed.saturating_sub(1);
        }
        self.handed
    }

    /// Whether it is up and its log wasn't handed an op with this number, or gave it back.
    pub(crate) fn lacks_op(&self, op: u64) -> bool
        ensures { result ≡ is_some self.now.server && nat_lt (held self.now) op }
    {
        self.server.is_some() && self.held() < op
    }

    /// Whether it is up and has an op that was given back.
    pub(crate) fn has_returned(&self) -> bool
        ensures { result ≡ is_some self.now.server && is_some self.now.returned }
    {
        self.server.is_some() && self.returned.is_some()
    }

    /// Whether it is up and has no op that was given back.
    pub(crate) fn takes_back(&self) -> bool
        ensures { result ≡ is_some self.now.server && is_none self.now.returned }
    {
        self.server.is_some() && self.returned.is_none()
    }

    /// How many ops its log was handed, 0 while it is down.
    pub(crate) fn handed_up(&self) -> u64
        ensures { result ≡ if is_some self.now.server then held self.now else 0 }
    {
        if self.server.is_some() {
            return self.held();
        }
        0
    }
}

impl<Q: Queue, L: LogView> Seat<Q, L> {
    /// Whether a log that was found is what its ops come to, up to one that isn't older than what was noticed.
    pub(crate) fn is_intact(&self, log: &L) -> bool
        requires left { IsLeft L.log self.now.left }
        requires whole { (L.log log.now).base ≡ no_snapshot }
        requires last { length (L.log log.now).entries ≤ NUMBER_END }
        ensures { Decides result (IsIntact L.log self.now (L.log log.now)) }
    {
        let (op, _, _) = log.start();
        let lacks_noticed = op < self.noticed;
        if lacks_noticed {
            return false;
        }
        let passes_handed = self.handed < op;
        if passes_handed {
            return false;
        }
        match &self.left {
            None => false,
            Some(lanes) => lanes.holds(log),
        }
    }

    /// Whether an op is the last one that its server handed out, and isn't noticed.
    pub(crate) fn was_last(&self, op: &Op) -> bool
        requires served { IsServed Q.stands L.log Q.applied self.now.server }
        requires op { MayWrite op.now }
        ensures { Decides result (IsLastBy L.log op.now self.now.server) }
    {
        match &self.server {
            None => false,
            Some(server) => server.was_last(op),
        }
    }

    /// A server that is gone leaves its log.
    pub(crate) fn leave(&mut self, server: Server<Q, L>)
        ensures { IsLeaving L.log server self.old self.new }
    {
        self.left = Some(server.into_lanes());
    }

    /// Its server, which is up, is gone, and leaves its log.
    pub(crate) fn crash(&mut self)
        requires { is_some self.old.server ≡ true }
        ensures dropped { IsDropped L.log self.old self.new }
        ensures leaves { IfSome self.old.server (λ server.
            IsLeaving L.log server (record self.old { server = None }) self.new) }
    {
        let Some(server) = self.server.take() else {
            unreachable!()
        };
        self.leave(server);
    }

    /// Whether it is down, or its log was handed all changes of its server, and all are durable, as far as
    /// that was told.
    pub(crate) fn has_settled(&self) -> bool
        ensures { result ≡ has_settled L.log self.now self.now.server }
    {
        match &self.server {
            None => true,
            Some(server) => server.op() <= self.handed && self.handed <= self.noticed,
        }
    }
}
