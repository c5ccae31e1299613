//! Ids of the things that a broker names.
ghost use Rattle.std.proofs.Common.{rules};
ghost use Rattle.std.specs.Cmp.Rules.{comparing};

/// A queue by its number, from 1.
#[derive(Clone, Copy, Debug, PartialEq, Eq)]
pub struct QueueId(pub u32);

/// A node by its number, 1 to 7.
#[derive(Clone, Copy, Debug, PartialEq, Eq)]
pub struct NodeId(pub u8);

/// A term of Raft (Ongaro's dissertation, section 3.3).
#[derive(Clone, Copy, Debug, PartialEq, Eq)]
pub struct Term(pub u64);

/// The place of an entry in a queue's log, from 1 (Ongaro's dissertation, section 3.5).
#[derive(Clone, Copy, Debug, PartialEq, Eq)]
pub struct Index(pub u64);

/// The class of a client's session.
pub const CLIENT: u8 = 1;

/// The class of the worker that dead-letters at least once.
pub const WORKER: u8 = 2;

/// The class of a dead letter of a queue that dead-letters at most once.
pub const DEAD_LETTER: u8 = 3;

// The equality of the two ids below is written by hand, so that proofs see it as `same_session` and
// `same_consumer`, and a map by such an id can be looked up in a contract.

/// A session that numbers its commands for each queue (Ongaro's dissertation, section 6.3).
///
/// A client has owner 0. The other two classes have the source queue as their owner, and the source's
/// term as their number.
#[derive(Clone, Copy, Debug, Eq, Hash)]
pub struct SessionId {
    /// `CLIENT`, `WORKER` or `DEAD_LETTER`.
    pub class: u8,
    /// The source queue's number, or 0.
    pub owner: u32,
    /// From 1.
    pub number: u64,
}

/// A consumer: a session, and the tag that it gave (RabbitMQ, "Consumers", consumer tags).
#[derive(Clone, Copy, Debug, Eq, Hash)]
pub struct ConsumerId {
    pub session: SessionId,
    /// From 1.
    pub tag: u32,
}

impl SessionId {
    ghost use Rattle.std.specs.Prelude.{◌≡◌};
    ghost use Rattle.qq_base.specs.Ids.{client};

    /// The client's session with this number.
    pub fn client(number: u64) -> Self
        ensures { result ≡ client number }
    {
        SessionId {
            class: CLIENT,
            owner: 0,
            number,
        }
    }
}

impl PartialEq for SessionId {
    ghost use Rattle.qq_base.specs.Ids.{same_session};

    ghost eq = { same_session };

    ghost laws = { Prim.search (comparing, rules) };

    fn eq(&self, other: &Self) -> bool {
        self.class == other.class && self.owner == other.owner && self.number == other.number
    }
}

impl PartialEq for ConsumerId {
    ghost use Rattle.qq_base.specs.Ids.{same_consumer};

    ghost eq = { same_consumer };

    ghost laws = { Prim.search (comparing, rules) };

    fn eq(&self, other: &Self) -> bool {
        self.session == other.session && self.tag == other.tag
    }
}
