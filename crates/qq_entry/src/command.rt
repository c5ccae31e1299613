use crate::message::{Message, Origin};
use crate::shared::Shared;
use qq_base::{ConsumerId, Duplicate, Ids, Items, Memory, QueueIds, SessionId, Term};
use std::alloc::Global;

/// The stamp of a session's command (Ongaro's dissertation, section 6.3).
#[derive(Clone, Copy, Debug, PartialEq, Eq)]
pub struct Stamp {
    /// The session that gives the command.
    pub session: SessionId,
    /// The command's number, from 1 for each session and queue; 0 for a session of class `DEAD_LETTER`.
    pub seq: u64,
    /// The session's low mark, up to which it has had all answers.
    pub done: u64,
}

/// How a consumer gets deliveries.
#[derive(Clone, Copy, Debug, PartialEq, Eq)]
pub enum Mode {
    /// Up to so many that it hasn't settled (RabbitMQ, "Consumer Prefetch"); 0 stands for 2,000.
    Prefetch(u16),
    /// By the credit that it gives (AMQP 1.0 link credit).
    Link,
}

/// A dead letter that its targets have confirmed.
#[derive(Debug, Drop, PartialEq)]
pub struct DeadDone {
    /// Its number at its source, from 1.
    pub number: u64,
    /// The queues that have it now.
    pub targets: QueueIds,
}

/// Dead letters that their targets have confirmed, in any order.
pub type DeadDones = Items<DeadDone>;

/// A command of a queue's log.
#[derive(Debug, Drop, PartialEq)]
pub enum Command {
    /// The first entry of a leader.
    Noop {
        /// The version of its machine.
        version: u8,
    },
    /// Publishes a message.
    Enqueue {
        /// The command's stamp.
        stamp: Stamp,
        /// Where a dead letter comes from.
        origin: Option<Origin>,
        /// The message, with its content.
        message: Message,
    },
    /// Takes the next message, settled at once.
    Get {
        /// The command's stamp.
        stamp: Stamp,
    },
    /// Adds a consumer.
    Subscribe {
        /// The command's stamp.
        stamp: Stamp,
        /// The new consumer's tag, from 1.
        tag: u32,
        /// How it gets deliveries.
        mode: Mode,
    },
    /// Cancels a consumer. What it hasn't settled stays with it.
    Cancel {
        /// The command's stamp.
        stamp: Stamp,
        /// The consumer's tag.
        tag: u32,
    },
    /// Sets a consumer's link credit.
    Credit {
        /// The command's stamp.
        stamp: Stamp,
        /// The consumer's tag.
        tag: u32,
        /// How many deliveries the consumer has had so far (AMQP 1.0 delivery count).
        count: u32,
        /// How many it may have beyond these.
        credit: u32,
        /// Whether credit that no message meets is used up at once.
        drain: bool,
    },
    /// Settles deliveries.
    Settle {
        /// The command's stamp.
        stamp: Stamp,
        /// The consumer's tag.
        tag: u32,
        /// Of the deliveries.
        ids: Ids,
    },
    /// Returns deliveries to the queue.
    Return {
        /// The command's stamp.
        stamp: Stamp,
        /// The consumer's tag.
        tag: u32,
        /// Of the deliveries.
        ids: Ids,
    },
    /// Discards deliveries, which are then dead-lettered.
    Discard {
        /// The command's stamp.
        stamp: Stamp,
        /// The consumer's tag.
        tag: u32,
        /// Of the deliveries.
        ids: Ids,
    },
    /// Removes all ready messages.
    Purge {
        /// The command's stamp.
        stamp: Stamp,
    },
    /// Ends a session: its consumers go, and their deliveries are returned.
    Down {
        /// The session, of class `CLIENT` or `WORKER`.
        session: SessionId,
    },
    /// Attaches the dead-letter worker of a term.
    DeadAttach {
        /// The worker's term.
        term: Term,
    },
    /// Settles dead letters that their targets have confirmed.
    DeadSettle {
        /// The worker's term.
        term: Term,
        /// The dead letters.
        done: DeadDones,
    },
}

/// An entry of a queue's log.
#[derive(Debug, Drop, PartialEq)]
pub struct Entry {
    /// The term of the leader that took it.
    pub term: Term,
    /// The leader's time, in milliseconds.
    pub time: u64,
    /// What the queue is to do, shared by all copies.
    pub command: Shared<Command>,
}

/// Entries in the order of a log.
pub type Entries = Items<Entry>;

/// A client's command before its session stamps it, with the fields of the command of its name.
#[derive(Debug, Drop, PartialEq)]
pub enum Unstamped {
    /// Publishes a message.
    Enqueue {
        /// Where a dead letter comes from.
        origin: Option<Origin>,
        /// The message, with its content.
        message: Message,
    },
    /// Takes the next message, settled at once.
    Get,
    /// Adds a consumer.
    Subscribe {
        /// The new consumer's tag, from 1.
        tag: u32,
        /// How it gets deliveries.
        mode: Mode,
    },
    /// Cancels a consumer.
    Cancel {
        /// The consumer's tag.
        tag: u32,
    },
    /// Sets a consumer's link credit.
    Credit {
        /// The consumer's tag.
        tag: u32,
        /// How many deliveries the consumer has had so far.
        count: u32,
        /// How many it may have beyond these.
        credit: u32,
        /// Whether credit that no message meets is used up at once.
        drain: bool,
    },
    /// Settles deliveries.
    Settle {
        /// The consumer's tag.
        tag: u32,
        /// Of the deliveries.
        ids: Ids,
    },
    /// Returns deliveries to the queue.
    Return {
        /// The consumer's tag.
        tag: u32,
        /// Of the deliveries.
        ids: Ids,
    },
    /// Discards deliveries.
    Discard {
        /// The consumer's tag.
        tag: u32,
        /// Of the deliveries.
        ids: Ids,
    },
    /// Removes all ready messages.
    Purge,
}

impl Stamp {
    ghost use Rattle.std.specs.Prelude.{◌≡◌};
    ghost use Rattle.qq_entry.specs.Command.{consumer_id};

    /// The consumer of the stamp's session with this tag.
    pub fn consumer_id(self, tag: u32) -> ConsumerId
        ensures { result ≡ consumer_id self tag }
    {
        ConsumerId {
            session: self.session,
            tag,
        }
    }
}

impl Command {
    ghost use Rattle.std.specs.Prelude.{◌≡◌};
    ghost use Rattle.qq_entry.specs.Command.{seq_of, session, stamp, tag};

    /// The stamp of a command that goes through the session gate.
    pub fn stamp(&self) -> Option<Stamp>
        ensures { result ≡ stamp self.now }
    {
        match self {
            Command::Enqueue { stamp, .. }
            | Command::Get { stamp }
            | Command::Subscribe { stamp, .. }
            | Command::Cancel { stamp, .. }
            | Command::Credit { stamp, .. }
            | Command::Settle { stamp, .. }
            | Command::Return { stamp, .. }
            | Command::Discard { stamp, .. }
            | Command::Purge { stamp } => Some(*stamp),
            _ => None,
        }
    }

    /// The number of a command with a stamp, and 0 of any other.
    pub fn seq_of(&self) -> u64
        ensures { result ≡ seq_of self.now }
    {
        match self.stamp() {
            None => 0,
            Some(stamp) => stamp.seq,
        }
    }

    /// The session that gave the command.
    pub fn session(&self) -> Option<SessionId>
        ensures { result ≡ session self.now }
    {
        match self {
            Command::Down { session } => Some(*session),
            _ => self.stamp().map(|stamp| stamp.session),
        }
    }

    /// The tag of the consumer that the command is about.
    pub fn tag(&self) -> Option<u32>
        ensures { result ≡ tag self.now }
    {
        match self {
            Command::Subscribe { tag, .. }
            | Command::Cancel { tag, .. }
            | Command::Credit { tag, .. }
            | Command::Settle { tag, .. }
            | Command::Return { tag, .. }
            | Command::Discard { tag, .. } => Some(*tag),
            _ => None,
        }
    }
}

impl Duplicate for DeadDone {
    fn copy(&self, alloc: Global) -> Result<Self, Memory> {
        Ok(copy_struct!(self, alloc, DeadDone { number; targets }))
    }
}

impl Duplicate for Command {
    fn copy(&self, alloc: Global) -> Result<Self, Memory> {
        Ok(copy_enum!(self, alloc, Command {
            Noop { version; },
            Enqueue { stamp, origin; message },
            Get { stamp; },
            Subscribe { stamp, tag, mode; },
            Cancel { stamp, tag; },
            Credit { stamp, tag, count, credit, drain; },
            Settle { stamp, tag; ids },
            Return { stamp, tag; ids },
            Discard { stamp, tag; ids },
            Purge { stamp; },
            Down { session; },
            DeadAttach { term; },
            DeadSettle { term; done },
        }))
    }
}

impl Duplicate for Entry {
    fn copy(&self, alloc: Global) -> Result<Self, Memory> {
        Ok(copy_struct!(self, alloc, Entry { term, time; command }))
    }
}

impl Duplicate for Unstamped {
    fn copy(&self, alloc: Global) -> Result<Self, Memory> {
        Ok(copy_enum!(self, alloc, Unstamped {
            Enqueue { origin; message },
            Get { ; },
            Subscribe { tag, mode; },
            Cancel { tag; },
            Credit { tag, count, credit, drain; },
            Settle { tag; ids },
            Return { tag; ids },
            Discard { tag; ids },
            Purge { ; },
        }))
    }
}
