use qq_base::{Bytes, NodeId, QueueId, SessionId, Text};
use qq_disk::Image;
use qq_entry::Unstamped;

/// The most bytes of a line, without its line feed.
pub const LINE_LIMIT: usize = 70_000;

/// The nodes that a line is about.
#[derive(Clone, Copy)]
pub enum Nodes {
    /// `N`: this one.
    One(NodeId),
    /// `all` of them.
    All,
}

/// Where a line stands.
#[derive(Clone, Copy)]
pub struct Place {
    /// Its number in the script, from 1.
    pub number: u64,
    /// Whether clients' sections run side by side.
    pub run: bool,
    /// The client's section, from 1. None above all sections.
    pub section: Option<u32>,
}

/// A line of a script. A session stands for a client, and each node and queue that is named is there.
#[derive(Drop)]
pub enum ScriptLine {
    /// An empty line, or a comment: `;` and any text.
    Nothing,
    /// `publish BODY`: a message of session 1 to the first queue. Its body may be any bytes.
    ///
    /// A body is the rest of the line. `=` and one to seven digits alone stand for so many letters `x`, and a
    /// body that begins with `==` loses one `=`.
    Publish {
        body: Bytes,
    },
    /// `send S X K BODY`: a message to an exchange, `-` for the default one, with a key, `-` for the empty one.
    Send {
        session: SessionId,
        exchange: Text,
        key: Text,
        body: Bytes,
    },
    /// A client's command at a queue:
    ///
    /// - `get S Q`: the next message. `get` alone is of session 1 and the first queue.
    /// - `subscribe S Q T P`: a new consumer that gets so many messages ahead.
    /// - `link S Q T`: a new consumer that gets messages by the credit that it gives.
    /// - `credit S Q T COUNT CREDIT drain`, or `keep` as its last word: a consumer's link credit, how many
    ///   deliveries it has had so far and how many it may have beyond these, and whether credit that no message
    ///   meets is used up at once.
    /// - `settle S Q T IDS`: deliveries are done with.
    /// - `return S Q T IDS`: deliveries go back to the queue.
    /// - `discard S Q T IDS`: deliveries are dead-lettered.
    /// - `cancel S Q T`: a consumer gets no more.
    /// - `purge S Q`: all ready messages go.
    Client {
        session: SessionId,
        queue: QueueId,
        body: Unstamped,
    },
    /// `attach S Q T K`: a consumer gets the taker of this number, from 1. Whether that is there the broker knows.
    Attach {
        session: SessionId,
        queue: QueueId,
        tag: u32,
        taker: u32,
    },
    /// `end S`: the session ends at each queue.
    End {
        session: SessionId,
    },
    /// `resend S`: each command that isn't answered is sent again.
    Resend {
        session: SessionId,
    },
    /// `mute S`: from here on answers and deliveries are lost. `unmute S`: they come again.
    Mute {
        session: SessionId,
        muted: bool,
    },
    /// `manual`: only the lines below make anything happen. `auto`: after each client's line all that waits is
    /// done.
    Pace {
        auto: bool,
    },
    /// `pump`: all that waits is done.
    Pump,
    /// `write N`: what waits at a node is appended to its log.
    Write {
        node: NodeId,
    },
    /// `sync N`: a node's log is synced.
    Sync {
        node: NodeId,
    },
    /// `notice N Q`: a queue's server learns what its node's log has synced.
    Notice {
        node: NodeId,
        queue: QueueId,
    },
    /// `tick N Q`: a queue's server has waited for its leader.
    Tick {
        node: NodeId,
        queue: QueueId,
    },
    /// `deliver Q K`: the message at a place of those on their way between a queue's servers, the first one's is
    /// 1, reaches its receiver.
    Deliver {
        queue: QueueId,
        message: u32,
    },
    /// `lose Q K`: it is lost.
    Lose {
        queue: QueueId,
        message: u32,
    },
    /// `copy Q K`: it is on its way twice.
    Copy {
        queue: QueueId,
        message: u32,
    },
    /// `crash N IMAGE`: a node stops, and so much is left of its disk.
    Crash {
        nodes: Nodes,
        image: Image,
    },
    /// `restart N`: a node that stopped recovers.
    Restart {
        nodes: Nodes,
    },
    /// `show Q`: the servers of a queue.
    Show {
        queue: QueueId,
    },
}
