use qq_base::{NodeId, Term};

/// What each message says of its way.
#[derive(Clone, Copy, Debug, PartialEq, Eq)]
pub struct Envelope {
    /// The server that sends it.
    pub from: NodeId,
    /// The server that it is for.
    pub to: NodeId,
    /// The sender's term.
    pub term: Term,
}
