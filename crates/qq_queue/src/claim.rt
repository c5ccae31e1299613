//! What a verdict is for the session of its consumer.
use qq_entry::Unstamped;

/// A command that a session is to give.
#[derive(Drop)]
pub struct Claim {
    /// The session's number, from 1.
    pub session: u64,
    pub body: Unstamped,
}
