use qq_base::{ConsumerId, Index};
use qq_entry::Reason;

/// Where a ready message stands in the queue. Every `Front` comes before every `Back`, and of two of
/// one kind the lesser number comes first.
#[derive(Clone, Copy, Debug, PartialEq, Eq)]
pub enum Key {
    /// Returned under a delivery limit, with its place in the order of such returns.
    Front(u64),
    /// Published, or returned where there is no delivery limit, with its place in that order.
    Back(u64),
}

/// Why a message left the queue.
#[derive(Clone, Copy, Debug, PartialEq, Eq)]
pub enum GoneReason {
    /// A get took it.
    Got,
    /// Its consumer settled it.
    Settled,
    /// The queue was purged.
    Purged,
    /// It died, and the queue doesn't keep its dead.
    Died(Reason),
    /// Its dead-letter targets have confirmed it.
    DeadLettered,
}

/// Where a message is.
#[derive(Clone, Copy, Debug, PartialEq, Eq)]
pub enum Place {
    /// In the queue.
    Ready(Key),
    /// With a consumer, as the delivery of this id, not settled yet.
    Out(ConsumerId, u64),
    /// Dead, with its number among the dead, until its dead-letter targets have confirmed it.
    Dead(u64, Reason),
    /// Gone for good.
    Gone(GoneReason),
}

/// A message that was enqueued at some time, without its content.
#[derive(Clone, Copy, Debug, PartialEq, Eq)]
pub struct Row {
    /// Of the entry that brought it.
    pub index: Index,
    /// Its number among all messages of the queue, from 1.
    pub arrival: u64,
    /// How often it was returned, which counts against the delivery limit.
    pub count: u64,
    /// The size of its body, in bytes.
    pub size: u32,
    /// Where it is.
    pub place: Place,
}
