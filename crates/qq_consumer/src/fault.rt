use qq_entry::Cause;
use thiserror::Error;

/// Why a consumer doesn't join.
#[derive(Clone, Copy, Debug, PartialEq, Eq, Error)]
pub enum SubscribeFault {
    /// The tag isn't above all that its session used.
    #[error("the tag was used")]
    NumberSpent,
    /// The queue has as many consumers as it may have.
    #[error("the queue has as many consumers as it may have")]
    ConsumersFull,
    /// Out of memory.
    #[error("out of memory")]
    Memory,
}

/// Why a consumer gets no credit.
#[derive(Clone, Copy, Debug, Error)]
pub enum CreditFault {
    /// A rule refuses it.
    #[error("refused")]
    Refused(Cause),
    /// Out of memory.
    #[error("out of memory")]
    Memory,
}
