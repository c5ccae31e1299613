use crate::row::ConsumerRow;
use qq_model::Consumer;

/// A consumer with what is out with it, and the consumer as it was at the last commit.
#[derive(Drop)]
pub struct Seat {
    pub row: ConsumerRow,
    pub base: Consumer,
}
