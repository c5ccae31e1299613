use qq_base::ConsumerId;
use qq_entry::Delivery;

/// A delivery that was handed out to a consumer.
#[derive(Drop)]
pub struct Handed {
    pub consumer: ConsumerId,
    pub delivery: Delivery,
}
