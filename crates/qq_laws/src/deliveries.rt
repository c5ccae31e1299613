//! Laws of the ends of deliveries: settles, returns, discards and the ends of sessions.

ghost use Rattle.qq_entry.specs.declared.command.Entry.{Entry};
ghost use Rattle.qq_model.specs.State.{State};
ghost use Rattle.qq_laws.specs.Always.{Always};
ghost use Rattle.qq_laws.specs.Ended.{EndsDeliveries, EndsSessions, IsOutByDelivery, PassesOver};

/// A settle, return or discard of an id that is out with its consumer takes effect: nothing is out with
/// the consumer under that id any more. Settled, the message is gone; discarded, it died; returned, it
/// counts one return more, and died where that passed the delivery limit. Else it is ready, behind all
/// that were returned before and under a delivery limit before all others, or was delivered anew, or
/// dropped at the head of the queue (RabbitMQ, "Consumer Acknowledgements").
pub fn settles_take_effect()
    ensures { Always (λ s. (entry : Entry) → EndsDeliveries s entry) }
{}

/// An id that isn't out with the consumer is passed over: a settle, return or discard does and answers
/// the same without it.
pub fn unknown_ids_are_passed_over()
    ensures { (s : State) → PassesOver s }
{}

/// After a session's end none of its consumers is there, nothing is out with one of them, and what was
/// has been returned (RabbitMQ, "Consumer Acknowledgements", automatic requeueing).
pub fn sessions_end_with_their_deliveries()
    ensures { Always (λ s. (entry : Entry) → EndsSessions s entry) }
{}

/// What is out with a consumer after an entry was out with it before, or the entry delivers it.
pub fn what_is_out_was_delivered()
    ensures { (s : State) (entry : Entry) → IsOutByDelivery s entry }
{}
