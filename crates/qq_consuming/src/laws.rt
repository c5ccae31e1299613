//! Laws of a consumer's deliveries, over any list of arrivals and asks. Each is the contract of a function with
//! no parameters.
ghost use Rattle.std.specs.Prelude.{◌≡◌, ℕ, ◌<◌, ◌≤◌, ◌+◌, List, All, Contains, Some, false, true, is_some, length, nat_eq, slice_get};
ghost use Rattle.std.specs.List.{list_any};
ghost use Rattle.qq_base.specs.Fronts.{IsFront};
ghost use Rattle.qq_base.specs.declared.ids.ConsumerId.{ConsumerId};
ghost use Rattle.qq_entry.specs.declared.answer.Delivery.{Delivery};
ghost use Rattle.qq_entry.specs.declared.command.Entry.{Entry};
ghost use Rattle.qq_entry.specs.declared.queue.QueueArgs.{QueueArgs};
ghost use Rattle.qq_model.specs.Audit.{deliveries};
ghost use Rattle.qq_model.specs.Gate.{IsNumbered};
ghost use Rattle.qq_model.specs.State.{empty_queue};
ghost use Rattle.qq_laws.specs.Always.{queue_after, queue_audit};
ghost use Rattle.qq_consuming.specs.Consuming.{has_arrived, ids_of, missing, new_consumer, next_delivery, was_handed_out};
ghost use Rattle.qq_consuming.specs.Arrivals.{Deed, after_deeds, arrivals, handed};
ghost use Rattle.qq_consuming.specs.Fetched.{IsOutWith, out_from};

use qq_laws::{delivery_ids_count_by_one, what_is_out_was_delivered};
use qq_model::queues_are_sound;

/// An id has arrived exactly where a delivery of it was among the arrivals.
pub fn arrivals_are_remembered()
    ensures { (consumer : ConsumerId) (deeds : List Deed) (id : ℕ) → 0 < id →
        has_arrived id (after_deeds deeds (new_consumer consumer))
        ≡ list_any (nat_eq id) (ids_of (arrivals deeds)) }
{}

/// What is handed out is of the arrivals, and has the ids 1, 2, 3 and so on: each delivery once, and none before
/// those below it.
pub fn deliveries_are_handed_out_in_order()
    ensures ids { (consumer : ConsumerId) (deeds : List Deed) (k : ℕ) (delivery : Delivery) →
        slice_get (handed (new_consumer consumer) deeds) k ≡ Some delivery → delivery.id ≡ k + 1 }
    ensures arrived { (consumer : ConsumerId) (deeds : List Deed) →
        All (Contains (arrivals deeds)) (handed (new_consumer consumer) deeds) }
{}

/// The next delivery is there exactly where it is among the arrivals.
pub fn the_next_delivery_is_there_once_it_arrives()
    ensures { (consumer : ConsumerId) (deeds : List Deed) →
        is_some (next_delivery (after_deeds deeds (new_consumer consumer)))
        ≡ list_any (nat_eq (length (handed (new_consumer consumer) deeds) + 1))
        (ids_of (arrivals deeds)) }
{}

/// The id that is missing isn't among the arrivals, and all below it are.
pub fn the_least_id_is_missing()
    ensures missing { (consumer : ConsumerId) (deeds : List Deed) →
        list_any (nat_eq (missing (after_deeds deeds (new_consumer consumer))))
        (ids_of (arrivals deeds)) ≡ false }
    ensures least { (consumer : ConsumerId) (deeds : List Deed) (id : ℕ) → 0 < id →
        id < missing (after_deeds deeds (new_consumer consumer)) →
        list_any (nat_eq id) (ids_of (arrivals deeds)) ≡ true }
{}

/// An id may be claimed exactly where a delivery of it was handed out.
pub fn claims_are_of_what_was_handed_out()
    ensures { (consumer : ConsumerId) (deeds : List Deed) (id : ℕ) →
        was_handed_out id (after_deeds deeds (new_consumer consumer))
        ≡ list_any (nat_eq id) (ids_of (handed (new_consumer consumer) deeds)) }
{}

/// Whatever is lost on the way, comes again or comes out of order: where each arrival is of the consumer's
/// deliveries over the whole audit of its queue, what is handed out is a front of them.
pub fn consumers_are_handed_their_deliveries()
    ensures { (args : QueueArgs) (entries : List Entry) (consumer : ConsumerId)
        (deeds : List Deed) → IsNumbered consumer.session →
        All (Contains (deliveries (empty_queue args) (queue_audit args entries) consumer))
        (arrivals deeds) →
        IsFront (handed (new_consumer consumer) deeds)
        (deliveries (empty_queue args) (queue_audit args entries) consumer) }
{
    delivery_ids_count_by_one();
}

/// What is out with a consumer, shown as it is now, is of its deliveries over the whole audit, as it was then: so
/// a client that was cut off may be shown it again.
pub fn what_is_out_was_delivered_as_it_is()
    ensures { (args : QueueArgs) (entries : List Entry) (consumer : ConsumerId)
        (delivery : Delivery) → IsOutWith (queue_after args entries) consumer delivery →
        Contains (deliveries (empty_queue args) (queue_audit args entries) consumer) delivery }
{
    what_is_out_was_delivered();
}

/// Whatever is out with a consumer, from an id on, is fetched: a client that asks from there on is shown all of it.
pub fn what_is_out_is_fetched()
    ensures { (args : QueueArgs) (entries : List Entry) (consumer : ConsumerId)
        (delivery : Delivery) (from : ℕ) → IsNumbered consumer.session → from ≤ delivery.id →
        IsOutWith (queue_after args entries) consumer delivery →
        Contains (out_from (queue_after args entries) consumer from) delivery }
{
    queues_are_sound();
}
