//! Laws of consumers.

ghost use Rattle.std.specs.Prelude.{List};
ghost use Rattle.qq_base.specs.declared.ids.Index.{Index};
ghost use Rattle.qq_entry.specs.declared.queue.QueueArgs.{QueueArgs};
ghost use Rattle.qq_entry.specs.declared.command.Command.{Command};
ghost use Rattle.qq_entry.specs.declared.command.Entry.{Entry};
ghost use Rattle.qq_model.specs.declared.consumer.Consumer.{Consumer};
ghost use Rattle.qq_model.specs.declared.place.Row.{Row};
ghost use Rattle.qq_model.specs.State.{State};
ghost use Rattle.qq_model.specs.Changes.{Progress};
ghost use Rattle.qq_laws.specs.Always.{Always};
ghost use Rattle.qq_laws.specs.Ids.{CountsDeliveries};
ghost use Rattle.qq_laws.specs.Kept.{NobodyWaits};
ghost use Rattle.qq_laws.specs.Credit.{FillsPrefetch};
ghost use Rattle.qq_laws.specs.Served.{LeavesOut, ServesWhoWaits};
ghost use Rattle.qq_laws.specs.Turns.{ServesInTurn};
ghost use Rattle.qq_laws.specs.Active.{ServesActiveAlone, ServesOne};
ghost use Rattle.qq_laws.specs.Waiting.{ActiveDoesNotWait};
ghost use Rattle.qq_laws.specs.Delivering.{DeliversInTurn};
ghost use Rattle.qq_laws.specs.Order.{ActiveStays, FirstIsActive, GoOnInOrder, JoinLast};
ghost use Rattle.qq_laws.specs.Joining.{CancelsConsumer, Joins, OnlyJoin, RefusesAtLimits, StaysThere};

/// Under a single active consumer all that a command delivers goes to one: the longest joined consumer
/// that isn't cancelled, of the consumers as the command itself leaves them (RabbitMQ, "Single Active
/// Consumer").
pub fn the_active_consumer_is_served_alone()
    ensures { (s : State) (index : Index) (command : Command) → ServesActiveAlone s index command }
{}

/// The deliveries to a consumer have the ids 1, 2, 3 and so on, over all entries (AMQP 0-9-1, delivery
/// tags).
pub fn delivery_ids_count_by_one()
    ensures { (args : QueueArgs) (entries : List Entry) → CountsDeliveries args entries }
{}

/// What a consumer with a prefetch may still get, and what it hasn't settled, are its prefetch
/// together: it never has more (RabbitMQ, "Consumer Prefetch").
pub fn prefetch_is_kept()
    ensures { Always FillsPrefetch }
{}

/// Consumers are served in turn: of those that may be served the one that has waited the longest is
/// next (RabbitMQ, "Consumers").
pub fn consumers_are_served_in_turn()
    ensures { (rows : List Row) (consumers : List Consumer) → ServesInTurn rows consumers }
{}

/// Under a single active consumer all that an entry delivers goes to one consumer.
pub fn one_consumer_is_served_at_a_time()
    ensures { (s : State) (entry : Entry) → ServesOne s entry }
{}

/// Without a single active consumer nobody waits in vain: after each entry no message is ready while a
/// consumer may be served.
pub fn nobody_waits_in_vain()
    ensures { Always NobodyWaits }
{}

/// With a single active consumer it doesn't wait in vain: after each entry no message is ready while the
/// active consumer may be served (RabbitMQ, "Single Active Consumer").
pub fn the_active_consumer_never_waits_in_vain()
    ensures { Always ActiveDoesNotWait }
{}

/// Each message that an entry delivers is with that consumer after the entry, under the id of the
/// delivery, and was returned as often as the delivery says (AMQP 0-9-1, delivery tags).
pub fn deliveries_are_out()
    ensures { Always (λ s. (entry : Entry) → LeavesOut s entry) }
{}

/// A delivery goes only to a consumer that has joined, isn't cancelled and has free credit, under its
/// next id (RabbitMQ, "Consumer Prefetch"; AMQP 1.0, link credit).
pub fn deliveries_go_to_who_waits()
    ensures { (p next : Progress) → ServesWhoWaits p next }
{}

/// A subscribe that isn't refused has its consumer join, in its mode (AMQP 0-9-1, basic.consume).
pub fn consumers_join()
    ensures { Always (λ s. (entry : Entry) → Joins s entry) }
{}

/// A consumer stays, in its mode, until it is cancelled or its session ends.
pub fn consumers_stay()
    ensures { Always (λ s. (entry : Entry) → StaysThere s entry) }
{}

/// A cancel that isn't refused leaves no consumer of its id but cancelled ones (AMQP 0-9-1,
/// basic.cancel).
pub fn consumers_are_cancelled()
    ensures { (s : State) (entry : Entry) → CancelsConsumer s entry }
{}

/// A consumer is there by its subscribe alone, in the mode that it chose, and one that was cancelled
/// stays so.
pub fn consumers_come_by_subscribes()
    ensures { (s : State) (entry : Entry) → OnlyJoin s entry }
{}

/// A subscribe that is carried out is refused exactly where its tag isn't above all that its session
/// used, or where the queue has as many consumers as it may.
pub fn subscribes_are_refused_at_limits()
    ensures { (s : State) (entry : Entry) → RefusesAtLimits s entry }
{}

/// Each delivery takes the first message, to the consumer that has waited the longest of those that may
/// be served, or to the single active one, which then waits behind all others (RabbitMQ, "Consumers").
pub fn deliveries_are_made_in_turn()
    ensures { (p next : Progress) → DeliversInTurn p next }
{}

/// Over an entry consumers keep the order in which they joined, and one that joins stands last. So do those
/// that aren't cancelled, and none of them comes back.
pub fn consumers_keep_their_order()
    ensures all { (s : State) (entry : Entry) → JoinLast s entry }
    ensures going { (s : State) (entry : Entry) → GoOnInOrder s entry }
{}

/// The active consumer is the one that joined first of those that aren't cancelled. It stays the active one
/// until an entry cancels it or ends its session; then it is the one that joined next of those that stay
/// (RabbitMQ, "Single Active Consumer").
pub fn the_active_consumer_stays_until_it_ends()
    ensures first { (consumers : List Consumer) → FirstIsActive consumers }
    ensures stays { (s : State) (entry : Entry) → ActiveStays s entry }
{}
