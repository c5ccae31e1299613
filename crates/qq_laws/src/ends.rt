//! Laws of how messages end: why, and how often they were returned.

ghost use Rattle.std.specs.Prelude.{List};
ghost use Rattle.qq_entry.specs.declared.command.Entry.{Entry};
ghost use Rattle.qq_entry.specs.declared.queue.QueueArgs.{QueueArgs};
ghost use Rattle.qq_model.specs.State.{State};
ghost use Rattle.qq_laws.specs.Always.{Always};
ghost use Rattle.qq_laws.specs.Counts.{
  CountsReturns,
  HasCountedReturns,
  KeepsDeliveryLimit,
  ShowsReturns,
};
ghost use Rattle.qq_laws.specs.Explains.{MovesForReasons};
ghost use Rattle.qq_laws.specs.Rejected.{NamesLimit};

/// What an entry does to each message, and why. Its command leaves the message, takes it by a get or a
/// purge, ends the delivery that it names, or settles the dead letter that it names. Then a message of the
/// queue may be delivered. Then it dies under `drop-head` exactly where the queue without the messages
/// before it is past a limit (RabbitMQ, "Queue Length Limit", "Consumer Acknowledgements", "Poison Message
/// Handling").
pub fn messages_move_for_reasons()
    ensures { Always (λ s. (entry : Entry) → MovesForReasons s entry) }
{}

/// A rejection names the first limit that the publish meets: the length or the bytes of a queue that rejects
/// publishes, or the number of messages that any queue may hold (RabbitMQ, "Queue Length Limit").
pub fn rejections_name_the_limit()
    ensures { (s : State) (entry : Entry) → NamesLimit s entry }
{}

/// An entry raises the count of each message that it returns by one, and of no other: of one that is with
/// the consumer of a returned id, or with a consumer of a session that ends. A message that arrives was
/// never returned (RabbitMQ, "Poison Message Handling").
pub fn returns_are_counted()
    ensures { Always (λ s. (entry : Entry) → CountsReturns s entry) }
{}

/// A message dies of the delivery limit exactly at the return that makes its count greater than the limit,
/// and never in a queue that has none (RabbitMQ, "Poison Message Handling").
pub fn the_delivery_limit_is_exact()
    ensures { Always (λ s. (entry : Entry) → KeepsDeliveryLimit s entry) }
{}

/// Over all entries the count of a message, which each of its deliveries shows, is how often it was returned,
/// where all but publishes are of clients and of workers that dead-letter at least once (RabbitMQ, "Poison
/// Message Handling").
pub fn deliveries_count_returns()
    ensures kept { (args : QueueArgs) (entries : List Entry) → HasCountedReturns args entries }
    ensures shown { (args : QueueArgs) (before : List Entry) (entry : Entry) →
        ShowsReturns args before entry }
{}
