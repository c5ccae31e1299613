//! Laws of the messages that have died.

ghost use Rattle.std.specs.Prelude.{List};
ghost use Rattle.qq_entry.specs.declared.command.Entry.{Entry};
ghost use Rattle.qq_entry.specs.declared.queue.QueueArgs.{QueueArgs};
ghost use Rattle.qq_model.specs.State.{State};
ghost use Rattle.qq_laws.specs.Always.{Always};
ghost use Rattle.qq_laws.specs.DeadLetters.{
  CountsSettlements,
  IsDeadUntilSettled,
  IsGivenAll,
  KeepsDead,
  OffersInOrder,
  SendsDeadOnce,
  WorkersTakeOver,
};

/// A queue that dead-letters at most once sends, over all entries, one dead letter for each message that has
/// died: of that message, with that reason. A queue that doesn't sends none (RabbitMQ, "Dead Letter
/// Exchanges").
pub fn dead_letters_are_sent_once()
    ensures { (args : QueueArgs) (entries : List Entry) → SendsDeadOnce args entries }
{}

/// Only a queue that dead-letters at least once keeps its dead. A message that is dead stays so until the
/// worker that is attached, and that was given it, settles its number; then it is gone (RabbitMQ,
/// "At-Least-Once Dead Lettering").
pub fn the_dead_stay_until_settled()
    ensures kept { Always KeepsDead }
    ensures settled { Always (λ s. (entry : Entry) → IsDeadUntilSettled s entry) }
{}

/// The dead letters that an entry offers to the worker have rising numbers, above those that it was given
/// before, and none between is left out. Each is of a message that is dead under that number, with its
/// reason and its content. A worker that attaches begins anew (RabbitMQ, "At-Least-Once Dead Lettering").
pub fn dead_letters_are_offered_in_order()
    ensures { (s : State) (entry : Entry) → OffersInOrder s entry }
{}

/// A worker that is attached was given all that are dead, unless it has as many under way as it may
/// (RabbitMQ, "At-Least-Once Dead Lettering", the prefetch of the worker).
pub fn the_worker_is_given_the_dead()
    ensures { Always IsGivenAll }
{}

/// A settlement by the worker that is attached answers how many dead letters are gone by it; one of another
/// term, or in a queue that doesn't dead-letter at least once, is stale.
pub fn settlements_count_dead_letters()
    ensures { Always (λ s. (entry : Entry) → CountsSettlements s entry) }
{}

/// A queue's worker changes only where one of a greater term attaches, in a queue that dead-letters at least
/// once. Another attachment is stale.
pub fn workers_take_over_by_term()
    ensures { (s : State) (entry : Entry) → WorkersTakeOver s entry }
{}
