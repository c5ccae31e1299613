//! Laws of the messages of a queue.

ghost use Rattle.std.specs.Prelude.{List, IfSome};
ghost use Rattle.qq_entry.specs.declared.queue.QueueArgs.{QueueArgs};
ghost use Rattle.qq_entry.specs.declared.command.Entry.{Entry};
ghost use Rattle.qq_model.specs.declared.place.Row.{Row};
ghost use Rattle.qq_model.specs.State.{State};
ghost use Rattle.qq_model.specs.Choice.{next_message};
ghost use Rattle.qq_model.specs.Audit.{next_step, state_after};
ghost use Rattle.qq_laws.specs.Always.{Always};
ghost use Rattle.qq_laws.specs.Published.{EffectsShow, FreshAnswerShows, KeepsPublishes};
ghost use Rattle.qq_laws.specs.Rows.{AddsUp, IsGoneForAReason, IsInOrder, LastsIn, StepsRows};
ghost use Rattle.qq_laws.specs.Kept.{IsWithinLimits, RejectsAtLimit};
ghost use Rattle.qq_laws.specs.Taken.{PurgesReady, StaysOut, TakesFirst};
ghost use Rattle.qq_laws.specs.Turns.{IsFirstMessage};

/// The ready messages, those with consumers, the dead and the gone add up to all that ever arrived
/// (RabbitMQ, "Queue Metrics": ready, unacknowledged).
pub fn messages_add_up()
    ensures { Always AddsUp }
{}

/// Messages stand in the order in which they were published (RabbitMQ, "Message Ordering"), and are
/// counted from 1 as they arrive.
pub fn messages_are_in_order()
    ensures { Always IsInOrder }
{}

/// Whatever comes later, each message keeps its place among all, its index, its arrival and its size,
/// and one that is gone never comes back.
pub fn messages_last()
    ensures { Always (λ s. (entries : List Entry) → LastsIn s.rows (state_after s entries).rows) }
{}

/// An entry leaves each message where it is, or moves it as its command may, and a message that it
/// brings is the last one.
pub fn entries_move_messages()
    ensures { Always (λ s. (entry : Entry) → StepsRows s entry (next_step s entry)) }
{}

/// A message that is gone after an entry was gone before it, or the entry's command is of a kind that
/// goes with the reason: a get, a settle, a purge, or the settlement of a dead letter; or, where the
/// queue keeps no dead, a discard, a return or the end of a session for the delivery limit, or any
/// command in a queue that drops at its head.
pub fn messages_are_gone_for_a_reason()
    ensures { Always (λ s. (entry : Entry) → IsGoneForAReason s entry) }
{}

/// A queue has one message for each publish that was confirmed, in order (RabbitMQ, "Publisher
/// Confirms").
pub fn publishes_are_kept()
    ensures { (args : QueueArgs) (entries : List Entry) → KeepsPublishes args entries }
{}

/// Each delivery shows a confirmed publish, the one of its arrival, with its index and its message, and
/// each dead letter is the message of a confirmed publish.
pub fn deliveries_show_publishes()
    ensures { (args : QueueArgs) (before : List Entry) (entry : Entry) →
        EffectsShow args before entry }
{}

/// The message that a get is answered, when it is carried out, is that of the confirmed publish of its
/// arrival, with its index.
pub fn gets_show_publishes()
    ensures { (args : QueueArgs) (before : List Entry) (entry : Entry) →
        FreshAnswerShows args before entry }
{}

/// The next message is a ready one before which no other comes: those that were returned under a
/// delivery limit first, then in the order in which they were published or returned.
pub fn the_first_message_is_next()
    ensures { (rows : List Row) → IfSome (next_message rows) (IsFirstMessage rows) }
{}

/// What is with a consumer stays with it, as it is, until a settle, return or discard of its id for that
/// consumer, or the end of the consumer's session (RabbitMQ, "Consumer Acknowledgements").
pub fn deliveries_stay_out()
    ensures { Always (λ s. (entry : Entry) → StaysOut s entry) }
{}

/// A get that is carried out answers that the queue is empty only where no message is ready; else it
/// takes the first message, answers it, and the message is gone (AMQP 0-9-1, basic.get).
pub fn gets_take_the_first_message()
    ensures { Always (λ s. (entry : Entry) → TakesFirst s entry) }
{}

/// A purge that is carried out answers how many messages were ready, and each of them is gone (AMQP
/// 0-9-1, queue.purge).
pub fn purges_take_the_ready()
    ensures { Always (λ s. (entry : Entry) → PurgesReady s entry) }
{}

/// After each entry a queue that drops at its head is within both its limits (RabbitMQ, "Queue Length
/// Limit").
pub fn limits_are_kept()
    ensures { Always IsWithinLimits }
{}

/// A publish is rejected exactly where a queue that rejects publishes has reached a limit, or where any
/// queue holds as many messages as it may.
pub fn publishes_are_rejected_at_limits()
    ensures { (s : State) (entry : Entry) → RejectsAtLimit s entry }
{}
