//! A queue in parts: what a machine that keeps separate lists of its live messages reads of them is what
//! the definition reads of all rows. Definitions and laws; no code.
ghost use Rattle.std.specs.Prelude.{◌≡◌, ℕ, true, List, Some, Contains, map};
ghost use Rattle.std.specs.Option.{option_map};
ghost use Rattle.qq_model.specs.Choice.{next_consumer};
ghost use Rattle.qq_base.specs.declared.ids.ConsumerId.{ConsumerId};
ghost use Rattle.qq_model.specs.declared.consumer.Consumer.{Consumer};
ghost use Rattle.qq_model.specs.State.{State};
ghost use Rattle.qq_parts.specs.Reduced.{Item};
ghost use Rattle.qq_parts.specs.Parts.{Served, Parts, Stands, StandsWith, IsWhole, consumer_at};
ghost use Rattle.qq_parts.specs.Reads.{Reads};
ghost use Rattle.qq_parts.specs.Changes.{Taken, take_first, IsTaken, MayLeave, MayArrive};
ghost use Rattle.qq_parts.specs.Turns.{AreWaiting, AreInTurn, active_one};
ghost use Rattle.qq_parts.specs.Letters.{TellsDead};
ghost use Rattle.qq_parts.specs.Consumers.{ConsumersChange};
ghost use Rattle.qq_parts.specs.Rounds.{Serving, IsServing, serve_all};
ghost use Rattle.qq_model.specs.Changes.{Progress};
ghost use Rattle.qq_model.specs.Serving.{check_out_all};
ghost use Rattle.qq_parts.specs.Outs.{MayEnd, MayDeliver, MayJoin, MayPurge};

/// A law: where parts stand for a state, the next message is the first of the ready ones, the definition's
/// counts are the lengths of the lists, and each item has its row's message.
pub fn parts_tell_the_queue()
    ensures { (m : Parts) (s : State) → Stands m s → IsWhole m → Reads m s }
{}

/// A law: where parts stand for a state, a new message at their back stands for the one that arrives. The
/// first ready message may be taken out of them; and where a state stands for parts and one message more,
/// the parts stand for it once that message is gone, and with it where it died or goes back, by each
/// dead-letter strategy and with and without a delivery limit.
pub fn messages_come_and_go()
    ensures arrives { (m : Parts) (s : State) → Stands m s → IsWhole m → MayArrive m s }
    ensures taken { (m : Parts) (s : State) (taken : Taken) → Stands m s → IsWhole m →
        take_first m ≡ Some taken → IsTaken taken m s }
    ensures leaves { (x : Item) (m : Parts) (s : State) → StandsWith x m s → IsWhole m
        → MayLeave x m s }
{}

/// A law: the delivery of an id to a consumer is that of the consumer's own list, and once it is taken out
/// of there it is one more than what is left, as the first ready message is: it may be settled, go back,
/// or die.
pub fn deliveries_end()
    ensures { (consumer : ConsumerId) (id : ℕ) (m : Parts) (s : State) → Stands m s → IsWhole m →
        MayEnd consumer id m s }
{}

/// A law: a message that was taken out may be delivered to any consumer that is there; it is then out with
/// it alone, and the next of its ids is the next one. A consumer of an id that is free may join. All that
/// is ready may be purged.
pub fn consumers_are_served()
    ensures delivers { (x : Item) (consumer : Consumer) (m : Parts) (s : State) → StandsWith x m s →
        IsWhole m → Contains (map consumer_at m.served) consumer → MayDeliver x consumer m s }
    ensures joins { (m : Parts) (s : State) → Stands m s → IsWhole m → MayJoin m s }
    ensures purges { (m : Parts) (s : State) → Stands m s → IsWhole m → MayPurge m s }
{}

/// A law: the consumers that may be served, by turn, are a queue. The next consumer, without a single
/// active one, is the first of them, and once it was served it waits behind all others, if it may be served
/// again.
pub fn turns_are_a_queue()
    ensures { (m : Parts) (s : State) (waiting : List Served) → Stands m s → IsWhole m →
        AreWaiting m waiting → AreInTurn m s waiting }
{}

/// A law: what is asked of dead letters is asked of their list: the next one for the worker is the first
/// above what it was given, and the one of a number may be taken out.
pub fn parts_tell_dead_letters()
    ensures { (m : Parts) (s : State) → Stands m s → IsWhole m → TellsDead m s }
{}

/// A law: all checkouts of a queue without a single active consumer are made in its parts, round by round:
/// the first ready message goes to the first consumer that waits, which then waits behind all others. The
/// deliveries and their order are the definition's.
pub fn all_checkouts_are_made()
    ensures { (t : Serving) (p : Progress) → IsServing t p
        → IsServing (serve_all t) (check_out_all p) }
{}

/// A law: a consumer may be cancelled, get credit or a turn, or have its credit drained, and consumers that
/// have nothing out may leave, in the parts as in the queue.
pub fn consumers_change_and_leave()
    ensures { (m : Parts) (s : State) → Stands m s → IsWhole m → ConsumersChange m s }
{}

/// A law: with a single active consumer the next one is the longest joined of those that aren't cancelled,
/// if it may be served.
pub fn the_active_consumer_is_the_first()
    ensures { (m : Parts) (s : State) → Stands m s → IsWhole m →
        next_consumer true s.rows s.consumers ≡ option_map consumer_at (active_one m.served) }
{}
