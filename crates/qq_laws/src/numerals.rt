//! Laws in numerals: short runs and single steps written out, so that none of the definitions that all other laws
//! cite can mean something else.

ghost use Rattle.std.specs.Prelude.{◌≡◌, ◌≤◌, ◌<◌, ◌+◌, ◌-◌, ℕ, List, [], ◌∷◌, None, Some, true};
ghost use Rattle.qq_entry.specs.declared.answer.Answer.TheVariants as answer;
ghost use Rattle.qq_entry.specs.declared.answer.Full.TheVariants.{Length, ByteLength, Live};
ghost use Rattle.qq_entry.specs.declared.command.Stamp.{Stamp};
ghost use Rattle.qq_entry.specs.declared.command.Mode.TheVariants.{Prefetch};
ghost use Rattle.qq_entry.specs.declared.message.Reason.TheVariants as reason;
ghost use Rattle.qq_entry.specs.declared.queue.Overflow.TheVariants.{RejectPublish};
ghost use Rattle.qq_entry.specs.declared.queue.Strategy.TheVariants.{AtMostOnce};
ghost use Rattle.qq_model.specs.declared.consumer.Consumer.{Consumer};
ghost use Rattle.qq_model.specs.declared.place.Row.{Row};
ghost use Rattle.qq_model.specs.declared.session.Gate.TheVariants.{Fresh, Forgotten, Gap, WindowFull};
ghost use Rattle.qq_model.specs.Changes.{Progress};
ghost use Rattle.qq_model.specs.Choice.{free_credit, out_count};
ghost use Rattle.qq_model.specs.Gate.{gate, is_ended, turn_away};
ghost use Rattle.qq_model.specs.Serving.{keep_limits};
ghost use Rattle.qq_model.specs.State.{Sessions};
ghost use Rattle.qq_laws.specs.Numerals.{after, alone, answers, arrivals, by_client, deliveries, discard, give_back, leave, letter, letters, plain, publish, shown, subscribe};

/// With a delivery limit a message that was returned is served before one that wasn't. Without one it goes
/// to the back.
pub fn returned_messages_come_first()
    ensures limited { deliveries plain
        (subscribe 2 1 1 ∷ publish 1 1 ∷ publish 2 1 ∷ give_back 2 2 (1 ∷ []) ∷ [])
        ≡ shown 2 1 0 ∷ shown 2 1 1 ∷ [] }
    ensures unlimited { deliveries (record plain { delivery_limit = None })
        (subscribe 2 1 1 ∷ publish 1 1 ∷ publish 2 1 ∷ give_back 2 2 (1 ∷ []) ∷ [])
        ≡ shown 2 1 0 ∷ shown 2 2 0 ∷ [] }
{}

/// With a delivery limit of 2 the second return keeps a message, and the third removes it, for that reason.
/// Without a limit no return does (RabbitMQ, "Quorum Queues", "Poison Message Handling").
pub fn a_delivery_limit_of_two_allows_two_returns()
    ensures kept { deliveries (record plain { delivery_limit = Some 2 })
        (subscribe 2 1 1 ∷ publish 1 1 ∷ give_back 2 2 (1 ∷ []) ∷ give_back 2 3 (2 ∷ [])
        ∷ give_back 2 4 (3 ∷ []) ∷ [])
        ≡ shown 2 1 0 ∷ shown 2 1 1 ∷ shown 2 1 2 ∷ [] }
    ensures removed { letters (record plain { delivery_limit = Some 2; strategy = AtMostOnce })
        (subscribe 2 1 1 ∷ publish 1 7 ∷ give_back 2 2 (1 ∷ []) ∷ give_back 2 3 (2 ∷ [])
        ∷ give_back 2 4 (3 ∷ []) ∷ [])
        ≡ letter reason.DeliveryLimit 7 ∷ [] }
    ensures unlimited { deliveries (record plain { delivery_limit = None })
        (subscribe 2 1 1 ∷ publish 1 1 ∷ give_back 2 2 (1 ∷ []) ∷ give_back 2 3 (2 ∷ [])
        ∷ give_back 2 4 (3 ∷ []) ∷ [])
        ≡ shown 2 1 0 ∷ shown 2 1 1 ∷ shown 2 1 2 ∷ shown 2 1 3 ∷ [] }
{}

/// With `reject-publish` and a limit of 2 the third message is refused. With `drop-head` it is confirmed, and
/// the first one dies. At most 2 messages may be live where that is the limit, whatever the overflow
/// (RabbitMQ, "Queue Length Limit").
pub fn a_limit_of_two_is_met_by_the_third_message()
    ensures length { answers (record plain { overflow = RejectPublish; max_length = Some 2 })
        (publish 1 1 ∷ publish 2 1 ∷ publish 3 1 ∷ [])
        ≡ answer.Confirmed ∷ answer.Confirmed ∷ answer.Rejected Length ∷ [] }
    ensures bytes { answers (record plain { overflow = RejectPublish; max_bytes = Some 2 })
        (publish 1 1 ∷ publish 2 1 ∷ publish 3 1 ∷ [])
        ≡ answer.Confirmed ∷ answer.Confirmed ∷ answer.Rejected ByteLength ∷ [] }
    ensures live { answers (record plain { live = 2 })
        (publish 1 1 ∷ publish 2 1 ∷ publish 3 1 ∷ [])
        ≡ answer.Confirmed ∷ answer.Confirmed ∷ answer.Rejected Live ∷ [] }
    ensures live_of_all { answers (record plain { overflow = RejectPublish; live = 2 })
        (publish 1 1 ∷ publish 2 1 ∷ publish 3 1 ∷ [])
        ≡ answer.Confirmed ∷ answer.Confirmed ∷ answer.Rejected Live ∷ [] }
    ensures confirmed { answers (record plain { max_length = Some 2; max_bytes = Some 2 })
        (publish 1 1 ∷ publish 2 1 ∷ publish 3 1 ∷ [])
        ≡ answer.Confirmed ∷ answer.Confirmed ∷ answer.Confirmed ∷ [] }
    ensures head { letters (record plain { max_length = Some 2; strategy = AtMostOnce })
        (publish 1 5 ∷ publish 2 6 ∷ publish 3 7 ∷ [])
        ≡ letter reason.MaxLen 5 ∷ [] }
    ensures heads { letters (record plain { max_bytes = Some 12; strategy = AtMostOnce })
        (publish 1 5 ∷ publish 2 6 ∷ publish 3 7 ∷ [])
        ≡ letter reason.MaxLen 5 ∷ letter reason.MaxLen 6 ∷ [] }
{}

/// A queue without a limit of its length or bytes drops nothing, and one with `reject-publish` never does.
pub fn a_queue_without_limits_drops_nothing()
    ensures unlimited { (p : Progress) → p.state.args.max_length ≡ None
        → p.state.args.max_bytes ≡ None → keep_limits p ≡ p }
    ensures rejecting { (p : Progress) → p.state.args.overflow ≡ RejectPublish
        → keep_limits p ≡ p }
    ensures confirmed { answers (record plain { overflow = RejectPublish })
        (publish 1 1 ∷ publish 2 1 ∷ publish 3 1 ∷ [])
        ≡ answer.Confirmed ∷ answer.Confirmed ∷ answer.Confirmed ∷ [] }
{}

/// A prefetch of n allows n deliveries that aren't settled, and a prefetch of 0 allows 2,000.
pub fn a_prefetch_of_zero_is_two_thousand()
    ensures zero { (rows : List Row) (one : Consumer) → one.mode ≡ Prefetch 0
        → free_credit rows one ≡ 2000 - out_count one.id rows }
    ensures more { (rows : List Row) (one : Consumer) (n : ℕ) → one.mode ≡ Prefetch (n + 1)
        → free_credit rows one ≡ n + 1 - out_count one.id rows }
    ensures two { arrivals plain
        (subscribe 2 1 2 ∷ publish 1 1 ∷ publish 2 1 ∷ publish 3 1 ∷ [])
        ≡ 1 ∷ 2 ∷ [] }
{}

/// What one command ends, ends in the order of its ids: dead letters leave so, and what is returned is served
/// so. At the end of a session it ends in the order of the consumer's ids.
pub fn deliveries_end_in_the_order_of_ids()
    ensures letters { letters (record plain { strategy = AtMostOnce })
        (subscribe 2 1 2 ∷ publish 1 5 ∷ publish 2 6 ∷ discard 2 2 (2 ∷ 1 ∷ []) ∷ [])
        ≡ letter reason.Rejected 6 ∷ letter reason.Rejected 5 ∷ [] }
    ensures returned { arrivals plain
        (subscribe 2 1 2 ∷ publish 1 1 ∷ publish 2 1 ∷ give_back 2 2 (2 ∷ 1 ∷ []) ∷ [])
        ≡ 1 ∷ 2 ∷ 2 ∷ 1 ∷ [] }
    ensures ended { arrivals plain
        (subscribe 2 1 2 ∷ publish 1 1 ∷ publish 2 1 ∷ give_back 2 2 (1 ∷ []) ∷ leave 2
        ∷ subscribe 3 1 2 ∷ [])
        ≡ 1 ∷ 2 ∷ 1 ∷ 2 ∷ 1 ∷ [] }
{}

/// The numbers of a client's open session pass the gate in this order: one up to the low mark is forgotten; one
/// above the next is a gap that names the next, also where the window is full; the next is let in unless 256
/// numbers are open above the low mark. What a stamp says is answered raises the mark, to the last number
/// that was used at the most.
pub fn numbers_pass_the_gate_in_order()
    ensures forgotten { (mark next seq done : ℕ) → seq ≤ mark
        → gate (alone mark next) (by_client seq done) ≡ Forgotten }
    ensures gap { (mark next seq done : ℕ) → mark < next → next < seq
        → gate (alone mark next) (by_client seq done) ≡ Gap next }
    ensures full { (mark done : ℕ) → done ≤ mark
        → gate (alone mark (mark + 257)) (by_client (mark + 257) done) ≡ WindowFull }
    ensures fresh { (mark more done : ℕ) → more < 256 → done ≤ mark
        → gate (alone mark (mark + more + 1)) (by_client (mark + more + 1) done) ≡ Fresh }
    ensures answered { gate (alone 0 257) (by_client 257 1) ≡ Fresh }
    ensures opened { gate (alone 0 257) (by_client 256 256) ≡ Forgotten }
{}

/// A command that is turned away moves the low mark of its open session alone, to what its stamp says is
/// answered, below the next number; it moves none of a session that isn't known or has ended.
pub fn what_is_turned_away_moves_the_mark_alone()
    ensures raised { turn_away (alone 3 9) (by_client 20 5) ≡ alone 5 9 }
    ensures lower { turn_away (alone 3 9) (by_client 20 2) ≡ alone 3 9 }
    ensures most { turn_away (alone 3 9) (by_client 20 15) ≡ alone 8 9 }
    ensures unknown { (s : Sessions) (stamp : Stamp) → s.opened ≡ [] → turn_away s stamp ≡ s }
    ensures ended { (s : Sessions) (stamp : Stamp) → is_ended s stamp.session ≡ true
        → turn_away s stamp ≡ s }
{}

/// The end of a session that isn't known counts it as seen, and remembers it. A second end changes nothing.
pub fn an_unknown_end_counts_as_seen()
    ensures once { (after plain (leave 7 ∷ [])).sessions
        ≡ record { opened = []; ended = 7 ∷ []; workers = []; seen = 1 } }
    ensures twice { (after plain (leave 7 ∷ leave 7 ∷ [])).sessions
        ≡ record { opened = []; ended = 7 ∷ []; workers = []; seen = 1 } }
    ensures known { (after plain (publish 1 1 ∷ leave 1 ∷ [])).sessions
        ≡ record { opened = []; ended = 1 ∷ []; workers = []; seen = 1 } }
{}
