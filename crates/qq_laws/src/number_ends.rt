//! How far the numbers of a queue are from their ends: where six counters are, all numbers are. Laws; no
//! code.
ghost use Rattle.std.specs.Prelude.{◌≡◌, true};
ghost use Rattle.qq_entry.specs.declared.command.Entry.{Entry};
ghost use Rattle.qq_entry.specs.declared.queue.QueueArgs.{QueueArgs};
ghost use Rattle.qq_entry.specs.Range.{IsInRange};
ghost use Rattle.qq_model.specs.State.{State, empty_queue, is_within_ends};
ghost use Rattle.qq_model.specs.Audit.{next_step};
ghost use Rattle.qq_laws.specs.Far.{IsReached, are_far};

/// Half of what a counter may count: its other half is more than all that hangs on the counters.
pub const HALFWAY: u64 = 1 << 62;

/// A law: a queue that is reached from the new one by entries in range has no number past its end, where
/// its counters are at most `HALFWAY`: a message is counted once for each place that was given, a consumer
/// has an id for each turn and at most 2^33 deliveries that link credit counts, and a session a number for
/// each entry.
pub fn numbers_follow_their_counters()
    ensures { (s : State) → IsReached s → are_far s ≡ true →
        is_within_ends s ≡ true }
{}

/// A law: the new queue is reached, and so is what an entry in range makes of one that is.
pub fn queues_are_reached_by_entries()
    ensures new { (args : QueueArgs) → IsReached (empty_queue args) }
    ensures next { (s : State) (entry : Entry) → IsReached s → IsInRange entry →
        IsReached (next_step s entry).state }
{}
