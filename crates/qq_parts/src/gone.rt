//! A law of a queue: the messages that are gone play no part. A queue may be kept, restored from a
//! snapshot, or computed by a machine of parts, without them.
ghost use Rattle.std.specs.Prelude.{List};
ghost use Rattle.qq_entry.specs.declared.queue.QueueArgs.{QueueArgs};
ghost use Rattle.qq_entry.specs.declared.command.Entry.{Entry};
ghost use Rattle.qq_model.specs.State.{State, empty_queue};
ghost use Rattle.qq_model.specs.Audit.{state_after};
ghost use Rattle.qq_parts.specs.Reduced.{StepsAlike, GoesOnAlike};

/// A law: whatever entries a queue has applied, a step of the queue without the messages that are gone
/// counts as fresh, answers and has effects as one of the queue itself, and leaves the same queue but for
/// what is gone. So do all later ones.
pub fn gone_messages_play_no_part()
    ensures step { (args : QueueArgs) (entries : List Entry) →
        StepsAlike (state_after (empty_queue args) entries) }
    ensures later { (args : QueueArgs) (entries later : List Entry) →
        GoesOnAlike (state_after (empty_queue args) entries) later }
{}
