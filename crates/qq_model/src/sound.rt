ghost use Rattle.std.specs.Prelude.{List};
ghost use Rattle.qq_entry.specs.declared.queue.QueueArgs.{QueueArgs};
ghost use Rattle.qq_entry.specs.declared.command.Entry.{Entry};
ghost use Rattle.qq_model.specs.State.{empty_queue};
ghost use Rattle.qq_model.specs.Audit.{state_after};
ghost use Rattle.qq_model.specs.Sound.{IsSound};

/// A law: whatever entries a queue has applied, no two messages, deliveries, dead letters or turns have
/// one number, none has a number that wasn't drawn, what is out is with a consumer that is there, a
/// queue has at most `MOST_CONSUMERS` of them, a cancelled one has something out, and each open session
/// keeps the answers above its low mark.
pub fn queues_are_sound()
    ensures { (args : QueueArgs) (entries : List Entry)
        → IsSound (state_after (empty_queue args) entries) }
{}
