//! Laws of a queue without the messages that are gone: the function does nothing, and its contract is the law.
ghost use Rattle.std.specs.Prelude.{◌≡◌, List, true};
ghost use Rattle.std.specs.List.{AllByRecursion};
ghost use Rattle.qq_entry.specs.declared.command.Entry.{Entry};
ghost use Rattle.qq_entry.specs.declared.queue.QueueArgs.{QueueArgs};
ghost use Rattle.qq_parts.specs.Reduced.{reduced};
ghost use Rattle.qq_model.specs.declared.place.Row.{Row};
ghost use Rattle.qq_model.specs.Audit.{audit_of, effects_of, next_step, state_after};
ghost use Rattle.qq_model.specs.Limits.{is_live};
ghost use Rattle.qq_model.specs.State.{State, empty_queue};

use qq_parts::gone_messages_play_no_part;

/// A law: a queue goes on without the messages that are gone as it does with them, whatever entries it has applied.
///
/// - `live`: of these messages none is in it.
/// - `fresh`, `answer`, `effects`: its next entry counts as fresh in both or in neither, with the same answer and the
///   same effects.
/// - `left`: that entry leaves the same queue, but for the messages that are gone.
/// - `audit`, `all_effects`: whatever entries follow, they have the same audit, and the same effects.
pub fn a_queue_goes_on_without_what_is_gone()
    ensures live { (s : State) →
        AllByRecursion (λ (row : Row). is_live row.place ≡ true) (reduced s).rows }
    ensures fresh { (args : QueueArgs) (entries : List Entry) (entry : Entry) →
        (next_step (state_after (empty_queue args) entries) entry).fresh
        ≡ (next_step (reduced (state_after (empty_queue args) entries)) entry).fresh }
    ensures answer { (args : QueueArgs) (entries : List Entry) (entry : Entry) →
        (next_step (state_after (empty_queue args) entries) entry).answer
        ≡ (next_step (reduced (state_after (empty_queue args) entries)) entry).answer }
    ensures effects { (args : QueueArgs) (entries : List Entry) (entry : Entry) →
        (next_step (state_after (empty_queue args) entries) entry).effects
        ≡ (next_step (reduced (state_after (empty_queue args) entries)) entry).effects }
    ensures left { (args : QueueArgs) (entries : List Entry) (entry : Entry) →
        reduced (next_step (state_after (empty_queue args) entries) entry).state
        ≡ reduced (next_step (reduced (state_after (empty_queue args) entries)) entry).state }
    ensures audit { (args : QueueArgs) (entries later : List Entry) →
        audit_of (state_after (empty_queue args) entries) later
        ≡ audit_of (reduced (state_after (empty_queue args) entries)) later }
    ensures all_effects { (args : QueueArgs) (entries later : List Entry) →
        effects_of (state_after (empty_queue args) entries) later
        ≡ effects_of (reduced (state_after (empty_queue args) entries)) later }
{
    gone_messages_play_no_part();
}
