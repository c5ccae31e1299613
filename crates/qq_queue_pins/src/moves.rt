//! A law of how entries move a queue's messages: the function does nothing, and its contract is the law.
ghost use Rattle.std.specs.Prelude.{◌≡◌, ◌⊎◌, ◌≤◌, ◌++◌, ℕ, List, Some, true, false, slice_get};
ghost use Rattle.qq_entry.specs.declared.command.Entry.{Entry};
ghost use Rattle.qq_entry.specs.declared.queue.QueueArgs.{QueueArgs};
ghost use Rattle.qq_laws.specs.Always.{queue_after};
ghost use Rattle.qq_laws.specs.Published.{new_message};
ghost use Rattle.qq_laws.specs.Rows.{new_rows};
ghost use Rattle.qq_model.specs.declared.place.Row.{Row};
ghost use Rattle.qq_model.specs.Audit.{next_index, next_step};
ghost use Rattle.qq_model.specs.Limits.{is_dead, is_live};
ghost use Rattle.qq_model.specs.Reasons.{may_go_back, may_move};

use qq_laws::entries_move_messages;

/// A law: a message stands after an entry as it stood before, or as the entry brought it, or the entry's command has
/// moved it. Then it was live, and its index, its arrival and its size stay; its place is one where the command moves
/// messages; a dead one only goes; and its count stays, or rises by a command that gives messages back.
pub fn entries_move_what_is_live()
    ensures { (args : QueueArgs) (entries : List Entry) (entry : Entry) (k : ℕ) (row : Row) →
        slice_get (next_step (queue_after args entries) entry).state.rows k ≡ Some row →
        (old : Row) × (slice_get ((queue_after args entries).rows
        ++ new_rows (queue_after args entries) (next_index (queue_after args entries))
        (new_message (next_step (queue_after args entries) entry).fresh
        (next_step (queue_after args entries) entry).answer entry.command)) k ≡ Some old)
        × ((row ≡ old) ⊎ ((is_live old.place ≡ true) × (row.index ≡ old.index)
        × (row.arrival ≡ old.arrival) × (row.size ≡ old.size)
        × (may_move (queue_after args entries).args entry.command row.place ≡ true)
        × (is_dead old.place ≡ true → is_live row.place ≡ false) × (old.count ≤ row.count)
        × ((row.count ≡ old.count) ⊎ (may_go_back entry.command ≡ true)))) }
{
    entries_move_messages();
}
