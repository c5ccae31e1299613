//! Laws of what servers send each other.
ghost use Rattle.std.specs.Prelude.{◌≡◌, List, All, true};
ghost use Rattle.qq_entry.specs.Range.{IsWritable};
ghost use Rattle.qq_entry.specs.declared.command.Entry.{Entry};
ghost use Rattle.qq_raft_model.specs.Leading.{batch};
ghost use Rattle.qq_raft_core.specs.Ends.{is_short};

use qq_command::entries_read_back;

/// A law: the entries of one message are no more than one change of the log may have, so that they fit
/// whoever gets them.
pub fn the_entries_of_a_message_fit()
    ensures { (entries : List Entry) → All IsWritable entries → is_short (batch entries) ≡ true }
{
    entries_read_back();
}
