//! Entries.
ghost use Rattle.std.specs.Prelude.{◌≡◌};
ghost use Rattle.std.specs.Bool.{Decides};
ghost use Rattle.qq_entry.specs.Same.{same_entry};

use crate::Entry;
use crate::commands::same_command;
use crate::lists::{Same, are_same};

impl Same for Entry {
    ghost use Rattle.qq_entry.specs.Same.{same_entry};

    ghost same = { same_entry };

    fn is_same(&self, other: &Self) -> bool {
        self.term.0 == other.term.0
            && self.time == other.time
            && same_command(self.command.get(), other.command.get())
    }
}

/// Whether two entries are the same.
pub fn same_entry(a: &Entry, b: &Entry) -> bool
    ensures test { result ≡ same_entry a.now b.now }
    ensures exact { Decides result (a.now ≡ b.now) }
{
    a.is_same(b)
}

/// Whether two lists have the same entries, in order.
pub fn same_entries(a: &[Entry], b: &[Entry]) -> bool
    ensures { Decides result (a.now ≡ b.now) }
{
    are_same(a, b)
}
