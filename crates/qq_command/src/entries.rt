//! Entries one behind the other, after their count in four bytes.
ghost use Rattle.std.specs.Prelude.{◌≡◌, ◌++◌, ◌<◌, ◌^◌, length, All, OnOk, OnErr, IsOkUnless};
ghost use Rattle.qq_base.specs.Fronts.{IsFront as IsPrefix};
ghost use Rattle.qq_entry.specs.Range.{IsWritable};
ghost use Rattle.qq_command.specs.Encoding.{entries};
ghost use Rattle.qq_command.specs.Reading.{Gives, entry_field_at, entries_at};

use crate::lengths::ENTRY_LEN;
use crate::reading::decode;
use crate::refusal::Refusal;
use crate::writing::put_entry;
use qq_base::Memory;
use qq_entry::{Entries, Entry};
use qq_fields::{Item, list_at, put_list};
use std::alloc::Global;

#[tactic(auto, unfolding(crate::specs::Reading::entry_field_at))]
fn entry_field_at(alloc: Global, bytes: &[u8]) -> Result<(Entry, &[u8]), Refusal>
    ensures { Gives (λ x. (x.0, x.1.now)) result (entry_field_at bytes.now) }
{
    let (entry, taken) = decode(alloc, bytes)?;
    Ok((entry, bytes.split_at(taken).1))
}

impl Item<Refusal> for Entry {
    ghost use Rattle.qq_entry.specs.Range.{IsWritable};
    ghost use Rattle.qq_command.specs.Encoding.{encoding};
    ghost use Rattle.qq_command.specs.Reading.{entry_field_at};

    ghost read = { entry_field_at };

    ghost write = { encoding };

    ghost fits = { IsWritable };

    fn item_at(alloc: Global, bytes: &[u8]) -> Result<(Self, &[u8]), Refusal> {
        entry_field_at(alloc, bytes)
    }

    fn put_item(&self, out: &mut Vec<u8>) -> Result<(), Memory> {
        put_entry(out, self)
    }
}

/// The entries whose count is a prefix of the bytes, and the bytes behind them: `Short` where the bytes
/// end before the count does, else the refusal of the first entry that has one.
#[tactic(auto, unfolding(crate::specs::Reading::entries_at))]
pub fn entries_at(alloc: Global, bytes: &[u8]) -> Result<(Entries, &[u8]), Refusal>
    ensures { Gives (λ x. (x.0, x.1.now)) result (entries_at bytes.now) }
{
    let (entries, rest) = list_at(alloc, ENTRY_LEN, bytes, Refusal::Short)?;
    Ok((Entries::from_vec(entries), rest))
}

/// Puts the count of entries and their bytes at the end of others. Out of memory, some may stand there.
#[tactic(auto, unfolding(crate::specs::Encoding::entries))]
pub fn put_entries(out: &mut Vec<u8>, list: &[Entry]) -> Result<(), Memory>
    requires each { All IsWritable list.now }
    requires count { length list.now < 2 ^ 32 }
    ensures ok { OnOk result (out.new.items ≡ out.old.items ++ entries list.now) }
    ensures err { OnErr result (IsPrefix out.old.items out.new.items) }
    ensures want { IsOkUnless result Memory.Want }
{
    put_list::<Refusal, _>(out, list)
}
