//! Values of a list, which stand one behind the other.
ghost use Rattle.std.specs.Prelude.{◌≡◌, ◌++◌, ◌<◌, ◌^◌, None, OnOk, OnErr, IsOkUnless, All, length};
ghost use Rattle.std.specs.List.{flat_map};
ghost use Rattle.qq_base.specs.Fronts.{IsFront as IsPrefix};
ghost use Rattle.qq_fields.specs.Reading.{Gives, many, list_at};
ghost use Rattle.qq_fields.specs.Writing.{list};

use crate::fault::Fault;
use crate::reading::u32_at;
use qq_base::{Memory, put_u32};
use std::alloc::Global;

/// A value of a list, in the format whose faults are `E`.
pub trait Item<E: Fault>: Drop + Sized {
    ghost use Rattle.std.specs.Prelude.{List, ℕ};
    ghost use Rattle.qq_fields.specs.Reading.{Field};

    /// How it is read.
    ghost read: { List ℕ → Field E Self };

    /// How it is written.
    ghost write: { Self → List ℕ };

    /// Which have an encoding.
    ghost fits: { Self → Type 0 };

    /// The value whose encoding is a prefix of the bytes, and the bytes behind it.
    fn item_at(alloc: Global, bytes: &[u8]) -> Result<(Self, &[u8]), E>
        ensures { Gives E.memory (λ x. (x.0, x.1.now)) result (read bytes.now) };

    /// Puts the value's encoding at the end of others.
    fn put_item(&self, out: &mut Vec<u8>) -> Result<(), Memory>
        requires { fits self.now }
        ensures ok { OnOk result (out.new.items ≡ out.old.items ++ write self.now) }
        ensures err { OnErr result (IsPrefix out.old.items out.new.items) }
        ensures want { IsOkUnless result Memory.Want };
}

/// So many values, none of which has fewer bytes than `least`. Room is taken for no more than the bytes
/// can hold.
pub fn many<E: Fault, T: Item<E>>(
    alloc: Global,
    least: usize,
    count: usize,
    bytes: &[u8],
) -> Result<(Vec<T>, &[u8]), E>
    requires { 0 < least }
    ensures { Gives E.memory (λ x. (x.0.items, x.1.now)) result (many T.read count bytes.now) }
{
    let Ok(mut items) = Vec::with_capacity(alloc, count.min(bytes.len() / least)) else {
        return Err(E::want());
    };
    let mut rest = bytes;
    'items: for _ in 0..count {
        let (item, after) = T::item_at(alloc, rest)?;
        let Ok(()) = items.push(item) else {
            return Err(E::want());
        };
        rest = after;
    }
    Ok((items, rest))
}

/// A count in four bytes, and so many values, none of which has fewer bytes than `least`.
#[tactic(auto, unfolding(crate::specs::Reading::list_at))]
pub fn list_at<E: Fault, T: Item<E>>(
    alloc: Global,
    least: usize,
    bytes: &[u8],
    short: E,
) -> Result<(Vec<T>, &[u8]), E>
    requires least { 0 < least }
    requires short { E.memory short ≡ None }
    ensures { Gives E.memory (λ x. (x.0.items, x.1.now)) result
        (list_at short T.read bytes.now) }
{
    let (count, rest) = u32_at(bytes, short)?;
    many(alloc, least, count as usize, rest)
}

/// Puts the encodings of values one behind the other.
#[tactic(auto, using(crate::proofs::Appends::prefix_rules))]
pub fn put_each<E: Fault, T: Item<E>>(out: &mut Vec<u8>, items: &[T]) -> Result<(), Memory>
    requires { All T.fits items.now }
    ensures ok { OnOk result (out.new.items ≡ out.old.items ++ flat_map T.write items.now) }
    ensures err { OnErr result (IsPrefix out.old.items out.new.items) }
    ensures want { IsOkUnless result Memory.Want }
{
    'items: for item in items {
        item.put_item(out)?;
    }
    Ok(())
}

/// Puts the count of values in four bytes, and their encodings.
#[tactic(auto, using(crate::proofs::Appends::prefix_rules), unfolding(crate::specs::Writing::list))]
pub fn put_list<E: Fault, T: Item<E>>(out: &mut Vec<u8>, items: &[T]) -> Result<(), Memory>
    requires count { length items.now < 2 ^ 32 }
    requires each { All T.fits items.now }
    ensures ok { OnOk result (out.new.items ≡ out.old.items ++ list T.write items.now) }
    ensures err { OnErr result (IsPrefix out.old.items out.new.items) }
    ensures want { IsOkUnless result Memory.Want }
{
    put_u32(out, items.len() as u32)?;
    put_each::<E, T>(out, items)
}
