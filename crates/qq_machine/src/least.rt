//! The least index that a queue still needs.
ghost use Rattle.std.specs.Prelude.{◌≡◌, ◌+◌, ◌-◌, ◌^◌, min, IfOk, IsOkUnless, OnOk};
ghost use Rattle.std.specs.Option.{option_map};
ghost use Rattle.qq_live.specs.Indices.{HasRoomFor};
ghost use Rattle.qq_machine.specs.Views.{content_of, base_of};
ghost use Rattle.qq_machine.specs.Least.{least_index, came_count, HoldsAll};

use crate::queue::Queue;
use qq_base::{Index, Memory};
use qq_ledger::{push_consumers, push_dead, push_ready};
use qq_live::Live;
use std::alloc::Global;

/// The lesser of two indices that may be there, or else the next one, or the greatest that there is.
pub fn least_index(first: Option<Index>, second: Option<Index>, applied: u64) -> Index
    ensures { result.0 ≡ min (least_index (option_map (λ i. i.0) first)
        (option_map (λ i. i.0) second) applied) (2 ^ 64 - 1) }
{
    match (first, second) {
        (None, None) => Index(applied.saturating_add(1)),
        (Some(first), None) => first,
        (None, Some(second)) => second,
        (Some(first), Some(second)) => { if second.0 < first.0 { second } else { first } }
    }
}

fn sum(a: usize, b: usize) -> Result<usize, Memory>
    ensures ok { IfOk result (λ sum. sum ≡ a + b) }
    ensures want { IsOkUnless result Memory.Want }
{
    match a.checked_add(b) {
        Some(sum) => Ok(sum),
        None => Err(Memory::Want),
    }
}

impl Queue {
    // How many messages came to the parts since the last commit.
    fn came(&self) -> Result<usize, Memory>
        ensures ok { IfOk result (λ count. count ≡ came_count self.now) }
        ensures want { IsOkUnless result Memory.Want }
    {
        let others = sum(self.consumers.came(), self.dead.came())?;
        let all = sum(self.ready.came(), others)?;
        Ok(all)
    }

    /// Makes room for what came since the last commit.
    pub fn make_room(&self, live: &mut Live) -> Result<(), Memory>
        ensures same { live.new.indices ≡ live.old.indices }
        ensures ok { OnOk result (HasRoomFor (came_count self.now) live.new) }
        ensures want { IsOkUnless result Memory.Want }
    {
        let came = self.came()?;
        live.reserve(came)
    }

    /// What came since the last commit is held, and what left is let go. There has to be room.
    pub fn tell(&self, live: &mut Live)
        requires room { HasRoomFor (came_count self.now) live.old }
        requires base { HoldsAll live.old.indices (base_of self.now) }

        ensures { HoldsAll live.new.indices (content_of self.now) }
    {
        self.ready.hold(live);
        self.consumers.hold(live);
        self.dead.hold(live);
        self.ready.release(live);
        self.consumers.release(live);
        self.dead.release(live);
    }

    /// The indices of all messages. It goes through them.
    pub fn live_messages(&self, alloc: Global) -> Result<Live, Memory>
        ensures ok { IfOk result (λ live. HoldsAll live.indices (content_of self.now)) }
        ensures want { IsOkUnless result Memory.Want }
    {
        let mut indices = Vec::new(alloc);
        push_ready(self.ready.store(), &mut indices)?;
        push_consumers(self.consumers.table(), &mut indices)?;
        push_dead(self.dead.store(), &mut indices)?;
        let live = Live::from_indices(alloc, indices)?;
        Ok(live)
    }
}
