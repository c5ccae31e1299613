ghost use Rattle.std.specs.Prelude.{true, ◌≡◌, ℕ, Err, IfOk, IfErr, IfNone, IsOk, IsOkUnless, OnOk, option_map};
ghost use Rattle.qq_base.specs.declared.memory.Memory.TheVariants.{Want};
ghost use Rattle.qq_base.specs.Causes.{HasCause};
ghost use Rattle.qq_mem_disk.specs.MemDisk.{past_of, counter_of};
ghost use Rattle.qq_mem_disk.specs.Counter.{IsFresh};
ghost use Rattle.qq_ports.specs.Yard.{IsYardCaused, IsNew, IsOpened, IsAfterCrash};
ghost use Rattle.qq_ports.specs.MemYard.{is_of, place_of, first_of, without, disk_for, rows_after, Gives, CountsCall};

use crate::{Yard, YardFault};
use qq_base::NodeId;
use qq_disk::{Image, Tail};
use qq_mem_disk::MemDisk;
use std::alloc::Global;

/// A yard in memory. Of its disks of one root and node the first counts.
///
/// Each call is counted, and fails exactly where its number is listed, but for want of memory.
#[derive(Drop)]
pub struct MemYard {
    disks: Vec<(String, NodeId, MemDisk)>,
    calls: u64,
    faults: u64,
    fails: Vec<u64>,
}

impl MemYard {
    /// A yard of these disks, each with its root and node, whose calls of these numbers, counted from 1,
    /// fail. It takes no memory.
    pub fn new(disks: Vec<(String, NodeId, MemDisk)>, fails: Vec<u64>) -> Self
        ensures disks { result.disks.items ≡ disks.items }
        ensures faults { result.faults ≡ 0 }
        ensures calls { result.calls ≡ 0 }
        ensures fails { result.fails.items ≡ fails.items }
    {
        MemYard {
            disks,
            calls: 0,
            faults: 0,
            fails,
        }
    }

    // Counts a call, which may be one that fails.
    fn count_call(&mut self) -> Result<(), YardFault>
        ensures counts { CountsCall self.old self.new result }
        ensures failed { IfErr result (λ e. e ≡ YardFault.Failed) }
        ensures disks { self.new.disks ≡ self.old.disks }
        ensures cause { HasCause IsYardCaused self.old.faults self.new.faults result }
    {
        self.calls = self.calls.saturating_add(1);
        if self.fails.contains(&self.calls) {
            self.faults = self.faults.saturating_add(1);
            return Err(YardFault::Failed);
        }
        Ok(())
    }
}

fn is_of(row: &(String, NodeId, MemDisk), root: &str, node: NodeId) -> bool
    ensures { result ≡ is_of root.now node row.now }
{
    row.0.as_str() == root && row.1.0 == node.0
}

// How many disks stand before the first of this root and node.
fn place_of(disks: &[(String, NodeId, MemDisk)], root: &str, node: NodeId) -> usize
    ensures { result ≡ place_of root.now node disks.now }
{
    for (place, row) in disks.iter().enumerate() {
        if is_of(row, root, node) {
            return place;
        }
    }
    disks.len()
}

// Takes out the first disk of this root and node.
fn take(disks: &mut Vec<(String, NodeId, MemDisk)>, root: &str, node: NodeId) -> Option<MemDisk>
    ensures first { result ≡ first_of root.now node disks.old.items }
    ensures rest { disks.new.items ≡ without root.now node disks.old.items }
{
    let place = place_of(disks, root, node);
    if place == disks.len() {
        return None;
    }
    let (_, _, disk) = disks.remove(place);
    Some(disk)
}

// A disk that was held is opened again, and holds all that it held.
fn open_held(alloc: Global, held: Option<MemDisk>) -> Result<MemDisk, YardFault>
    ensures gives { IfOk result (Gives held) }
    ensures opened { IfOk result (λ disk. IsOpened (past_of disk)) }
    ensures want { IsOkUnless result (YardFault.Memory Want) }
    ensures new { IfNone held (IsOk result) }
{
    let Some(disk) = held else {
        return Ok(MemDisk::new(alloc));
    };
    let image = Image {
        newest_log: Tail::Whole,
        others: Tail::Whole,
        removed_back: false,
    };
    Ok(disk.crash(alloc, &image)?)
}

impl Yard for MemYard {
    type Disk = MemDisk;

    ghost faults = { λ yard. yard.faults };

    ghost is_given = { λ _ _ _. true };

    /// The disk that the yard holds for the root and the node, opened again, which it then holds no longer; and else
    /// a new one. Opening one again takes memory: where there is none, the disk is given up. A new one takes none.
    fn disk(
        &mut self,
        alloc: Global,
        root: Option<&str>,
        node: NodeId,
    ) -> Result<MemDisk, YardFault>
        ensures gives { IfOk result (λ disk. Gives
            (disk_for (option_map (λ text. text.now) root.entry) node self.old.disks.items) disk) }
        ensures opened { IfOk result (λ disk. IsOpened (past_of disk)) }
        ensures empty { IfNone root.entry (IfOk result (λ disk. IsNew (past_of disk))) }
        ensures rest { OnOk result (self.new.disks.items
            ≡ rows_after (option_map (λ text. text.now) root.entry) node self.old.disks.items) }
        ensures err { IfErr result (λ e. e ≡ YardFault.Failed → self.new.disks ≡ self.old.disks) }
        ensures failed { IfNone root.entry (IfErr result (λ e. e ≡ YardFault.Failed)) }
        ensures counts { CountsCall self.old self.new result }
        ensures cause { HasCause IsYardCaused self.old.faults self.new.faults result }
    {
        self.count_call()?;
        let held = match root {
            Some(root) => take(&mut self.disks, root, node),
            None => None,
        };
        open_held(alloc, held)
    }

    fn crash(&mut self, alloc: Global, disk: MemDisk, image: &Image) -> Result<MemDisk, YardFault>
        ensures left { IfOk result (λ after.
            IsAfterCrash image.now (past_of disk) (past_of after)) }
        ensures counter { IfOk result (λ after. IsFresh (counter_of after)) }
        ensures disks { self.new.disks ≡ self.old.disks }
        ensures counts { CountsCall self.old self.new result }
        ensures cause { HasCause IsYardCaused self.old.faults self.new.faults result }
    {
        self.count_call()?;
        Ok(disk.crash(alloc, image)?)
    }
}
