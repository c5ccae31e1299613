//! The lanes that were found, queue by queue.
ghost use Rattle.std.specs.Prelude.{◌≡◌, ◌<◌, ◌++◌, ◌∷◌, [], ℕ, List, length, map, get_or, IfOk, IsOkUnless, OnOk};
ghost use Rattle.qq_doctor.specs.Lanes.{Found as FoundLane};
ghost use Rattle.qq_doctor.specs.Sorted.{AreSorted, of_node};

use qq_base::{Items, Memory, NodeId};
use qq_log::Lane;
use std::alloc::Global;

/// The lanes that were found of each queue, in the order of their nodes. Queue 1 has the first row.
#[derive(Drop)]
pub(crate) struct Found {
    rows: Vec<Items<(NodeId, Lane)>>,
}

impl Found {
    /// Nothing was found of so many queues.
    pub fn new(alloc: Global, count: usize) -> Result<Self, Memory>
        ensures ok { IfOk result (λ found. AreSorted count [] found.rows.items) }
        ensures want { IsOkUnless result Memory.Want }
    {
        let mut rows = Vec::new(alloc);
        'rows: for at in 0..count {
            rows.push(Items::new(alloc))?;
        }
        Ok(Found { rows })
    }

    /// A node has a lane. One of another queue isn't kept.
    pub fn add(&mut self, node: NodeId, lane: Lane) -> Result<(), Memory>
        ensures ok { OnOk result ((count : ℕ) (found : List FoundLane) →
            AreSorted count found self.old.rows.items →
            AreSorted count (found ++ (node, lane) ∷ []) self.new.rows.items) }
        ensures want { IsOkUnless result Memory.Want }
    {
        let number = lane.queue.0 as usize;
        if number == 0 || self.rows.len() < number {
            return Ok(());
        }
        self.rows[number - 1].push((node, lane))?;
        Ok(())
    }

    /// A node has these lanes.
    pub fn add_all(&mut self, node: NodeId, lanes: Vec<Lane>) -> Result<(), Memory>
        ensures ok { OnOk result ((count : ℕ) (found : List FoundLane) →
            AreSorted count found self.old.rows.items →
            AreSorted count (found ++ map (of_node node.0) lanes.items) self.new.rows.items) }
        ensures want { IsOkUnless result Memory.Want }
    {
        'lanes: for lane in lanes {
            self.add(node, lane)?;
        }
        Ok(())
    }

    /// How many queues there are.
    pub fn count(&self) -> usize
        ensures { result ≡ length self.now.rows.items }
    {
        self.rows.len()
    }

    /// What was found of the queue that has so many before it.
    pub fn of_place(&self, at: usize) -> &[(NodeId, Lane)]
        requires { at < length self.now.rows.items }
        ensures { get_or self.now.rows.items at [] ≡ result.now }
    {
        self.rows[at].as_slice()
    }
}
