ghost use Rattle.std.specs.Prelude.{◌≡◌, ◌<◌, IfOk, IsOkUnless};
ghost use Rattle.qq_route.specs.Members.{members};

use qq_base::{Items, Memory, NodeId, Text};
use qq_entry::{Members, QueueArgs};
use std::alloc::Global;

/// A quorum queue.
#[derive(Debug, Drop, PartialEq)]
pub struct QueueRow {
    /// 1 to 255 bytes.
    pub name: Text,
    /// Its arguments, with its number.
    pub args: QueueArgs,
    /// The nodes of the queue's group, the first member first.
    pub members: Members,
}

/// Quorum queues in the order of their numbers, from 1.
pub type QueueRows = Items<QueueRow>;

/// The members of the queue that has so many before it: nodes one after another, beginning one node later
/// for each queue.
pub fn members(alloc: Global, nodes: u8, group: u8, before: u32) -> Result<Members, Memory>
    requires { 0 < nodes }
    ensures ok { IfOk result (λ list. list ≡ members nodes group before) }
    ensures want { IsOkUnless result Memory.Want }
{
    let mut list = Vec::new(alloc);
    for k in 0..group.min(nodes) {
        let place = (u64::from(before) + u64::from(k)) % u64::from(nodes);
        list.push(NodeId(place as u8 + 1))?;
    }
    Ok(Members::from_vec(list))
}
