//! Where the entries of a queue's log lie.
ghost use Rattle.std.specs.Prelude.{◌≡◌};
ghost use Rattle.qq_wal.specs.Ranges.{in_file, ranges_in};

use crate::wal::Wal;
use qq_base::{Index, QueueId};
use qq_disk::NodeDisk;

impl<D: NodeDisk> Wal<D> {
    /// The first and the last index of the queue's entries that lie in a log file, as the ops that were
    /// appended leave them, those before the log was begun included. None comes exactly where there are
    /// none. An entry lies in the file to which its change was appended: a carry restates a queue's log
    /// without its entries, so a new file has none of the older ones.
    pub fn in_file(&self, queue: QueueId, file: u64) -> Option<(Index, Index)>
        ensures { result ≡ in_file (ranges_in self.now.ranges) queue file }
    {
        self.ranges.in_file(queue, file)
    }
}
