use crate::wal::Wal;
use qq_base::QueueId;
use qq_disk::NodeDisk;
use qq_log::Synced;

impl<D: NodeDisk> Synced for Wal<D> {
    ghost use Rattle.qq_wal.specs.Notices.{synced_in};

    ghost synced_op = { λ w id. synced_in w.marks id };

    ghost is_stopped = { λ w. w.stopped };

    fn synced(&self, queue: QueueId) -> u64 {
        self.marks.synced(queue)
    }

    fn stopped(&self) -> bool {
        self.stopped
    }
}
