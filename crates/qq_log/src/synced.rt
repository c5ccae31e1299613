ghost use Rattle.std.specs.Prelude.{◌≡◌, Bool, ℕ};
ghost use Rattle.qq_base.specs.declared.ids.QueueId.{QueueId};

use qq_base::QueueId;

/// A log that tells how far each queue's ops are kept for good.
pub trait Synced {
    /// The number of a queue's last op that the log has synced, 0 where there is none.
    ghost synced_op: { Self → QueueId → ℕ };

    /// Whether a call of this log has answered that the disk failed.
    ghost is_stopped: { Self → Bool };

    /// The number of the queue's last op that the log has synced, the last before the log was begun
    /// included; 0 where there is none.
    fn synced(&self, queue: QueueId) -> u64
        ensures { result ≡ synced_op self.now queue };

    /// Whether a call of this log has answered that the disk failed. Nothing is written from then on.
    fn stopped(&self) -> bool
        ensures { result ≡ is_stopped self.now };
}
