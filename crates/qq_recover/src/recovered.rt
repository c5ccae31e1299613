//! What recovery gives: the lanes, and the log.
ghost use Rattle.std.specs.Prelude.{◌≡◌, None, IfSome};
ghost use Rattle.qq_wal_chain.specs.Image.{put};
ghost use Rattle.qq_recover.specs.Recovered.{IsLaneFor, lanes_left, wal_of};
ghost use Rattle.qq_recover.specs.State.{IsWithinEnds};

use crate::table::Table;
use qq_base::QueueId;
use qq_disk::NodeDisk;
use qq_log::Lane;
use qq_wal::Wal;
use std::alloc::Global;

/// What recovery gives: the lanes, each until it is taken, and the log that goes on behind them.
#[derive(Drop)]
pub struct Recovered<D: NodeDisk> {
    pub(crate) wal: Wal<D>,
    pub(crate) table: Table,
}

impl<D: NodeDisk> Recovered<D> {
    /// Takes a queue's lane. None comes exactly for a queue without ops, and where its lane was taken
    /// before. It takes no memory. Whatever the disk tells, a lane's numbers are within their ends and its
    /// entries in range with their content, so that a server may be started with it.
    pub fn lane(&mut self, alloc: Global, queue: QueueId) -> Option<Lane>
        ensures lane { IsLaneFor queue (lanes_left self.old queue.0) result }
        ensures ends { IfSome result IsWithinEnds }
        ensures rest { lanes_left self.new ≡ put (lanes_left self.old) queue.0 None }
        ensures wal { wal_of self.new ≡ wal_of self.old }
    {
        match self.table.take(queue) {
            Some(state) => Some(state.into_lane(alloc, queue)),
            None => None,
        }
    }

    /// The log, whose new file is begun. Lanes that weren't taken are dropped.
    pub fn into_wal(self) -> Wal<D>
        ensures { result ≡ wal_of self }
    {
        let Recovered { wal, .. } = self;
        wal
    }
}
