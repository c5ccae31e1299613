ghost use Rattle.std.specs.Prelude.{◌≡◌, [], IfOk, IsOkUnless};
ghost use Rattle.qq_route.specs.Destinations.{listed};

use qq_base::{Memory, QueueId};
use std::alloc::Global;
use std::slice::from_ref;

/// The queues to which a message comes. One alone, as mostly, takes no memory.
#[derive(Drop)]
pub enum Destinations {
    /// One queue.
    One(QueueId),
    /// Any number of them.
    Several(Vec<QueueId>),
}

impl Destinations {
    /// None of them. It takes no memory.
    pub fn new(alloc: Global) -> Self
        ensures { listed result ≡ [] }
    {
        Destinations::Several(Vec::new(alloc))
    }

    /// These queues.
    pub(crate) fn from_slice(alloc: Global, queues: &[QueueId]) -> Result<Self, Memory>
        ensures ok { IfOk result (λ destinations. listed destinations ≡ queues.now) }
        ensures want { IsOkUnless result Memory.Want }
    {
        if let [queue] = queues {
            return Ok(Destinations::One(*queue));
        }
        Ok(Destinations::Several(Vec::from_slice(alloc, queues)?))
    }

    /// The queues.
    pub fn as_slice(&self) -> &[QueueId]
        ensures { result.now ≡ listed self.now }
    {
        match self {
            Destinations::One(queue) => from_ref(queue),
            Destinations::Several(queues) => queues.as_slice(),
        }
    }
}
