ghost use Rattle.std.specs.Prelude.{◌≡◌, ◌<◌, ◌≤◌, [], length, slice_get, vec_len, IfOk, IsOkUnless, OnOk};
ghost use Rattle.std.specs.List.{list_any};
ghost use Rattle.std.specs.Vec.{vec_capacity};
ghost use Rattle.qq_model.specs.Gate.{put_worker};
ghost use Rattle.qq_sessions.specs.Rising.{Rises, place_of, is_at, owner_key, has_owner, is_superseded};

use qq_base::{Memory, SessionId};
use qq_model::Worker;
use std::alloc::Global;
use std::marker::Model;

/// The greatest numbers of the dead-letter workers of each source queue, by rising owner.
#[derive(Drop)]
pub struct Workers {
    workers: Vec<Worker>,
}

impl Model for Workers {
    ghost use Rattle.std.specs.Prelude.{◌-◌, vec_len};
    ghost use Rattle.std.specs.Vec.{vec_capacity};
    ghost use Rattle.qq_sessions.specs.Rising.{Owners, Rises, owner_key};

    ghost Value = { Owners };

    ghost view = { λ w. record {
      workers = w.workers.items;
      room = vec_capacity w.workers - vec_len w.workers;
    } };

    ghost invariant = { λ w. Rises owner_key w.workers.items };
}

fn place_of(owner: u32, workers: &[Worker]) -> usize
    requires { Rises owner_key workers.now }

    ensures place { result ≡ place_of owner_key owner workers.now }
    ensures within { result ≤ length workers.now }
{
    workers.partition_point(|worker| worker.owner < owner)
}

fn is_at(owner: u32, place: usize, workers: &[Worker]) -> bool
    ensures { result ≡ is_at owner_key owner place workers.now }
{
    match workers.get(place) {
        None => false,
        Some(worker) => worker.owner == owner,
    }
}

fn put(workers: &mut Vec<Worker>, worker: Worker)
    requires rising { Rises owner_key workers.old.items }
    requires room { vec_len workers.old < vec_capacity workers.old }

    ensures { workers.new.items ≡ put_worker worker workers.old.items }
{
    let place = place_of(worker.owner, workers.as_slice());
    if is_at(worker.owner, place, workers.as_slice()) {
        workers[place] = worker;
        return;
    }
    workers.insert(place, worker).unwrap();
}

fn is_superseded(session: SessionId, still_open: bool, worker: Worker) -> bool
    ensures { result ≡ is_superseded session still_open worker }
{
    worker.owner == session.owner
        && (session.number < worker.number || (session.number == worker.number && !still_open))
}

impl Workers {
    /// No workers. It takes no memory.
    pub fn new(alloc: Global) -> Self
        ensures { result.workers ≡ [] }
    {
        Workers {
            workers: Vec::new(alloc),
        }
    }

    /// These workers, whose owners rise. It takes no memory.
    pub fn from_vec(workers: Vec<Worker>) -> Self
        requires { Rises owner_key workers.items }

        ensures { result.workers ≡ workers.items }
    {
        Workers { workers }
    }

    /// The worker at a place. None exactly where there is none.
    pub fn at(&self, place: usize) -> Option<Worker>
        ensures { result ≡ slice_get self.now.workers place }
    {
        self.workers.as_slice().get(place).copied()
    }

    /// Whether a worker's session gave way to a later one, or has the greatest number and isn't open, by
    /// binary search.
    pub fn is_superseded(&self, session: SessionId, still_open: bool) -> bool
        ensures { result ≡ list_any (is_superseded session still_open) self.now.workers }
    {
        match self.at(place_of(session.owner, self.workers.as_slice())) {
            None => false,
            Some(worker) => is_superseded(session, still_open, worker),
        }
    }

    /// Whether a worker of a source queue was seen, by binary search.
    pub fn has_owner(&self, owner: u32) -> bool
        ensures { result ≡ has_owner owner self.now.workers }
    {
        let workers = self.workers.as_slice();
        is_at(owner, place_of(owner, workers), workers)
    }

    /// Makes room for one more worker.
    pub fn reserve(&mut self) -> Result<(), Memory>
        ensures same { self.new.workers ≡ self.old.workers }
        ensures ok { OnOk result (0 < self.new.room) }
        ensures want { IsOkUnless result Memory.Want }
    {
        self.workers.reserve(1)?;
        Ok(())
    }

    /// Puts a worker in the place of its owner's.
    pub fn put(&mut self, worker: Worker)
        requires { 0 < self.old.room }

        ensures { self.new.workers ≡ put_worker worker self.old.workers }
    {
        put(&mut self.workers, worker);
    }

    /// The same workers.
    pub fn copy(&self, alloc: Global) -> Result<Workers, Memory>
        ensures ok { IfOk result (λ twin. twin.workers ≡ self.now.workers) }
        ensures want { IsOkUnless result Memory.Want }
    {
        Ok(Workers {
            workers: Vec::from_slice(alloc, &self.workers)?,
        })
    }
}
