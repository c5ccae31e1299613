//! Laws of the lanes that recovery hands out: the functions do nothing, and their contracts are the laws.
ghost use Rattle.std.specs.Prelude.{◌≡◌, [], ℕ, List, Option, Some, None, map, nat_eq, true};
ghost use Rattle.std.specs.List.{AllByRecursion, list_any};
ghost use Rattle.qq_base.specs.declared.ids.QueueId.{QueueId};
ghost use Rattle.qq_log.specs.Carries.{is_listed};
ghost use Rattle.qq_log.specs.declared.lane.Lane.{Lane};
ghost use Rattle.qq_log.specs.Log.{last_of, log_of};
ghost use Rattle.qq_log.specs.Stable.{Stable, last_index};
ghost use Rattle.qq_wal_chain.specs.Lanes.{Lanes};
ghost use Rattle.qq_recover.specs.Lanes.{AreLanes};
ghost use Rattle.qq_recover.specs.Recovered.{IsLaneFor};
ghost use Rattle.qq_recover.specs.State.{IsPlainLaneOf};
ghost use Rattle.qq_disk_pins.specs.Told.{IsTold};

/// What a queue's lane tells.
///
/// - `none`, `some`: a queue without ops has none, and each other one has its own.
/// - `state`: all of the queue's state, each entry of its log among it. As there are neither snapshots nor
///   segments it has no snapshot's bytes and no places.
/// - `log`: so the log that is made of it ends where the state's does.
pub fn a_lane_tells_its_state()
    ensures none { (id : QueueId) (found : Option Lane) → IsLaneFor id None found → found ≡ None }
    ensures some { (id : QueueId) (state : Stable) (found : Option Lane) →
        IsLaneFor id (Some state) found → (lane : Lane) × (found ≡ Some lane)
        × (lane.queue ≡ id) × IsPlainLaneOf state lane }
    ensures state { (state : Stable) (lane : Lane) → IsPlainLaneOf state lane →
        (lane.op ≡ state.op) × (lane.term ≡ state.term) × (lane.vote ≡ state.vote)
        × (lane.base ≡ state.base) × (map Some lane.entries ≡ state.log)
        × (state.segments ≡ []) × (lane.shadow ≡ None) × (lane.places ≡ []) }
    ensures log { (state : Stable) (lane : Lane) (room : ℕ) → IsPlainLaneOf state lane →
        last_of (log_of lane room) ≡ last_index state }
{}

/// The lanes that `inspect` answers.
///
/// - `told`: each tells the state of its queue.
/// - `every`: each listed queue with ops has one.
pub fn each_queue_with_ops_has_its_lane()
    ensures told { (queues : List QueueId) (lanes : Lanes) (list : List Lane) →
        AreLanes queues lanes list → AllByRecursion (IsTold lanes) list }
    ensures every { (queues : List QueueId) (lanes : Lanes) (list : List Lane) (id : QueueId)
        (state : Stable) → AreLanes queues lanes list → is_listed queues id ≡ true →
        lanes id.0 ≡ Some state →
        list_any (λ (lane : Lane). nat_eq lane.queue.0 id.0) list ≡ true }
{}
