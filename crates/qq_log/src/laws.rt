//! Laws of the definitions, for the crates that speak of what a log holds.
ghost use Rattle.std.specs.Prelude.{◌≡◌, ◌≤◌, ◌↔◌, List, map, Some, None, IsTrue};
ghost use Rattle.std.specs.List.{AllByRecursion};
ghost use Rattle.qq_base.specs.declared.ids.QueueId.{QueueId};
ghost use Rattle.qq_log.specs.declared.head.SnapshotHead.{SnapshotHead};
ghost use Rattle.qq_log.specs.declared.lane.Carry.{Carry};
ghost use Rattle.qq_log.specs.declared.op.Op.{Op};
ghost use Rattle.qq_log.specs.Log.{LogState, entries_behind};
ghost use Rattle.qq_log.specs.Stable.{Stable, IsOfLog, carry_of, forget_entries, known_entries, restates, stable, tail_behind, take_carry};

/// A law: what ops come to from the first on knows all entries of its log, and each segment that it
/// names has one of them.
pub fn ops_tell_their_log()
    ensures entries { (ops : List Op) (s : Stable) → stable ops ≡ Some s →
        s.log ≡ map Some (known_entries s.log) }
    ensures segments { (ops : List Op) (s : Stable) → stable ops ≡ Some s →
        AllByRecursion (IsOfLog s) s.segments }
{}

/// A law: a carry restates exactly the state whose carry it is. It leaves that state as it is, and at
/// the front of what is read it gives all of it but the entries.
pub fn carries_restate()
    ensures exact { (c : Carry) (s : Stable) → IsTrue (restates c s) ↔ (c ≡ carry_of c.queue s) }
    ensures again { (queue : QueueId) (s : Stable) →
        take_carry (Some s) (carry_of queue s) ≡ Some s }
    ensures anew { (queue : QueueId) (s : Stable) →
        take_carry None (carry_of queue s) ≡ Some (forget_entries s) }
{}

/// A law: a log and a state that knows all entries keep the same tail behind a snapshot.
pub fn tails_agree()
    ensures { (l : LogState) (head : SnapshotHead) → l.base.index.0 ≤ head.index.0 →
        map Some (entries_behind l head) ≡ tail_behind l.base head (map Some l.entries) }
{}
