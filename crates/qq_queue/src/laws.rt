//! What the sessions of all queues are to each queue: the functions do nothing, and their contracts are the laws.
ghost use Rattle.std.specs.Prelude.{◌≡◌, ◌≤◌, ◌⊎◌, ℕ, List, [], Bool};
ghost use Rattle.std.specs.List.{AllByRecursion};
ghost use Rattle.qq_base.specs.Fronts.{put};
ghost use Rattle.qq_base.specs.declared.memory.Memory.TheVariants.{Spent};
ghost use Rattle.qq_base.specs.declared.memory.TheConstants.{NUMBER_END};
ghost use Rattle.qq_cluster_model.specs.Queue.{Ends, Mutes, Queue, happens, said};
ghost use Rattle.qq_entry.specs.declared.queue.QueueArgs.{QueueArgs};
ghost use Rattle.qq_model.specs.Audit.{audit_of};
ghost use Rattle.qq_model.specs.State.{empty_queue};
ghost use Rattle.qq_raft_protocol.specs.Facts.{In};
ghost use Rattle.qq_raft.specs.declared.row.AppliedRow.{AppliedRow};
ghost use Rattle.qq_raft_model.specs.Group.{Group as GroupState};
ghost use Rattle.qq_group.specs.Follows.{Follows};
ghost use Rattle.qq_group.specs.Group.{IsReached, Represents};
ghost use Rattle.qq_group.specs.Steps.{HasShownEvent, made_by, ReachesAtMost};
ghost use Rattle.qq_group.specs.declared.event.Event.{Event};
ghost use Rattle.qq_group_laws.specs.Audited.{AreAudited};
ghost use Rattle.qq_raft_msg.specs.declared.bag.TheConstants.{BAG_LIMIT};
ghost use Rattle.qq_queue.specs.ClusterQueue.{Stands};
ghost use Rattle.qq_queue.specs.Members.{AreSound, IsStepCaused, Members, own_log, queue_stands, queue_step};
ghost use Rattle.qq_queue.specs.Sessions.{Standings, set_ended, set_muted};
ghost use Rattle.qq_queue.specs.declared.cluster_queue.ClusterQueue.{ClusterQueue};

use crate::machine_queue::MachineQueue;
use qq_group_laws::{a_refusal_tells_want_or_an_end, each_row_is_of_the_audit};
use qq_log::Log;

/// A law: a number that a refused step tells is the most messages that a bag holds, or 2^63 or more.
pub fn a_refusal_tells_an_end()
    ensures { (event : Event) (group : Members) (number : ℕ) → AreSound group →
        IsStepCaused event group (Spent number) → (number ≡ BAG_LIMIT) ⊎ (NUMBER_END ≤ number) }
{
    a_refusal_tells_want_or_an_end::<MachineQueue, Log>();
}

/// A law: where a session is muted or ends, that has happened to each queue, and nothing is shown.
pub fn sessions_are_those_of_each_queue()
    ensures mutes { (sessions : Standings) (session : ℕ) (muted : Bool) (d : ClusterQueue)
        (q : Queue) → Stands sessions d q →
        Stands (put session (set_muted muted (sessions session)) sessions) d
        (happens q (Mutes session muted)) × (said q (Mutes session muted) ≡ []) }
    ensures ends { (sessions : Standings) (session : ℕ) (d : ClusterQueue) (q : Queue) →
        Stands sessions d q → Stands (put session (set_ended (sessions session)) sessions) d
        (happens q (Ends session)) × (said q (Ends session) ≡ []) }
{}

/// A law: a row that a step of a queue's members shows is of the serial audit of the entries that they have committed,
/// with the index, the entry, and the answer that it has there.
pub fn a_row_is_of_the_serial_audit()
    ensures { (args : QueueArgs) (g : GroupState) (event : Event) (old new : Members)
        (rows : List AppliedRow) → IsReached g → Represents own_log g old →
        Follows own_log (made_by event old) old new →
        HasShownEvent queue_stands queue_step own_log event old new rows →
        ReachesAtMost event old new → AreAudited queue_stands queue_step (empty_queue args) old →
        AllByRecursion (λ (row : AppliedRow).
        In row.row (audit_of (empty_queue args) new.audit.items)) rows }
{
    each_row_is_of_the_audit::<MachineQueue, Log>();
}
