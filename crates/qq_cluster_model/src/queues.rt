//! The laws of a queue of a cluster, whatever happens to it.
ghost use Rattle.std.specs.Prelude.{◌≡◌, ◌≤◌, ◌<◌, ◌∷◌, [], List, ℕ, false, true, Some, None, is_some, length, map, take};
ghost use Rattle.std.specs.List.{AllByRecursion};
ghost use Rattle.qq_base.specs.declared.ids.NodeId.{NodeId};
ghost use Rattle.qq_base.specs.declared.ids.QueueId.{QueueId};
ghost use Rattle.qq_entry.specs.declared.command.Command.{Command};
ghost use Rattle.qq_entry.specs.declared.command.Unstamped.{Unstamped};
ghost use Rattle.qq_entry.specs.declared.queue.QueueArgs.{QueueArgs};
ghost use Rattle.qq_model.specs.Audit.{IsSerial, state_after};
ghost use Rattle.qq_model.specs.State.{empty_queue};
ghost use Rattle.qq_model.specs.declared.TheConstants.{WINDOW};
ghost use Rattle.qq_raft_model.specs.Group.{Group, group_after, new_group};
ghost use Rattle.qq_raft_model.specs.Group.Event.{Submit};
ghost use Rattle.qq_raft_model.specs.Promises.{AreDistinct};
ghost use Rattle.qq_raft_model.specs.Server.{is_ready};
ghost use Rattle.qq_raft_model.specs.State.{Server};
ghost use Rattle.qq_session.specs.Publishing.{next_command, hand, open_commands};
ghost use Rattle.qq_session.specs.declared.shown.Shown.TheVariants.{NoLeader, WindowFull};
ghost use Rattle.qq_cluster_model.specs.Counts.{counts, counts_of};
ghost use Rattle.qq_cluster_model.specs.Laws.{CountsRise, IsBegun, IsOwnTo, KeepsAudit, all_moves, queue_after};
ghost use Rattle.qq_cluster_model.specs.Queue.{Event, Queue, Submits, Resends, audit_rows, begin, happens, leader, moves, own_effects, own_rows, said};

use qq_raft_model::{groups_are_opened, what_a_group_committed_stays};

/// A law: the group of a queue is one that the queue's events make of the one that it began with, so each
/// law of a group is one of it.
pub fn a_queue_is_its_group()
    ensures { (args : QueueArgs) (group : Group) (events : List Event) →
        (queue_after args group events).group
        ≡ group_after group (all_moves (begin args group) events) }
{}

/// A law: a queue may begin with new logs, and so with an empty audit.
pub fn a_queue_may_begin_with_new_logs()
    ensures { (queue : QueueId) (nodes : List NodeId) → AreDistinct nodes →
        IsBegun (new_group queue nodes) }
{
    groups_are_opened();
}

/// A law: the audit is what the queue's definition gives of the entries that its group has
/// committed, one after the other; and whatever happens later, crashes too, its rows stay.
pub fn an_audit_is_serial()
    ensures serial { (args : QueueArgs) (group : Group) (events : List Event) →
        IsSerial (empty_queue args) (audit_rows (queue_after args group events)) }
    ensures stays { (args : QueueArgs) (group : Group) (first second : List Event) →
        IsBegun group → KeepsAudit (queue_after args group first) second }
{
    what_a_group_committed_stays();
}

/// A law: a member is noticed of no more than a sync has kept of what its node's log was given.
pub fn ops_are_noticed_once_synced()
    ensures { (args : QueueArgs) (group : Group) (events : List Event) (k : ℕ) →
        IsBegun group → CountsRise (queue_after args group events) k }
{}

/// A law: a member answers rows only where it leads and takes commands, and those of its own term alone
/// (Ongaro's dissertation, section 6.4). Another one shows no effects either.
pub fn a_leader_answers_its_own_term()
    ensures rows { (args : QueueArgs) (s t : Server) →
        AllByRecursion (IsOwnTo t) (own_rows args s t) }
    ensures effects { (args : QueueArgs) (s t : Server) → is_ready t ≡ false →
        own_effects args s t ≡ [] }
{}

/// A law: where a ready leader has applied the whole audit, a queue counts what is in the state that the audit leads
/// to. Without a leader nothing is counted.
pub fn a_leader_counts_by_the_audit()
    ensures whole { (q : Queue) (k : ℕ) (s : Server) → leader q.group ≡ Some k →
        (q.group.seat k).server ≡ Some s → take s.commit s.log ≡ q.group.audit →
        counts q ≡ Some (counts_of (state_after (empty_queue q.args) q.group.audit)) }
    ensures nobody { (q : Queue) → leader q.group ≡ None → counts q ≡ None }
    ensures somebody { (q : Queue) (k : ℕ) → leader q.group ≡ Some k → is_some (counts q) ≡ true }
{}

/// A law: a command that gets a number goes to the leader. Where there is none, and only there, the
/// session is told so; the command stays open, and nothing else happens. A session whose window is
/// full is told that, and gets no number. Commands that are sent again where there is no leader are
/// each told so, and nothing else happens.
pub fn commands_go_to_the_leader()
    ensures opened { (session : ℕ) (body : Unstamped) (q : Queue) →
        length (q.clients session).numbers.opened < WINDOW →
        ((happens q (Submits session body)).clients session).numbers
        ≡ hand body (q.clients session).numbers }
    ensures led { (session : ℕ) (body : Unstamped) (q : Queue) (k : ℕ) →
        length (q.clients session).numbers.opened < WINDOW → leader q.group ≡ Some k →
        (moves q (Submits session body)
        ≡ Submit k 0 (next_command body (q.clients session).numbers) ∷ [])
        × (said q (Submits session body) ≡ []) }
    ensures lost { (session : ℕ) (body : Unstamped) (q : Queue) →
        length (q.clients session).numbers.opened < WINDOW → leader q.group ≡ None →
        (moves q (Submits session body) ≡ [])
        × (said q (Submits session body) ≡ NoLeader session ∷ []) }
    ensures full { (session : ℕ) (body : Unstamped) (q : Queue) →
        WINDOW ≤ length (q.clients session).numbers.opened →
        (happens q (Submits session body) ≡ q)
        × (said q (Submits session body) ≡ WindowFull session ∷ []) }
    ensures again { (session : ℕ) (q : Queue) (k : ℕ) → leader q.group ≡ Some k →
        (moves q (Resends session)
        ≡ map (Submit k 0) (open_commands (q.clients session).numbers))
        × (said q (Resends session) ≡ []) }
    ensures again_lost { (session : ℕ) (q : Queue) → leader q.group ≡ None →
        (happens q (Resends session) ≡ q) × (said q (Resends session)
        ≡ map (λ (c : Command). NoLeader session) (open_commands (q.clients session).numbers)) }
{}
