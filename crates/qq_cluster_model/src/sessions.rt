//! The laws of a client's sessions, whatever happens to a queue of a cluster.
ghost use Rattle.std.specs.Prelude.{◌≡◌, ◌≢◌, ◌⊎◌, ◌++◌, ◌∷◌, [], List, ℕ, filter_map, take, AllPairs};
ghost use Rattle.std.specs.List.{AllByRecursion};
ghost use Rattle.qq_base.specs.Fronts.{IsFront};
ghost use Rattle.qq_base.specs.Ids.{client};
ghost use Rattle.qq_base.specs.declared.ids.NodeId.{NodeId};
ghost use Rattle.qq_entry.specs.declared.command.Entry.{Entry};
ghost use Rattle.qq_entry.specs.declared.queue.QueueArgs.{QueueArgs};
ghost use Rattle.qq_raft_model.specs.Group.{Group, new_group};
ghost use Rattle.qq_raft_model.specs.Promises.{AreDistinct, WasLeft};
ghost use Rattle.qq_session.specs.Answered.{IsAnswered};
ghost use Rattle.qq_session.specs.Arriving.{WasHanded, fresh_command};
ghost use Rattle.qq_session.specs.Publishing.{new_numbers};
ghost use Rattle.qq_session.specs.Deeds.{after_deeds};
ghost use Rattle.qq_session.specs.Printed.{IsAudited, IsConfirmedOnce, closed_number};
ghost use Rattle.qq_cluster_model.specs.Laws.{IsBegun, IsMade, commands_of, deeds, queue_after};
ghost use Rattle.qq_cluster_model.specs.Queue.{Event, all_said, audit_rows, begin};

use qq_consuming::what_is_out_was_delivered_as_it_is;
use qq_laws::commands_count_by_one;
use qq_raft_model::{each_row_was_submitted, groups_are_opened, what_a_group_committed_stays};
use qq_session::{commands_are_answered_once, commands_arrive_in_order};

/// A law: each answer that is printed is that of a row of the audit, to a command of a client. What
/// is printed as `confirmed` has exactly one publish of its session and number in the audit, after
/// any losses, crashes and restarts. Each delivery that is printed is an effect of an entry of the
/// audit.
pub fn what_is_printed_is_audited()
    ensures answers { (args : QueueArgs) (group : Group) (events : List Event) →
        IsBegun group → AllByRecursion (IsAudited (audit_rows (queue_after args group events)))
        (all_said (begin args group) events) }
    ensures confirmed { (args : QueueArgs) (group : Group) (events : List Event) →
        IsBegun group →
        AllByRecursion (IsConfirmedOnce (audit_rows (queue_after args group events)))
        (all_said (begin args group) events) }
    ensures deliveries { (args : QueueArgs) (group : Group) (events : List Event) →
        IsBegun group → AllByRecursion (IsMade (queue_after args group events))
        (all_said (begin args group) events) }
{
    what_a_group_committed_stays();
    commands_count_by_one();
    commands_are_answered_once();
    what_is_out_was_delivered_as_it_is();
}

/// A law: the commands of a session that are carried out have the numbers 1, 2, 3 and so on, and
/// each other command of it has an answer of the gate or the first answer of its number. Its numbers
/// are those of a session that gives numbers and takes answers, whatever is lost between.
pub fn sessions_go_on()
    ensures answered { (args : QueueArgs) (group : Group) (session : ℕ) (events : List Event) →
        IsAnswered (client session) (audit_rows (queue_after args group events)) }
    ensures numbers { (args : QueueArgs) (group : Group) (session : ℕ) (events : List Event) →
        ((queue_after args group events).clients session).numbers
        ≡ after_deeds (deeds session (begin args group) events)
        (new_numbers (client session) args.queue) }
{
    commands_are_answered_once();
}

/// A law: an entry of the audit that is of a session's command, and stood in no log at the start, has a
/// command that the session gave a number. From new logs on, the commands of a session that are carried
/// out are the first ones that it gave numbers, in their order, whatever is lost, comes again or gives
/// way between.
pub fn carried_out_commands_were_given()
    ensures given { (args : QueueArgs) (group : Group) (session : ℕ) (events : List Event)
        (a : List Entry) (e : Entry) → IsBegun group →
        IsFront (a ++ e ∷ []) (queue_after args group events).group.audit →
        WasLeft group a e
        ⊎ WasHanded (client session) (commands_of args group session events) e }
    ensures order { (args : QueueArgs) (nodes : List NodeId) (session : ℕ) (events : List Event) →
        AreDistinct nodes → (n : ℕ) × (filter_map (fresh_command (client session))
        (audit_rows (queue_after args (new_group args.queue nodes) events))
        ≡ take n (commands_of args (new_group args.queue nodes) session events)) }
{
    each_row_was_submitted();
    what_a_group_committed_stays();
    groups_are_opened();
    commands_arrive_in_order();
}

/// A law: of each number of a session the answer that closes it is printed once, however often the
/// command is sent, and whatever is lost: no two printed answers close the same number.
pub fn answers_are_printed_once()
    ensures { (args : QueueArgs) (group : Group) (session : ℕ) (events : List Event) →
        AllPairs (λ (m n : ℕ). m ≢ n)
        (filter_map (closed_number session) (all_said (begin args group) events)) }
{}
