//! The laws of consumers, whatever happens to a queue of a cluster.
ghost use Rattle.std.specs.Prelude.{◌≡◌, ◌++◌, ◌∷◌, List, ℕ, Some, codes, false, is_some, take, true};
ghost use Rattle.std.specs.Fmt.{decimal};
ghost use Rattle.qq_base.specs.Fronts.{IsFront};
ghost use Rattle.qq_base.specs.Ids.{client};
ghost use Rattle.qq_base.specs.declared.ids.ConsumerId.{ConsumerId};
ghost use Rattle.qq_consuming.specs.Consumers.{claimed, consumer_at, received};
ghost use Rattle.qq_consuming.specs.Consuming.{has_arrived, ids_of};
ghost use Rattle.qq_consuming.specs.Fetched.{IsOutWith};
ghost use Rattle.qq_entry.specs.declared.answer.Delivery.{Delivery};
ghost use Rattle.qq_entry.specs.declared.command.Unstamped.{Unstamped};
ghost use Rattle.qq_entry.specs.declared.queue.QueueArgs.{QueueArgs};
ghost use Rattle.qq_model.specs.Audit.{deliveries, state_after};
ghost use Rattle.qq_model.specs.State.{empty_queue};
ghost use Rattle.qq_raft_model.specs.Group.{Group};
ghost use Rattle.qq_raft_model.specs.State.{Server};
ghost use Rattle.qq_session.specs.declared.shown.Shown.TheVariants.{NotTaken};
ghost use Rattle.qq_cluster_model.specs.Cluster.{Cluster, ClusterEvent, Setup};
ghost use Rattle.qq_cluster_model.specs.ClusterLaws.{HasGroups, PrintsInOrder, TellsWhatIsNotTaken};
ghost use Rattle.qq_cluster_model.specs.Laws.{AreClaimed, IsBegun, deliveries_shown, deliveries_waiting, queue_after};
ghost use Rattle.qq_cluster_model.specs.Queue.{Event, Fetches, all_said, audit_rows, begin, consumer_of, happens, leader};
ghost use Rattle.qq_cluster_model.specs.Rules.{not_taken};
ghost use Rattle.qq_cluster_model.specs.Texts.{shown_text_at};

use qq_consuming::{
    consumers_are_handed_their_deliveries, what_is_out_is_fetched,
    what_is_out_was_delivered_as_it_is,
};
use qq_raft_model::what_a_group_committed_stays;

/// A law: what is printed of a consumer's deliveries is a front of those that the audit has for it. So they come in
/// their order, each once, and none is passed over: whatever is lost on the way, is fetched again, crashes and
/// restarts.
pub fn deliveries_are_printed_in_order()
    ensures queue { (args : QueueArgs) (group : Group) (events : List Event)
        (consumer : ConsumerId) → IsBegun group →
        IsFront (deliveries_shown consumer (all_said (begin args group) events))
        (deliveries (empty_queue args) (audit_rows (queue_after args group events)) consumer) }
    ensures cluster { (setup : Setup) (events : List ClusterEvent) → HasGroups setup →
        PrintsInOrder setup events }
{
    what_a_group_committed_stays();
    consumers_are_handed_their_deliveries();
    what_is_out_was_delivered_as_it_is();
}

/// A law: a session settles, returns and discards what was printed of a consumer's deliveries, or waits for its taker
/// (between two lines nothing does), and nothing else. Where it is to do so with another id, the first such one is
/// told, and no command is given.
pub fn claims_are_of_what_was_printed()
    ensures ids { (args : QueueArgs) (group : Group) (events : List Event) (session tag : ℕ)
        (body : Unstamped) (ids : List ℕ) → claimed body ≡ Some (tag, ids) →
        AreClaimed ids (ids_of (deliveries_shown (consumer_of session tag)
        (all_said (begin args group) events) ++ deliveries_waiting (consumer_of session tag)
        (queue_after args group events).untold))
        (not_taken session body (queue_after args group events)) }
    ensures refused { (session : ℕ) (c : Cluster) → TellsWhatIsNotTaken session c }
    ensures told { (setup : Setup) (id : ℕ) → shown_text_at setup setup.first (NotTaken 1 id)
        ≡ codes "not taken " ++ decimal id ++ codes "\n" }
{}

/// A law: a fetch leaves nothing missing. Where a session hears what comes to it and knows a consumer, and the leader
/// has applied the whole audit, each delivery that is out with that consumer has arrived after the session's fetch.
pub fn a_fetch_leaves_nothing_missing()
    ensures { (args : QueueArgs) (group : Group) (events : List Event) (session k : ℕ) (s : Server)
        (consumer : ConsumerId) (delivery : Delivery) →
        let q = queue_after args group events in
        leader q.group ≡ Some k → (q.group.seat k).server ≡ Some s →
        take s.commit s.log ≡ q.group.audit → (q.clients session).muted ≡ false →
        is_some (received consumer q.consumers) ≡ true → consumer.session ≡ client session →
        IsOutWith (state_after (empty_queue q.args) q.group.audit) consumer delivery →
        has_arrived delivery.id (consumer_at consumer (happens q (Fetches session)).consumers)
        ≡ true }
{
    what_is_out_is_fetched();
}
