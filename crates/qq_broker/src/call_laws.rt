//! What the answers of calls tell, as laws: the functions do nothing, and their contracts are the
//! laws.
ghost use Rattle.std.specs.Prelude.{◌≡◌, ◌++◌, ◌∷◌, [], ℕ, true, List, Ok, Some, Contains, map};
ghost use Rattle.qq_base.specs.declared.ids.QueueId.{QueueId};
ghost use Rattle.qq_base.specs.declared.ids.SessionId.{SessionId};
ghost use Rattle.qq_entry.specs.Command.{stamp};
ghost use Rattle.qq_entry.specs.declared.answer.Answer.TheVariants.{Confirmed};
ghost use Rattle.qq_entry.specs.declared.audit.AuditRow.{AuditRow};
ghost use Rattle.qq_entry.specs.declared.audit.Effect.TheVariants.{Deliver};
ghost use Rattle.qq_entry.specs.declared.command.Stamp.{Stamp};
ghost use Rattle.qq_entry.specs.declared.command.Unstamped.{Unstamped};
ghost use Rattle.qq_model.specs.Audit.{effects_of};
ghost use Rattle.qq_model.specs.State.{empty_queue};
ghost use Rattle.qq_script_lines.specs.declared.line.ScriptLine.TheVariants.{Client};
ghost use Rattle.qq_session.specs.ExactlyOne.{ExactlyOne};
ghost use Rattle.qq_session.specs.Printed.{IsConfirmedPublish};
ghost use Rattle.qq_taker.specs.Takers.{Takers, hear_on};
ghost use Rattle.qq_taker.specs.declared.handed.Handed.{Handed};
ghost use Rattle.qq_taker.specs.declared.heard.Heard.{Heard};
ghost use Rattle.qq_cluster_model.specs.Cluster.{Cluster, ClusterEvent, Setup};
ghost use Rattle.qq_cluster_model.specs.ClusterLaws.{HasGroups};
ghost use Rattle.qq_cluster_model.specs.Lines.{IsLine};
ghost use Rattle.qq_cluster_model.specs.Outcome.{takers_after};
ghost use Rattle.qq_cluster_model.specs.Queue.{audit_rows};
ghost use Rattle.qq_cluster_model.specs.Rules.{IsGiven};
ghost use Rattle.qq_cluster_run.specs.Serving.{Run, after_all, cluster_in, setup_in};
ghost use Rattle.qq_broker.specs.CallExample.{as_it_is_given, before_the_call, in_the_pump, two_queues};
ghost use Rattle.qq_broker.specs.Calling.{Answers, HasCalled, outcome_at};
ghost use Rattle.qq_broker.specs.Lives.{Giving};
ghost use Rattle.qq_broker.specs.declared.broker.Broker.{Broker};
ghost use Rattle.qq_broker.specs.declared.broker.Pumped.TheVariants.{Idle};
ghost use Rattle.qq_broker.specs.declared.calling.Called.{Called};

use qq_cluster_model::a_cluster_prints_what_is_true;
use qq_disk::NodeDisk;

/// A law: what a call answers is true of its queue's audit after it.
///
/// - `rows`: each row is one of the audit.
/// - `confirmed`: of one that says `confirmed` the audit has one row in which a publish of that
///   session and number was carried out and confirmed, and no second one.
/// - `effects`: each delivery is what an entry of the audit delivered.
pub fn a_call_answers_what_is_true()
    ensures rows { (setup : Setup) (events early late : List ClusterEvent) (place : ℕ)
        (called : Called) (row : AuditRow) → HasGroups setup →
        Answers setup (after_all setup events) place early late called →
        Contains called.rows.items row →
        Contains (audit_rows ((after_all setup (events ++ (early ++ late))).queue place)) row }
    ensures confirmed { (setup : Setup) (events early late : List ClusterEvent) (place : ℕ)
        (called : Called) (row : AuditRow) (by : Stamp) → HasGroups setup →
        Answers setup (after_all setup events) place early late called →
        Contains called.rows.items row → stamp row.entry.command ≡ Some by →
        row.answer ≡ Confirmed → ExactlyOne (IsConfirmedPublish by.session by.seq)
        (audit_rows ((after_all setup (events ++ (early ++ late))).queue place)) }
    ensures effects { (setup : Setup) (events early late : List ClusterEvent) (place : ℕ)
        (called : Called) (handed : Handed) → HasGroups setup →
        Answers setup (after_all setup events) place early late called →
        Contains called.effects.items handed → Contains (effects_of
        (empty_queue ((after_all setup (events ++ (early ++ late))).queue place).args)
        ((after_all setup (events ++ (early ++ late))).queue place).group.audit)
        (Deliver handed.consumer handed.delivery) }
{
    a_cluster_prints_what_is_true();
}

/// A law: a call's command is given to the queue's leader exactly where the session hasn't ended,
/// each delivery that the command ends was handed out, the session's window has room, and a leader
/// is ready. The first of these that fails is the reason that is told.
pub fn a_call_is_given_to_a_ready_leader()
    ensures { (setup : Setup) (c : Cluster) (session place : ℕ) (body : Unstamped)
        (early late : List ClusterEvent) (called : Called) →
        IsGiven session body place c early → Answers setup c place early late called →
        called.outcome ≡ outcome_at (c.queue place) session body }
{}

/// A law: of a broker that was called.
///
/// - `line`: where a pump follows each line of a client, what happened is what the line of its
///   command allows.
/// - `takers`: they have seen what that shows, and who listened to them before has heard nothing.
pub fn a_call_is_the_line_of_its_command<D: NodeDisk>()
    ensures line { (given : Giving D) (old new : Broker D) (run : Run) (session : SessionId)
        (queue : QueueId) (body : Unstamped) (before later : Takers) (called : Called)
        (so : HasCalled given D.facts old new run session queue body before later called) →
        (cluster_in old.setup run).auto ≡ true →
        IsLine (setup_in old.setup run) (Client session queue body) (cluster_in old.setup run)
        so.more }
    ensures takers { (given : Giving D) (old new : Broker D) (run : Run) (session : SessionId)
        (queue : QueueId) (body : Unstamped) (before later : Takers) (called : Called)
        (so : HasCalled given D.facts old new run session queue body before later called) →
        later ≡ hear_on before.heard (takers_after (setup_in old.setup run)
        (cluster_in old.setup run) so.more before) }
{}

/// A law: a worked call, over one node with two queues. Session 1 has a consumer at the first
/// queue, and its message to the second one waits for a pump. It publishes to the first queue: that
/// is confirmed by row 3 and delivered to the consumer, and of the second queue an answer is heard.
pub fn a_worked_call_is_answered()
    ensures outcome { (called : Called) →
        Answers two_queues before_the_call 1 as_it_is_given in_the_pump called →
        called.outcome ≡ Ok tt }
    ensures rows { (called : Called) →
        Answers two_queues before_the_call 1 as_it_is_given in_the_pump called →
        map (λ (row : AuditRow). row.index.0) called.rows.items ≡ 3 ∷ [] }
    ensures answers { (called : Called) →
        Answers two_queues before_the_call 1 as_it_is_given in_the_pump called →
        map (λ (row : AuditRow). row.answer) called.rows.items ≡ Confirmed ∷ [] }
    ensures effects { (called : Called) →
        Answers two_queues before_the_call 1 as_it_is_given in_the_pump called →
        map (λ (h : Handed). h.delivery.id) called.effects.items ≡ 1 ∷ [] }
    ensures others { (called : Called) →
        Answers two_queues before_the_call 1 as_it_is_given in_the_pump called →
        map (λ (h : Heard). h.queue.0) called.others.items ≡ 2 ∷ [] }
    ensures idle { (called : Called) →
        Answers two_queues before_the_call 1 as_it_is_given in_the_pump called →
        called.pumped ≡ Idle }
{}
