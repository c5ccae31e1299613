//! What each entry does to the parts of a queue: a step of the parts is a step of the queue, with the same
//! answer and the same effects, and leaves parts that stand for the next state. Definitions and laws; no
//! code.
ghost use Rattle.std.specs.Prelude.{◌≡◌, ℕ, List, Some, None};
ghost use Rattle.std.specs.List.{AllByRecursion};
ghost use Rattle.qq_base.specs.declared.ids.Index.{Index};
ghost use Rattle.qq_base.specs.declared.ids.ConsumerId.{ConsumerId};
ghost use Rattle.qq_base.specs.declared.ids.SessionId.{SessionId};
ghost use Rattle.qq_entry.specs.declared.queue.QueueArgs.{QueueArgs};
ghost use Rattle.qq_entry.specs.declared.command.Command.{Command};
ghost use Rattle.qq_entry.specs.declared.command.Entry.{Entry};
ghost use Rattle.qq_entry.specs.Range.{IsInRange};
ghost use Rattle.qq_model.specs.declared.consumer.Outcome.{Outcome};
ghost use Rattle.qq_model.specs.State.{State, empty_queue};
ghost use Rattle.qq_model.specs.Changes.{Progress};
ghost use Rattle.qq_model.specs.Commands.{Acted, act, end_deliveries};
ghost use Rattle.qq_model.specs.Serving.{check_out_all, drain_after, keep_limits, give_all_dead};
ghost use Rattle.qq_model.specs.Sound.{IsSound};
ghost use Rattle.qq_model.specs.Audit.{next_step, audit_of, state_after, effects_of};
ghost use Rattle.qq_parts.specs.Parts.{Served, Parts, Stands, IsWhole};
ghost use Rattle.qq_parts.specs.Changes.{Taken, take_first, Holds};
ghost use Rattle.qq_parts.specs.Work.{Work, Answered, StandsFor, AnswersFor};
ghost use Rattle.qq_parts.specs.Ends.{parts_end_deliveries};
ghost use Rattle.qq_parts.specs.Follows.{next_one, parts_check_out_all, parts_keep_limits, parts_give_all_dead, IsServed};
ghost use Rattle.qq_parts.specs.Commands.{IsBehind, HasFreeId, one_of, parts_finish, parts_return_session, parts_act, parts_drain_after};
ghost use Rattle.qq_parts.specs.AtOnce.{finish_at_once, first_of_session, return_first_of};
ghost use Rattle.qq_parts.specs.Step.{parts_next_step, StepsFor, new_parts, parts_after, parts_audit, parts_effects};

/// A law: the ids of a Settle, a Return or a Discard end in the parts as in the queue, in the given order:
/// each that is out is gone, goes back or dies, and the others are passed over.
pub fn deliveries_end_in_order()
    ensures { (t : Work) (p : Progress) (outcome : Outcome) (consumer : ConsumerId) (ids : List ℕ) →
        StandsFor t p → StandsFor (parts_end_deliveries outcome consumer ids t)
        (end_deliveries outcome consumer ids p) }
{}

/// A law: what follows on each command is made in the parts as in the queue: all checkouts, with and without
/// a single active consumer; the deaths of messages at the front while the queue is past its limit; and the
/// offers to the dead-letter worker, of which at most `MOST_GIVEN` are under way.
pub fn loops_follow()
    ensures delivered { (t : Work) (p : Progress) → StandsFor t p →
        StandsFor (parts_check_out_all t) (check_out_all p) }
    ensures limited { (t : Work) (p : Progress) → StandsFor t p →
        StandsFor (parts_keep_limits t) (keep_limits p) }
    ensures given { (t : Work) (p : Progress) → StandsFor t p →
        StandsFor (parts_give_all_dead t) (give_all_dead p) }
{}

/// A law: each command does in the parts what it does in the queue, and answers the same, where the entry is
/// behind all that have arrived, and a consumer that joins has an id of its own. So does the drain after a
/// Credit.
pub fn commands_follow()
    ensures acted { (index : Index) (command : Command) (t : Work) (p : Progress) → StandsFor t p →
        IsBehind index p.state → HasFreeId command t.parts →
        AnswersFor (parts_act index command t) (act index command p) }
    ensures drained { (command : Command) (a : Answered) (b : Acted) → AnswersFor a b →
        AnswersFor (parts_drain_after command a) (drain_after command b) }
{}

/// A law: where parts stand for a queue that is sound, and are whole, the step of the next entry in range
/// counts as fresh, answers and has effects as in the queue, through the gate of its session, and leaves
/// whole parts that stand for the next state.
pub fn a_step_of_the_parts_is_a_step_of_the_queue()
    ensures { (m : Parts) (s : State) (entry : Entry) → IsSound s → Stands m s → IsWhole m →
        IsInRange entry → StepsFor (parts_next_step m entry) (next_step s entry) }
{}

/// A law: between entries nothing is ready, or nobody may be served. Each step of the parts keeps it.
pub fn nobody_waits_for_what_is_ready()
    ensures { (m : Parts) (s : State) (entry : Entry) → IsSound s → Stands m s → IsWhole m →
        IsInRange entry → IsServed m → IsServed (parts_next_step m entry).parts }
{}

/// A law: from the new queue on, the parts give the audit and the effects of all entries in range, and are
/// whole and stand for the queue behind them. Where a message is ready then, no consumer is the next one.
pub fn the_parts_run_as_the_queue()
    ensures stands { (args : QueueArgs) (entries : List Entry) → AllByRecursion IsInRange entries →
        Holds (parts_after (new_parts args) entries) (state_after (empty_queue args) entries) }
    ensures audit { (args : QueueArgs) (entries : List Entry) → AllByRecursion IsInRange entries →
        parts_audit (new_parts args) entries ≡ audit_of (empty_queue args) entries }
    ensures effects { (args : QueueArgs) (entries : List Entry) → AllByRecursion IsInRange entries →
        parts_effects (new_parts args) entries ≡ effects_of (empty_queue args) entries }
    ensures served { (args : QueueArgs) (entries : List Entry) (taken : Taken) →
        AllByRecursion IsInRange entries →
        take_first (parts_after (new_parts args) entries) ≡ Some taken →
        next_one (parts_after (new_parts args) entries).rest.args.single_active
        (parts_after (new_parts args) entries).served ≡ None }
{}

/// A law: a machine may cut all ids of a Settle, a Return or a Discard out of their consumer at once, let that
/// consumer leave or begin to wait, and then end what it has cut, one after the other.
pub fn ids_may_be_cut_at_once()
    ensures { (outcome : Outcome) (id : ConsumerId) (ids : List ℕ) (one : Served) (t : Work) →
        IsWhole t.parts → one_of id t.parts.served ≡ Some one →
        parts_finish outcome id ids t ≡ finish_at_once outcome id ids one t }
{}

/// A law: at the end of a session a machine may take out its consumers one by one, the longest joined first,
/// and give back what was out with each, until there is none.
pub fn consumers_may_go_one_by_one()
    ensures first { (session : SessionId) (one : Served) (t : Work) →
        first_of_session session t.parts.served ≡ Some one →
        parts_return_session session t
        ≡ parts_return_session session (return_first_of session one t) }
    ensures over { (session : SessionId) (t : Work) →
        first_of_session session t.parts.served ≡ None → parts_return_session session t ≡ t }
{}
