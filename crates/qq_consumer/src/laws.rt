//! Laws of the consumers of a queue: the functions do nothing, and their contracts are the laws.
ghost use Rattle.std.specs.Prelude.{◌≡◌, ◌⊎◌, Option, Some, None};
ghost use Rattle.qq_base.specs.declared.ids.ConsumerId.{ConsumerId};
ghost use Rattle.qq_entry.specs.declared.answer.Cause.{Cause};
ghost use Rattle.qq_entry.specs.declared.answer.Cause.TheVariants.{NumberSpent, ConsumersFull};
ghost use Rattle.qq_entry.specs.declared.command.Mode.{Mode};
ghost use Rattle.qq_parts.specs.Reduced.{Item};
ghost use Rattle.qq_model.specs.declared.consumer.Consumer.{Consumer};
ghost use Rattle.qq_parts.specs.Consumers.{changed, keep_ones, needed_one};
ghost use Rattle.qq_parts.specs.Outs.{hand_over, joined};
ghost use Rattle.qq_parts.specs.Parts.{Parts};
ghost use Rattle.qq_consumer.specs.declared.fault.CreditFault.TheVariants as uncredited;
ghost use Rattle.qq_consumer.specs.declared.fault.SubscribeFault.TheVariants as fault;
ghost use Rattle.qq_consumer.specs.Roster.{ConsumersState, IsBack, IsCreditFault, IsRefusal, StaysUncredited, StaysUnsubscribed, check_out, drop_finished, join, put_one, roster_of};

/// A law: the consumers that contracts see are those of the parts of a queue, with the turns that were drawn, and what
/// `qq_parts` proves of a change is said of theirs.
///
/// - `delivers`: what is handed over in the parts is checked out here.
/// - `joins`, `changes`: one that joins there joins here, and so one that changes.
/// - `finishes`: those that aren't needed leave both.
pub fn these_are_the_consumers_of_parts()
    ensures delivers { (m : Parts) (x : Item) (consumer : Consumer) →
        roster_of (hand_over x consumer m).served (hand_over x consumer m).rest.turns
        ≡ check_out consumer.id x (roster_of m.served m.rest.turns) }
    ensures joins { (m : Parts) (id : ConsumerId) (mode : Mode) →
        roster_of (joined id mode m).served (joined id mode m).rest.turns
        ≡ join id mode (roster_of m.served m.rest.turns) }
    ensures changes { (m : Parts) (new : Consumer) →
        roster_of (changed new m).served (changed new m).rest.turns
        ≡ roster_of (put_one new m.served) m.rest.turns }
    ensures finishes { (m : Parts) →
        roster_of (keep_ones needed_one m).served (keep_ones needed_one m).rest.turns
        ≡ drop_finished (roster_of m.served m.rest.turns) }
{}

/// A law: a fault tells which rule refuses, and out of memory that none does.
///
/// - `spent`, `full`, `memory`: of a subscribe.
/// - `credit`, `credit_memory`: of credit, whose fault has the cause in it.
pub fn a_refusal_tells_its_rule()
    ensures spent { (refusal : Option Cause) →
        IsRefusal fault.NumberSpent refusal → refusal ≡ Some NumberSpent }
    ensures full { (refusal : Option Cause) →
        IsRefusal fault.ConsumersFull refusal → refusal ≡ Some ConsumersFull }
    ensures memory { (refusal : Option Cause) →
        IsRefusal fault.Memory refusal → refusal ≡ None }
    ensures credit { (cause : Cause) (refusal : Option Cause) →
        IsCreditFault (uncredited.Refused cause) refusal → refusal ≡ Some cause }
    ensures credit_memory { (refusal : Option Cause) →
        IsCreditFault uncredited.Memory refusal → refusal ≡ None }
{}

/// A law: a subscribe or a credit that a rule refuses leaves the consumers as they are.
pub fn a_refusal_changes_no_consumer()
    ensures spent { (old new : ConsumersState) →
        StaysUnsubscribed fault.NumberSpent old new → new.roster ≡ old.roster }
    ensures full { (old new : ConsumersState) →
        StaysUnsubscribed fault.ConsumersFull old new → new.roster ≡ old.roster }
    ensures credit { (cause : Cause) (old new : ConsumersState) →
        StaysUncredited (uncredited.Refused cause) old new → new.roster ≡ old.roster }
{}

/// A law: where a call ran out of memory, the consumers are as before or as at the last commit.
///
/// - `calls`: so after each call whose error is that there is no memory.
/// - `subscribe`, `credit`: and after these two.
/// - `committed`: where nothing was changed since the last commit, they are as before.
pub fn out_of_memory_takes_back_to_the_last_commit()
    ensures calls { (old new : ConsumersState) → IsBack old new →
        (new.roster ≡ old.roster) ⊎ (new.roster ≡ old.base) }
    ensures subscribe { (old new : ConsumersState) →
        StaysUnsubscribed fault.Memory old new →
        (new.roster ≡ old.roster) ⊎ (new.roster ≡ old.base) }
    ensures credit { (old new : ConsumersState) → StaysUncredited uncredited.Memory old new →
        (new.roster ≡ old.roster) ⊎ (new.roster ≡ old.base) }
    ensures committed { (old new : ConsumersState) → IsBack old new → old.roster ≡ old.base →
        new.roster ≡ old.roster }
{}
