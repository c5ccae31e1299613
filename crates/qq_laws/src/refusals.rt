//! Laws of what is refused, of what a credit answers, and of who begins to wait.

ghost use Rattle.qq_base.specs.declared.ids.Index.{Index};
ghost use Rattle.qq_entry.specs.declared.command.Command.{Command};
ghost use Rattle.qq_entry.specs.declared.command.Entry.{Entry};
ghost use Rattle.qq_model.specs.State.{State};
ghost use Rattle.qq_laws.specs.Drained.{AnswersDrained};
ghost use Rattle.qq_laws.specs.Places.{BeginsToWait};
ghost use Rattle.qq_laws.specs.Refusals.{AnswersPlainly, RefusesExactly};

/// A command that is carried out is refused exactly so: a get with a single active consumer; a subscribe whose
/// tag isn't above all that its session used, else one to a full table; a cancel or a credit whose consumer
/// isn't there or was cancelled, else a credit for a prefetch; a settle, return or discard whose consumer
/// isn't there.
pub fn refusals_are_exact()
    ensures { (s : State) (entry : Entry) → RefusesExactly s entry }
{}

/// A command that isn't refused is answered so: a noop `Lead`, a cancel, settle, return or discard `Done`, the
/// end of a session `Down`.
pub fn answers_are_plain()
    ensures { (s : State) (entry : Entry) → AnswersPlainly s entry }
{}

/// A credit that isn't refused answers how much of its consumer's credit was left after the deliveries, where
/// it drains that, and else 0 (AMQP 1.0, section 2.6.7).
pub fn drains_are_answered()
    ensures { (s : State) (entry : Entry) → AnswersDrained s entry }
{}

/// A credit, a settle, a return and a discard give their consumer the next turn exactly where they bring its
/// free credit from 0 to more; else it keeps its place among those that wait.
pub fn consumers_keep_their_places()
    ensures { (s : State) (index : Index) (command : Command) → BeginsToWait s index command }
{}
