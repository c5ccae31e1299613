//! Laws of sessions: each numbered command is carried out once.

ghost use Rattle.std.specs.Prelude.{List};
ghost use Rattle.qq_entry.specs.declared.queue.QueueArgs.{QueueArgs};
ghost use Rattle.qq_entry.specs.declared.command.Stamp.{Stamp};
ghost use Rattle.qq_entry.specs.declared.command.Entry.{Entry};
ghost use Rattle.qq_model.specs.declared.session.OpenSession.{OpenSession};
ghost use Rattle.qq_model.specs.State.{State, Sessions};
ghost use Rattle.qq_laws.specs.Always.{Always};
ghost use Rattle.qq_laws.specs.Numbers.{AnswersAsFirst, CountsCommands, MarksRise};
ghost use Rattle.qq_laws.specs.Once.{AnswersRepeat, IsCarriedOutOnce, IsFreshWhereLetIn, TurnsAway, TurnsRepeatAway};

/// An entry counts as fresh exactly where it has no stamp, or the gate lets its stamp in.
pub fn commands_are_fresh_where_let_in()
    ensures { (s : State) (entry : Entry) → IsFreshWhereLetIn s entry }
{}

/// A command that isn't let in changes the low mark of its session alone, has no effects, and is
/// answered by the gate.
pub fn commands_turned_away_change_nothing()
    ensures { (s : State) (entry : Entry) (given : Stamp) → TurnsAway s entry given }
{}

/// A number below its session's next isn't let in again.
pub fn repeats_are_turned_away()
    ensures { (s : Sessions) (stamp : Stamp) (one : OpenSession) → TurnsRepeatAway s stamp one }
{}

/// A number above its session's low mark that was carried out is answered by the answer that was kept.
pub fn repeats_are_answered_as_before()
    ensures { (s : Sessions) (stamp : Stamp) (one : OpenSession) → AnswersRepeat s stamp one }
{}

/// Each numbered command of a client, and of a worker that dead-letters at least once, is carried out
/// once, however often it is sent (Ongaro's dissertation, section 6.3).
pub fn commands_are_carried_out_once()
    ensures { Always IsCarriedOutOnce }
{}

/// A repeat above the low mark has the first answer: that which the command of its number got when it
/// was carried out, whatever came between.
pub fn repeats_have_the_first_answer()
    ensures { Always AnswersAsFirst }
{}

/// As long as a session goes on, its low mark and its next number never fall.
pub fn marks_only_rise()
    ensures { Always MarksRise }
{}

/// The commands of a client, and of a worker that dead-letters at least once, that are carried out have
/// the numbers 1, 2, 3 and so on, over all entries: none is left out, and each comes once.
pub fn commands_count_by_one()
    ensures { (args : QueueArgs) (entries : List Entry) → CountsCommands args entries }
{}
