//! Laws of the beginning and the end of sessions.

ghost use Rattle.qq_entry.specs.declared.command.Entry.{Entry};
ghost use Rattle.qq_entry.specs.declared.command.Stamp.{Stamp};
ghost use Rattle.qq_model.specs.State.{State, Sessions};
ghost use Rattle.qq_laws.specs.Always.{Always};
ghost use Rattle.qq_laws.specs.Closing.{BeginsAtOne, ClosesSession, GivesWay, HasFewSessions, StaysClosed, TellsEnded};

/// A client's session that is open, or that the queue may still remember, has ended after its Down. It stays
/// so, as does one of a worker that dead-letters at least once, and its commands are answered so (Ongaro's
/// dissertation, section 6.3).
pub fn sessions_end_for_good()
    ensures closed { (s : State) (entry : Entry) → ClosesSession s entry }
    ensures stays { Always StaysClosed }
    ensures told { (s : Sessions) (stamp : Stamp) → TellsEnded s stamp }
{}

/// A command of a dead-letter worker that is carried out ends the sessions of the earlier workers of its
/// source queue.
pub fn earlier_workers_give_way()
    ensures { Always (λ s. (entry : Entry) → GivesWay s entry) }
{}

/// A session that isn't known begins with number 1, unless as many are open, or were seen, as may be. At any
/// time no more than these are open and were seen.
pub fn sessions_are_few()
    ensures begun { (s : Sessions) (stamp : Stamp) → BeginsAtOne s stamp }
    ensures few { Always HasFewSessions }
{}
