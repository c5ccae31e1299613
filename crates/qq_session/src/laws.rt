//! Laws of a session's commands, over all that may be lost or repeated on their way.

ghost use Rattle.std.specs.Prelude.{List};
ghost use Rattle.qq_base.specs.declared.ids.SessionId.{SessionId};
ghost use Rattle.qq_base.specs.declared.ids.QueueId.{QueueId};
ghost use Rattle.qq_entry.specs.declared.queue.QueueArgs.{QueueArgs};
ghost use Rattle.qq_entry.specs.declared.command.Entry.{Entry};
ghost use Rattle.qq_model.specs.Gate.{IsNumbered};
ghost use Rattle.qq_laws.specs.Always.{queue_audit};
ghost use Rattle.qq_session.specs.Answered.{IsAnswered};
ghost use Rattle.qq_session.specs.Arriving.{Deed, ArriveInOrder};

use qq_laws::{
    commands_are_fresh_where_let_in, commands_count_by_one, commands_turned_away_change_nothing,
    repeats_have_the_first_answer,
};
use qq_model::queues_are_sound;

/// Whatever entries a queue applies: the commands of a client, or of a worker that dead-letters at least
/// once, that it carries out have the numbers 1, 2, 3 and so on. Each other command of the session has an
/// answer of the gate, or that with which the command of its number was carried out before.
pub fn commands_are_answered_once()
    ensures { (args : QueueArgs) (entries : List Entry) (session : SessionId) → IsNumbered session →
        IsAnswered session (queue_audit args entries) }
{
    commands_are_fresh_where_let_in();
    commands_count_by_one();
    commands_turned_away_change_nothing();
    repeats_have_the_first_answer();
    queues_are_sound();
}

/// Whatever is lost on the way or comes again: the commands of a session that a queue carries out are the
/// first ones that its `Publishing` has handed out, in their order.
pub fn commands_arrive_in_order()
    ensures { (args : QueueArgs) (session : SessionId) (queue : QueueId) (deeds : List Deed)
        (entries : List Entry) → ArriveInOrder args session queue deeds entries }
{
    commands_count_by_one();
}
