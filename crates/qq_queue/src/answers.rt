//! Whose answer a row is.
ghost use Rattle.std.specs.Prelude.{◌≡◌};
ghost use Rattle.qq_session.specs.Clients.{ended_by, sender, sender_by};

use qq_base::SessionId;
use qq_entry::{AuditRow, Command, Stamp};

// Whose session a stamp is of, where it is a client's.
fn sender_by(stamp: Option<Stamp>) -> Option<u64>
    ensures { result ≡ sender_by stamp }
{
    match stamp {
        None => None,
        Some(stamp) => {
            if stamp.session == SessionId::client(stamp.session.number) {
                return Some(stamp.session.number);
            }
            None
        }
    }
}

/// The number of the client's session that a command ends, None where it ends none.
pub fn ended_by(command: &Command) -> Option<u64>
    ensures { result ≡ ended_by command.now }
{
    match command {
        Command::Down { session } => {
            if *session == SessionId::client(session.number) {
                return Some(session.number);
            }
            None
        }
        _ => None,
    }
}

/// The number of the client's session that a row's command is of, None where it is of none.
pub fn sender(row: &AuditRow) -> Option<u64>
    ensures { result ≡ sender row.now }
{
    sender_by(row.entry.command.get().stamp())
}
