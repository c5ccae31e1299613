//! Whose takers are dropped at an answer.
ghost use Rattle.std.specs.Prelude.{◌≡◌, ◌++◌, Some, OnOk, OnErr, IsOkUnless};
ghost use Rattle.qq_base.specs.Fronts.{IsFront};
ghost use Rattle.qq_cluster_model.specs.Taking.{dropped_by, leaving_at, leaving_by};
ghost use Rattle.qq_taker.specs.Seats.{staying};

use qq_base::{ConsumerId, Memory};
use qq_entry::{AuditRow, Command};
use qq_session::{Shown, closes};
use qq_taker::{Leaving, Seats};

// Whose takers a command that is carried out drops.
fn leaving_by(command: &Command) -> Option<Leaving>
    ensures { result ≡ leaving_by command.now }
{
    match command {
        Command::Cancel { stamp, tag } => Some(Leaving::Consumer(ConsumerId {
            session: stamp.session,
            tag: *tag,
        })),
        Command::Down { session } => Some(Leaving::Session(*session)),
        _ => None,
    }
}

/// Whose takers are dropped at the answer of a row.
pub fn leaving_at(row: &AuditRow) -> Option<Leaving>
    ensures { result ≡ leaving_at row.now }
{
    let ends = closes(&row.answer);
    if !ends {
        return None;
    }
    leaving_by(row.entry.command.get())
}

/// Those who lose their takers give them up, in the order of their tags, and that is shown.
pub fn drop_takers(whom: Leaving, seats: &mut Seats, shown: &mut Vec<Shown>) -> Result<(), Memory>
    ensures seats { OnOk result (seats.new ≡ staying whom seats.old) }
    ensures said { OnOk result
        (shown.new.items ≡ shown.old.items ++ dropped_by (Some whom) seats.old) }
    ensures front { OnErr result (IsFront shown.old.items shown.new.items) }
    ensures want { IsOkUnless result Memory.Want }
{
    'seats: while let Some(seat) = seats.leave_first(whom) {
        shown.push(Shown::Dropped {
            session: seat.consumer.session.number,
            number: seat.number,
        })?;
    }
    Ok(())
}
