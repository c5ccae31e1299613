//! What the rows of a member show the clients: their answers, each with the takers that are dropped at it, and then
//! their deliveries.
ghost use Rattle.std.specs.Prelude.{◌≡◌, ◌++◌, ◌∷◌, [], OnOk, OnErr, IsOkUnless};
ghost use Rattle.qq_base.specs.Fronts.{IsFront};
ghost use Rattle.qq_session.specs.Clients.{hear_all, printed};
ghost use Rattle.qq_session.specs.declared.shown.Shown.TheVariants.{Answered};
ghost use Rattle.qq_cluster_model.specs.Taking.{answers, dropped_by, leaving_at, seated, seated_by};
ghost use Rattle.qq_queue.specs.Members.{audit_rows_of};
ghost use Rattle.qq_queue.specs.Sessions.{clients_of, numbers_of, standings};
ghost use Rattle.qq_queue.specs.Telling.{HasTold};

use crate::cluster_queue::ClusterQueue;
use crate::handing_out::{deliver_rows, release_behind};
use crate::leaving::{drop_takers, leaving_at};
use crate::publishers::Publishers;
use crate::sessions::Sessions;
use qq_base::Memory;
use qq_entry::AuditRow;
use qq_raft::AppliedRow;
use qq_session::Shown;
use qq_taker::Seats;
use std::alloc::Global;
use std::collections::VecDeque;

// An answer is shown, and then the takers that are dropped at it.
fn show_answer(seats: &mut Seats, row: AuditRow, shown: &mut Vec<Shown>) -> Result<(), Memory>
    ensures seats { OnOk result (seats.new ≡ seated_by (leaving_at row) seats.old) }
    ensures said { OnOk result (shown.new.items ≡ shown.old.items
        ++ Answered row ∷ dropped_by (leaving_at row) seats.old) }
    ensures front { OnErr result (IsFront shown.old.items shown.new.items) }
    ensures want { IsOkUnless result Memory.Want }
{
    let whom = leaving_at(&row);
    shown.push(Shown::Answered { row })?;
    let Some(whom) = whom else {
        return Ok(());
    };
    drop_takers(whom, seats, shown)?;
    Ok(())
}

// A session hears a row of its own, and the answer is shown, unless that is lost or was printed.
fn show_row(
    sessions: &Sessions,
    publishers: &mut Publishers,
    seats: &mut Seats,
    row: AuditRow,
    shown: &mut Vec<Shown>,
) -> Result<(), Memory>
    ensures heard { OnOk result (clients_of (standings sessions.now) (numbers_of publishers.new)
        ≡ hear_all (row ∷ []) (clients_of (standings sessions.now) (numbers_of publishers.old))) }
    ensures seats { OnOk result (seats.new ≡ seated seats.old (printed (row ∷ [])
        (clients_of (standings sessions.now) (numbers_of publishers.old)))) }
    ensures said { OnOk result (shown.new.items ≡ shown.old.items
        ++ answers seats.old (printed (row ∷ [])
        (clients_of (standings sessions.now) (numbers_of publishers.old)))) }
    ensures front { OnErr result (IsFront shown.old.items shown.new.items) }
    ensures want { IsOkUnless result Memory.Want }
{
    let printed = publishers.is_printed(sessions, &row);
    publishers.hear(sessions, &row);
    if !printed {
        drop(row);
        return Ok(());
    }
    show_answer(seats, row, shown)?;
    Ok(())
}

// The clients hear the rows that a member answers, in order, and the answers that come to them are shown.
fn show_rows(
    sessions: &Sessions,
    publishers: &mut Publishers,
    seats: &mut Seats,
    rows: Vec<AppliedRow>,
    shown: &mut Vec<Shown>,
) -> Result<(), Memory>
    ensures heard { OnOk result (clients_of (standings sessions.now) (numbers_of publishers.new)
        ≡ hear_all (audit_rows_of rows.items)
        (clients_of (standings sessions.now) (numbers_of publishers.old))) }
    ensures seats { OnOk result (seats.new ≡ seated seats.old (printed (audit_rows_of rows.items)
        (clients_of (standings sessions.now) (numbers_of publishers.old)))) }
    ensures said { OnOk result (shown.new.items ≡ shown.old.items
        ++ answers seats.old (printed (audit_rows_of rows.items)
        (clients_of (standings sessions.now) (numbers_of publishers.old)))) }
    ensures front { OnErr result (IsFront shown.old.items shown.new.items) }
    ensures want { IsOkUnless result Memory.Want }
{
    let mut rest = VecDeque::from_vec(rows);
    'rows: while let Some(applied) = rest.pop_front() {
        show_row(sessions, publishers, seats, applied.row, shown)?;
    }
    Ok(())
}

impl ClusterQueue {
    // What a member answers and does comes to the clients: the answers of rows first, each with the takers that are
    // dropped at it, and then the deliveries, up to the first one for a taker.
    pub(crate) fn tell(
        &mut self,
        alloc: Global,
        sessions: &Sessions,
        rows: Vec<AppliedRow>,
        shown: &mut Vec<Shown>,
    ) -> Result<(), Memory>
        ensures ok { OnOk result (HasTold (standings sessions.now) rows.items self.old self.new
            shown.old.items shown.new.items) }
        ensures group { self.new.group ≡ self.old.group }
        ensures name { self.new.name ≡ self.old.name }
        ensures args { self.new.args ≡ self.old.args }
        ensures front { OnErr result (IsFront shown.old.items shown.new.items) }
        ensures want { IsOkUnless result Memory.Want }
    {
        let waited = self.untold.count();
        let applied = rows.as_slice();
        deliver_rows(
            alloc,
            sessions,
            &mut self.consumers,
            applied,
            &mut self.untold,
        )?;
        show_rows(sessions, &mut self.publishers, &mut self.seats, rows, shown)?;
        release_behind(waited, &self.seats, &mut self.untold, shown)?;
        Ok(())
    }
}
