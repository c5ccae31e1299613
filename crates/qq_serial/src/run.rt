ghost use Rattle.std.specs.Prelude.{◌≡◌, false, true, IfOk, IfErr, OnOk};
ghost use Rattle.qq_base.specs.Causes.{SpentOnlyWhere};
ghost use Rattle.qq_model.specs.State.{empty_queue};
ghost use Rattle.qq_model.specs.Audit.{audit_of, effects_of, stays_within};
ghost use Rattle.qq_serial.specs.Replay.{replay, rows, effects};

use crate::Serial;
use qq_base::{Duplicate, Index, Items, Memory, NUMBER_END};
use qq_entry::{AuditRow, Effects, Entries, Entry, QueueArgs};
use std::alloc::Global;

/// What an entry gave that was applied.
#[derive(Drop)]
pub struct Applied {
    /// Its row of the audit.
    pub row: AuditRow,
    /// What applying it did beside its answer, in order.
    pub effects: Effects,
}

// Applies entries in order to a queue, and gives what each of them gives.
fn replay_on(
    alloc: Global,
    serial: &mut Serial,
    entries: &[Entry],
) -> Result<Items<Applied>, Memory>
    ensures each { IfOk result (λ run. run ≡ replay serial.old entries.now) }
    ensures within { OnOk result (stays_within serial.old entries.now ≡ true) }
    ensures cause { IfErr result (λ e. SpentOnlyWhere e NUMBER_END
        (stays_within serial.old entries.now ≡ false)) }
{
    let mut applied = Items::new(alloc);
    'entries: for entry in entries {
        let index = Index(serial.applied() + 1);
        let (fresh, answer, effects) = serial.step(alloc, index, entry)?;
        let row = AuditRow {
            index,
            entry: entry.copy(alloc)?,
            fresh,
            answer,
        };
        let effects = Effects::from_vec(effects);
        applied.push(Applied { row, effects })?;
    }
    Ok(applied)
}

/// Applies entries in order, from index 1 on, to a queue to which nothing was applied. It gives each
/// entry's row and effects: together the serial audit and the effects of the run.
///
/// - `within`: it answers Ok only where no step of the run takes a number past its end.
/// - `cause`: `Spent` is answered only where a step of the run would.
#[tactic(auto, using(crate::proofs::Runs::rows_are_audit, crate::proofs::Runs::effects_are_all))]
pub fn replay(alloc: Global, args: QueueArgs, entries: &Entries) -> Result<Items<Applied>, Memory>
    ensures each { IfOk result (λ run. run ≡ replay (empty_queue args) entries.now) }
    ensures rows { IfOk result (λ run. rows run ≡ audit_of (empty_queue args) entries.now) }
    ensures effects { IfOk result (λ run. effects run ≡ effects_of (empty_queue args) entries.now) }
    ensures within { OnOk result (stays_within (empty_queue args) entries.now ≡ true) }
    ensures cause { IfErr result (λ e. SpentOnlyWhere e NUMBER_END
        (stays_within (empty_queue args) entries.now ≡ false)) }
{
    let mut serial = Serial::new(alloc, args);
    replay_on(alloc, &mut serial, entries.as_slice())
}
