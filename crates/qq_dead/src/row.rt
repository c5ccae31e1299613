use qq_base::{Duplicate, Memory};
use qq_entry::{ReadyRow, Reason};
use std::alloc::Global;

/// A dead message that stays until its dead-letter targets have confirmed it.
#[derive(Drop)]
pub struct DeadRow {
    /// Its number among the dead of its queue, from 1.
    pub number: u64,
    /// Why it died.
    pub reason: Reason,
    /// The message.
    pub row: ReadyRow,
}

impl Duplicate for DeadRow {
    fn copy(&self, alloc: Global) -> Result<Self, Memory> {
        Ok(DeadRow {
            number: self.number,
            reason: self.reason,
            row: self.row.copy(alloc)?,
        })
    }
}
