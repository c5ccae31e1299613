use qq_base::{Duplicate, Memory};
use qq_entry::ReadyRow;
use qq_model::Key;
use std::alloc::Global;

/// A ready message, and where it stands in the queue.
#[derive(Drop)]
pub struct KeyedRow {
    /// Its place: `Front` where it was returned under a delivery limit, else `Back`.
    pub key: Key,
    /// The message.
    pub row: ReadyRow,
}

impl Duplicate for KeyedRow {
    fn copy(&self, alloc: Global) -> Result<Self, Memory> {
        Ok(KeyedRow {
            key: self.key,
            row: self.row.copy(alloc)?,
        })
    }
}
