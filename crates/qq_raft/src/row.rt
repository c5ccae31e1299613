use qq_entry::{AuditRow, Effects};

/// An entry that was applied: its row of the audit, and what it does beside its answer.
#[derive(Debug, Drop, PartialEq)]
pub struct AppliedRow {
    /// Its row of the audit.
    pub row: AuditRow,
    /// Its effects, in order.
    pub effects: Effects,
}
