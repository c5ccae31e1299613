ghost use Rattle.std.specs.Prelude.{◌≡◌, ◌≤◌, ◌++◌, List, length, flat_map, IfOk, IfErr, OnOk, OnErr, IsOkUnless};
ghost use Rattle.qq_base.specs.Causes.{HasCause};
ghost use Rattle.qq_entry.specs.declared.audit.AuditRow.{AuditRow};
ghost use Rattle.qq_ports.specs.Faults.{IsCaused};
ghost use Rattle.qq_ports.specs.Streams.{sink_state};
ghost use Rattle.qq_script.specs.Audit.{audit_text, row_text};
ghost use Rattle.qq_cluster_run.specs.Pieces.{HasPrefix, HasSomePrefix, HasPrintCause, IsNextRow};

use crate::stop::PrintFault;
use qq_base::{Index, Memory, Text};
use qq_entry::AuditRow;
use qq_ports::{Failed, Sink, write_all};
use qq_script::{audit_head_text, row_text};
use std::alloc::Global;

// How long a text becomes before it is written.
const PIECE: usize = 32_768;

// Writes the text where it has become long, and empties it.
fn drain<O: Sink>(text: &mut Vec<u8>, output: &mut O) -> Result<(), Failed>
    ensures ok { OnOk result (HasPrefix (sink_state O.written O.faults output.old)
        (sink_state O.written O.faults output.new)
        text.old.items text.new.items) }
    ensures err { OnErr result
        (HasSomePrefix (sink_state O.written O.faults output.old)
        (sink_state O.written O.faults output.new) text.old.items) }
    ensures cause { HasCause IsCaused (O.faults output.old) (O.faults output.new) result }
{
    if text.len() < PIECE {
        return Ok(());
    }
    match write_all(output, text) {
        Ok(()) => {
            text.clear();
            Ok(())
        }
        Err(failed) => Err(failed),
    }
}

// Adds a row to the text, of which some is written.
fn add_row<O: Sink>(
    alloc: Global,
    row: &AuditRow,
    text: &mut Vec<u8>,
    output: &mut O,
) -> Result<(), PrintFault>
    ensures ok { OnOk result (HasPrefix (sink_state O.written O.faults output.old)
        (sink_state O.written O.faults output.new)
        (text.old.items ++ row_text row.now) text.new.items) }
    ensures err { OnErr result (HasSomePrefix (sink_state O.written O.faults output.old)
        (sink_state O.written O.faults output.new)
        (text.old.items ++ row_text row.now)) }
    ensures cause { IfErr result (λ fault.
        HasPrintCause fault (sink_state O.written O.faults output.old)
        (sink_state O.written O.faults output.new)) }
    ensures later { O.faults output.old ≤ O.faults output.new }
{
    if let Err(_) = row_text(alloc, row, text) {
        return Err(PrintFault::NoMemory);
    }
    match drain(text, output) {
        Ok(()) => Ok(()),
        Err(_) => Err(PrintFault::Failed),
    }
}

/// The rows of an audit, handed out one after another, so that no list of them has to be kept.
pub trait Rows {
    /// The rows that are left.
    ghost left: { Self → List AuditRow };

    /// How many rows are left.
    fn count(&self) -> u64
        ensures { result ≡ length (left self.now) };

    /// The next row.
    ///
    /// - `ok`: None exactly where no row is left.
    /// - `want`: its only error is that there is no memory.
    fn next(&mut self, alloc: Global) -> Result<Option<AuditRow>, Memory>
        ensures ok { IfOk result (λ row. IsNextRow (left self.old) row (left self.new)) }
        ensures want { IsOkUnless result Memory.Want };
}

// Adds rows to the text, of which some is written.
fn add_rows<R: Rows, O: Sink>(
    alloc: Global,
    rows: &mut R,
    text: &mut Vec<u8>,
    output: &mut O,
) -> Result<(), PrintFault>
    ensures ok { OnOk result (HasPrefix (sink_state O.written O.faults output.old)
        (sink_state O.written O.faults output.new)
        (text.old.items ++ flat_map row_text (R.left rows.old)) text.new.items) }
    ensures err { OnErr result (HasSomePrefix (sink_state O.written O.faults output.old)
        (sink_state O.written O.faults output.new)
        (text.old.items ++ flat_map row_text (R.left rows.old))) }
    ensures cause { IfErr result (λ fault.
        HasPrintCause fault (sink_state O.written O.faults output.old)
        (sink_state O.written O.faults output.new)) }
    ensures later { O.faults output.old ≤ O.faults output.new }
{
    let count = rows.count();
    'rows: for _at in 0..count {
        let row = match rows.next(alloc) {
            Ok(Some(row)) => row,
            Ok(None) => return Ok(()),
            Err(_) => return Err(PrintFault::NoMemory),
        };
        match add_row(alloc, &row, text, output) {
            Ok(()) => {}
            Err(fault) => return Err(fault),
        }
    }
    Ok(())
}

/// Adds the audit of a queue to the text, of which some is written.
///
/// - `ok`: what stands in the text wasn't written, and all before it was.
/// - `err`: a prefix of the text and the audit was written.
/// - `cause`: `Failed` comes only at a counted fault of the sink, `NoMemory` at any time.
/// - `later`: the sink's count of faults doesn't fall.
pub fn add_audit<R: Rows, O: Sink>(
    alloc: Global,
    name: &Text,
    rows: &mut R,
    text: &mut Vec<u8>,
    output: &mut O,
) -> Result<(), PrintFault>
    ensures ok { OnOk result (HasPrefix (sink_state O.written O.faults output.old)
        (sink_state O.written O.faults output.new)
        (text.old.items ++ audit_text name.now 0 (R.left rows.old)) text.new.items) }
    ensures err { OnErr result (HasSomePrefix (sink_state O.written O.faults output.old)
        (sink_state O.written O.faults output.new)
        (text.old.items ++ audit_text name.now 0 (R.left rows.old))) }
    ensures cause { IfErr result (λ fault.
        HasPrintCause fault (sink_state O.written O.faults output.old)
        (sink_state O.written O.faults output.new)) }
    ensures later { O.faults output.old ≤ O.faults output.new }
{
    if let Err(_) = audit_head_text(alloc, name, Index(0), rows.count(), text) {
        return Err(PrintFault::NoMemory);
    }
    add_rows(alloc, rows, text, output)
}
