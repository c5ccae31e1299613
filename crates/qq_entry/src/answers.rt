ghost use Rattle.std.specs.Prelude.{◌≡◌};
ghost use Rattle.std.specs.Option.{option_copied};
ghost use Rattle.qq_entry.specs.Answers.{answer_after, is_answer, number, same_giver, same_number};

use crate::{AuditRow, Command};
use qq_base::{Index, SessionId};

/// A command's number in its session.
fn number(command: &Command) -> Option<u64>
    ensures { result ≡ number command.now }
{
    match command.stamp() {
        None => None,
        Some(stamp) => Some(stamp.seq),
    }
}

fn same_giver(a: Option<SessionId>, b: Option<SessionId>) -> bool
    ensures { result ≡ same_giver a b }
{
    match (a, b) {
        (Some(a), Some(b)) => a == b,
        _ => false,
    }
}

fn same_number(a: Option<u64>, b: Option<u64>) -> bool
    ensures { result ≡ same_number a b }
{
    match (a, b) {
        (Some(a), Some(b)) => a == b,
        (None, None) => true,
        _ => false,
    }
}

fn is_answer(command: &Command, after: Index, row: &AuditRow) -> bool
    ensures { result ≡ is_answer command.now after.0 row.now }
{
    let other = row.entry.command.get();
    after.0 < row.index.0
        && same_giver(command.session(), other.session())
        && same_number(number(command), number(other))
}

/// The first row of an audit behind an index with a command's session and number; of a session's end the
/// first one of that session. None exactly where there is none, as of a command that no session gave.
pub fn answer_after<'a>(
    rows: &'a [AuditRow],
    command: &Command,
    after: Index,
) -> Option<&'a AuditRow>
    ensures { option_copied result ≡ answer_after command.now after.0 rows.now }
{
    'rows: for at in 0..rows.len() {
        if is_answer(command, after, &rows[at]) {
            return Some(&rows[at]);
        }
    }
    None
}
