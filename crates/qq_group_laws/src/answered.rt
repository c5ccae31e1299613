//! Which row answers a command.
ghost use Rattle.std.specs.Prelude.{◌≡◌, ℕ, List, true, is_some};
ghost use Rattle.qq_entry.specs.Answers.{answer_after, is_answer};
ghost use Rattle.qq_entry.specs.declared.audit.AuditRow.{AuditRow};
ghost use Rattle.qq_entry.specs.declared.command.Command.{Command};
ghost use Rattle.qq_raft_protocol.specs.Facts.{In};

/// A law: where rows of an audit have one of a command after an index, `answer_after` finds one.
pub fn a_command_with_a_row_is_answered()
    ensures { (rows : List AuditRow) (row : AuditRow) (command : Command) (after : ℕ) →
        In row rows → is_answer command after row ≡ true →
        is_some (answer_after command after rows) ≡ true }
{}
