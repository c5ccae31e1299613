//! Laws of link credit.

ghost use Rattle.std.specs.Prelude.{List};
ghost use Rattle.qq_entry.specs.declared.queue.QueueArgs.{QueueArgs};
ghost use Rattle.qq_entry.specs.declared.command.Entry.{Entry};
ghost use Rattle.qq_model.specs.State.{State};
ghost use Rattle.qq_laws.specs.LinkCredit.{CreditsAreGiven, KeepsLinkCredit};

/// A link consumer is never delivered more than it gave credit for: what it was delivered so far, and
/// what it may still get, are together at most the greatest sum of count and credit that it sent (AMQP
/// 1.0, section 2.6.7).
pub fn link_credit_is_kept()
    ensures { (args : QueueArgs) (entries : List Entry) → KeepsLinkCredit args entries }
{}

/// A credit that isn't refused gives its consumer what it says, less what was delivered since, and one
/// that drains leaves none (AMQP 1.0, section 2.6.7).
pub fn credit_is_given()
    ensures { (s : State) (entry : Entry) → CreditsAreGiven s entry }
{}
