//! What was moved, as a law: the function does nothing, and its contract is the law.
ghost use Rattle.std.specs.Prelude.{◌≡◌, [], ℕ, List};
ghost use Rattle.qq_base.specs.declared.ids.QueueId.{QueueId};
ghost use Rattle.qq_base.specs.declared.ids.SessionId.{SessionId};
ghost use Rattle.qq_entry.specs.declared.answer.Delivery.{Delivery};
ghost use Rattle.qq_entry.specs.declared.audit.AuditRow.{AuditRow};
ghost use Rattle.qq_shovel.specs.Moved.{AreKept, Deed, Moved};

/// A law, over every list of deliveries that arrive and rows that are shown, in any order, with repeats and losses:
/// where both brokers keep what they promise, each delivery that its session has settled at the source stands in the
/// target's audit, under its id as the number, with its message, and confirmed. The audits are those of any moment, so
/// that is so after a crash of either broker.
pub fn what_was_settled_stands_confirmed()
    ensures { (here there : QueueId) (session : SessionId) (prefetch : ℕ) (deeds : List Deed)
        (deliveries : List Delivery) (source target : List AuditRow) →
        AreKept session deeds (record {
          source = here;
          target = there;
          session = session;
          prefetch = prefetch;
          had = 0;
          opened = [];
        }) deliveries source target →
        Moved session deliveries source target }
{}
