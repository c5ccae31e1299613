use qq_base::{Index, Memory};
use qq_entry::{Answer, Effects, Entry};
use std::alloc::Global;

/// A machine that a Raft server applies committed entries to (Ongaro's dissertation, section 2.1).
///
/// It may keep another form of state than its definition does. `Plain` is a machine whose value is the
/// definition's state, `step` is the definition, and `stands` says which states a machine stands for.
pub trait Queue: Drop + Sized {
    ghost use Rattle.std.specs.Prelude.{◌≡◌, ◌+◌, ℕ, IfOk, IfErr, OnOk, OnErr};
    ghost use Rattle.qq_base.specs.Causes.{SpentOnlyWhere};
    ghost use Rattle.qq_base.specs.declared.ids.Index.{Index};
    ghost use Rattle.qq_base.specs.declared.memory.TheConstants.{NUMBER_END};
    ghost use Rattle.qq_entry.specs.Range.{IsInRange};
    ghost use Rattle.qq_entry.specs.declared.command.Entry.{Entry};
    ghost use Rattle.qq_raft_msg.specs.Queue.{Applied, IsApplied};

    /// A machine whose value is the state of the definition.
    type Plain;

    /// What an entry at an index does to a state.
    ghost step: { Self.Plain → Index → Entry → Applied Self.Plain };

    /// Which entries at an index would raise a number past its end.
    ghost passes_end: { Self.Plain → Index → Entry → Type 0 };

    /// The least index that the state still needs the content of, one past the last applied where it needs
    /// none.
    ghost least: { Self.Plain → ℕ };

    /// The index of the last entry that was applied, 0 for none.
    ghost applied: { Self → ℕ };

    /// Which states the machine stands for.
    ghost stands: { Self.Plain → Self → Type 0 };

    /// Applies the next entry: whether its command counted as fresh, its answer, and its effects in order.
    /// `Spent` comes only where a number would pass its end. After an error the machine stays.
    fn apply(
        &mut self,
        alloc: Global,
        index: Index,
        entry: &Entry,
    ) -> Result<(bool, Answer, Effects), Memory>
        requires next { index.0 ≡ applied self.old + 1 }
        requires range { IsInRange entry.now }

        ensures ok { IfOk result (λ made. (plain : Self.Plain) → stands plain self.old →
            IsApplied stands (step plain index entry.now) made self.new) }
        ensures count { OnOk result (applied self.new ≡ index.0) }
        ensures err { OnErr result (self.new ≡ self.old) }
        ensures cause { IfErr result (λ e. (plain : Self.Plain) → stands plain self.old →
            SpentOnlyWhere e NUMBER_END (passes_end plain index entry.now)) };

    /// The least index that is still needed: of a message that isn't gone, or of one that a kept answer
    /// names. One past the last applied where there is none; an index is at most 2^64 - 1, so behind that one
    /// it is the answer.
    fn low(&self) -> Index
        ensures { (plain : Self.Plain) → stands plain self.now → result.0 ≡ least plain };
}
