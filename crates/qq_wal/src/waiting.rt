//! What waits for an append.
ghost use Rattle.std.specs.Prelude.{◌≡◌, ◌<◌, ◌++◌, ◌∷◌, [], drop, length, slice_index_or, IfErr, IfSome, IfNone, OnOk, OnErr};
ghost use Rattle.qq_wal_record.specs.declared.record.LogRecord.TheVariants.{Op as OpRecord};
ghost use Rattle.qq_wal.specs.Batch.{AllFitBatch, FitsBatch};

use qq_log::Op;
use std::alloc::Global;
use std::collections::VecDeque;
use std::marker::Model;

/// The ops that were gathered and aren't appended yet, in their order. Contracts see the records that are written of
/// them.
#[derive(Drop)]
pub(crate) struct Waiting {
    ops: VecDeque<Op>,
}

impl Model for Waiting {
    ghost use Rattle.qq_wal_chain.specs.Laws.{op_records};
    ghost use Rattle.qq_wal.specs.Waiting.{WaitingRecords};

    ghost Value = { WaitingRecords };

    ghost view = { λ w. record { items = op_records w.ops.items } };
}

impl Waiting {
    /// Nothing waits. It takes no memory.
    pub(crate) fn new(alloc: Global) -> Self
        ensures items { result.items ≡ [] }
    {
        Waiting {
            ops: VecDeque::new(alloc),
        }
    }

    pub(crate) fn len(&self) -> usize
        ensures { result ≡ length self.now.items }
    {
        self.ops.len()
    }

    /// The op at a place, which fits into a batch where all do.
    pub(crate) fn op_at(&self, place: usize) -> &Op
        requires { place < length self.now.items }
        ensures lookup { OpRecord result.now
            ≡ slice_index_or self.now.items place (OpRecord result.now) }
        ensures fits { AllFitBatch self.now.items → FitsBatch (OpRecord result.now) }
    {
        &self.ops[place]
    }

    /// Adds an op at the end. Out of memory it is handed back.
    pub(crate) fn push(&mut self, op: Op) -> Result<(), Op>
        ensures items { OnOk result (self.new.items ≡ self.old.items ++ OpRecord op ∷ []) }
        ensures err { OnErr result (self.new.items ≡ self.old.items) }
        ensures back { IfErr result (λ back. back ≡ op) }
    {
        if self.ops.reserve(1).is_err() {
            return Err(op);
        }
        self.ops.push_back_reserved(op);
        Ok(())
    }

    /// Takes the first op.
    pub(crate) fn pop(&mut self) -> Option<Op>
        ensures rest { self.new.items ≡ drop 1 self.old.items }
        ensures lookup { IfSome result (λ op. OpRecord op
            ≡ slice_index_or self.old.items 0 (OpRecord op)) }
        ensures none { IfNone result (length self.old.items ≡ 0) }
    {
        self.ops.pop_front()
    }
}
