//! The states of the listed queues.
ghost use Rattle.std.specs.Prelude.{◌≡◌, List, Some, None, IfOk, IfSome, IfNone, OnOk, IsOkUnless};
ghost use Rattle.std.specs.Ordering.{nat_cmp};
ghost use Rattle.std.specs.BTreeMap.{get};
ghost use Rattle.qq_base.specs.declared.ids.QueueId.{QueueId};
ghost use Rattle.qq_log.specs.Writable.{IsWritable as IsWritableOp, IsWritableCarry};
ghost use Rattle.qq_wal_record.specs.Record.{IsWritable};
ghost use Rattle.qq_wal_record.specs.declared.record.LogRecord.TheVariants.{Op as OpRecord, Carry as CarryRecord};
ghost use Rattle.qq_wal_chain.specs.Image.{put};
ghost use Rattle.qq_wal_chain.specs.Lanes.{add_record};
ghost use Rattle.qq_wal_chain.specs.Wal.{no_lanes};
ghost use Rattle.qq_recover.specs.Table.{set_row, lanes_of, Lists, Fit};

use crate::state::{State, state_with_carry, state_with_op};
use qq_base::{Memory, QueueId};
use qq_log::{Carry, Op};
use qq_wal_record::LogRecord;
use std::alloc::Global;
use std::collections::BTreeMap;

/// The states of the listed queues, by their numbers: each has a row, with a state once it has ops.
#[derive(Drop)]
pub(crate) struct Table {
    rows: BTreeMap<u32, Option<State>>,
}

fn add_row(rows: &mut BTreeMap<u32, Option<State>>, id: u32) -> Result<(), Memory>
    ensures ok { OnOk result
        (get nat_cmp rows.new ≡ set_row (get nat_cmp rows.old) id (Some None)) }
    ensures want { IsOkUnless result Memory.Want }
{
    rows.insert(id, None)?;
    Ok(())
}

impl Table {
    /// A row for each listed queue.
    pub(crate) fn new(alloc: Global, queues: &[QueueId]) -> Result<Self, Memory>
        ensures lists { IfOk result (λ table. Lists queues.now table) }
        ensures empty { IfOk result (λ table. lanes_of table ≡ no_lanes) }
        ensures want { IsOkUnless result Memory.Want }
    {
        let mut rows = BTreeMap::new(alloc);
        for i in 0..queues.len() {
            let queue = queues[i];
            add_row(&mut rows, queue.0)?;
        }
        Ok(Table { rows })
    }

    fn add_op(&mut self, alloc: Global, op: Op) -> Result<bool, Memory>
        requires { IsWritableOp op }
        ensures ok { (queues : List QueueId) → Lists queues self.old → IfOk result (λ fits.
            Fit fits (add_record queues (OpRecord op) (lanes_of self.old)) (lanes_of self.new)) }
        ensures lists { (queues : List QueueId) →
            Lists queues self.old → Lists queues self.new }
        ensures want { IsOkUnless result Memory.Want }
    {
        let Some(row) = self.rows.get_mut(&op.queue().0) else {
            return Ok(false);
        };
        match state_with_op(alloc, row.take(), op)? {
            None => Ok(false),
            Some(state) => {
                *row = Some(state);
                Ok(true)
            }
        }
    }

    fn add_carry(&mut self, alloc: Global, carry: &Carry) -> bool
        requires { IsWritableCarry carry.now }
        ensures fits { (queues : List QueueId) → Lists queues self.old →
            Fit result (add_record queues (CarryRecord carry.now) (lanes_of self.old))
            (lanes_of self.new) }
        ensures lists { (queues : List QueueId) →
            Lists queues self.old → Lists queues self.new }
    {
        let Some(row) = self.rows.get_mut(&carry.queue.0) else {
            return false;
        };
        match state_with_carry(alloc, row.take(), carry) {
            None => false,
            Some(state) => {
                *row = Some(state);
                true
            }
        }
    }

    /// Adds a record, and answers whether it fits into its lane.
    pub(crate) fn add(&mut self, alloc: Global, entry: LogRecord) -> Result<bool, Memory>
        requires { IsWritable entry }
        ensures ok { (queues : List QueueId) → Lists queues self.old → IfOk result (λ fits.
            Fit fits (add_record queues entry (lanes_of self.old)) (lanes_of self.new)) }
        ensures lists { (queues : List QueueId) →
            Lists queues self.old → Lists queues self.new }
        ensures want { IsOkUnless result Memory.Want }
    {
        match entry {
            LogRecord::Op(op) => self.add_op(alloc, op),
            LogRecord::Carry(carry) => Ok(self.add_carry(alloc, &carry)),
        }
    }

    /// A queue's state, None where it has no ops.
    pub(crate) fn state(&self, queue: QueueId) -> Option<&State>
        ensures some { IfSome result (λ state. lanes_of self.now queue.0 ≡ Some state.now) }
        ensures none { IfNone result (lanes_of self.now queue.0 ≡ None) }
    {
        match self.rows.get(&queue.0) {
            Some(Some(state)) => Some(state),
            _ => None,
        }
    }

    /// Takes a queue's state out.
    pub(crate) fn take(&mut self, queue: QueueId) -> Option<State>
        ensures state { result ≡ lanes_of self.old queue.0 }
        ensures rest { lanes_of self.new ≡ put (lanes_of self.old) queue.0 None }
    {
        match self.rows.get_mut(&queue.0) {
            Some(row) => row.take(),
            None => None,
        }
    }
}
