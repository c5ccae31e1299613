//! The first bytes of a file.
ghost use Rattle.std.specs.Prelude.{◌≡◌, ◌++◌, List, length, map, option_to_list, IfOk, OnOk, IsOkUnless, IfSome};
ghost use Rattle.std.specs.List.{AllByRecursion};
ghost use Rattle.qq_base.specs.declared.ids.QueueId.{QueueId};
ghost use Rattle.qq_wal_chain.specs.Laws.{first_bytes};
ghost use Rattle.qq_wal_record.specs.declared.record.LogRecord.TheVariants.{Carry as CarryRecord};
ghost use Rattle.qq_wal_chain.specs.Wal.{Ours, RecordFits};
ghost use Rattle.qq_wal.specs.Batch.{encodings};
ghost use Rattle.qq_wal.specs.Marks.{HasCarry, carries_in};
ghost use Rattle.qq_wal.specs.Wal.{first_length};

use crate::batch::put_carry_record;
use crate::marks::Mark;
use qq_base::Memory;
use qq_wal_record::{Header, write_header};
use std::alloc::Global;

/// Adds a record of a queue's carry, where it has one.
fn put_carry(file: u64, mark: &Mark, out: &mut Vec<u8>) -> Result<(), Memory>
    requires { HasCarry mark.now }
    ensures ok { OnOk result (out.new.items
        ≡ out.old.items ++ encodings file (map CarryRecord (option_to_list mark.now.carry))) }
    ensures fits { OnOk result (
        AllByRecursion (RecordFits file) (map CarryRecord (option_to_list mark.now.carry))) }
    ensures want { IsOkUnless result Memory.Want }
{
    match &mark.carry {
        None => Ok(()),
        Some(carry) => put_carry_record(file, carry, out),
    }
}

/// Adds a record of each carry.
fn put_carries(file: u64, marks: &[Mark], out: &mut Vec<u8>) -> Result<(), Memory>
    requires { AllByRecursion HasCarry marks.now }
    ensures ok { OnOk result (out.new.items
        ≡ out.old.items ++ encodings file (map CarryRecord (carries_in marks.now))) }
    ensures fits { OnOk result (
        AllByRecursion (RecordFits file) (map CarryRecord (carries_in marks.now))) }
    ensures want { IsOkUnless result Memory.Want }
{
    'marks: for mark in marks {
        put_carry(file, mark, out)?;
    }
    Ok(())
}

/// The first bytes of a file: its header, and the carries of the queues that have one.
pub(crate) fn first_bytes(alloc: Global, header: Header, marks: &[Mark]) -> Result<Vec<u8>, Memory>
    requires { AllByRecursion HasCarry marks.now }
    ensures ok { (queues : List QueueId) → IfOk result (λ bytes. bytes.items ≡
        first_bytes queues header.file (Ours header) (map CarryRecord (carries_in marks.now))) }
    ensures length { IfOk result (λ bytes. length bytes.items ≡ first_length header marks.now) }
    ensures fits { OnOk result (
        AllByRecursion (RecordFits header.file) (map CarryRecord (carries_in marks.now))) }
    ensures want { IsOkUnless result Memory.Want }
{
    let mut bytes = Vec::new(alloc);
    write_header(&header, &mut bytes)?;
    put_carries(header.file, marks, &mut bytes)?;
    Ok(bytes)
}
