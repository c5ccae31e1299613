//! Writing a record.
ghost use Rattle.std.specs.Prelude.{◌≡◌, ◌++◌, ◌+◌, ◌<◌, ◌^◌, length, All, OnOk, OnErr, IsOkUnless};
ghost use Rattle.qq_base.specs.Fronts.{IsFront as IsPrefix};
ghost use Rattle.qq_fields.specs.Writing.{u64};
ghost use Rattle.qq_entry.specs.Range.{IsWritable as IsEntry};
ghost use Rattle.qq_command.specs.Encoding.{entries};
ghost use Rattle.qq_log.specs.Writable.{IsSegment, IsWritable as IsWritableOp, IsWritableCarry};
ghost use Rattle.qq_wal_record.specs.Encoding.{vote, head, segment, segments, change_payload, op_payload, carry_payload, inside, body, record_encoding};
ghost use Rattle.qq_wal_record.specs.declared.record.LogRecord.TheVariants.{Op as OpRecord, Carry as CarryRecord};

use crate::mark::record_mark;
use crate::record::{CARRY, HEAD_LEN, NoRecord, op_kind};
use qq_base::{Index, Memory, NodeId, Term, put_u8, put_u32, put_u64};
use qq_command::{Entry, put_entries};
use qq_fields::{put_list, set_length};
use qq_log::{Carry, Op, SnapshotHead, Span};

fn put_vote(out: &mut Vec<u8>, node: Option<NodeId>) -> Result<(), Memory>
    ensures ok { OnOk result (out.new.items ≡ out.old.items ++ vote node) }
    ensures err { OnErr result (out.new.items ≡ out.old.items) }
    ensures want { IsOkUnless result Memory.Want }
{
    match node {
        None => put_u8(out, 0),
        Some(node) => put_u8(out, node.0),
    }
}

#[tactic(auto, using(qq_fields::proofs::Appends::prefix_rules), unfolding(crate::specs::Encoding::head))]
fn put_head(out: &mut Vec<u8>, snapshot: &SnapshotHead) -> Result<(), Memory>
    ensures ok { OnOk result (out.new.items ≡ out.old.items ++ head snapshot.now) }
    ensures err { OnErr result (IsPrefix out.old.items out.new.items) }
    ensures want { IsOkUnless result Memory.Want }
{
    put_u64(out, snapshot.index.0)?;
    put_u64(out, snapshot.term.0)?;
    put_u64(out, snapshot.through.0)
}

#[tactic(auto, using(qq_fields::proofs::Appends::prefix_rules), unfolding(crate::specs::Encoding::segment))]
pub fn put_segment(out: &mut Vec<u8>, span: &Span) -> Result<(), Memory>
    ensures ok { OnOk result (out.new.items ≡ out.old.items ++ segment span.now) }
    ensures err { OnErr result (IsPrefix out.old.items out.new.items) }
    ensures want { IsOkUnless result Memory.Want }
{
    put_u64(out, span.file)?;
    put_u64(out, span.first.0)?;
    put_u64(out, span.last.0)
}

#[tactic(auto, unfolding(crate::specs::Encoding::segments))]
fn put_segments(out: &mut Vec<u8>, spans: &[Span]) -> Result<(), Memory>
    requires count { length spans.now < 2 ^ 32 }
    requires each { All IsSegment spans.now }
    ensures ok { OnOk result (out.new.items ≡ out.old.items ++ segments spans.now) }
    ensures err { OnErr result (IsPrefix out.old.items out.new.items) }
    ensures want { IsOkUnless result Memory.Want }
{
    put_list::<NoRecord, _>(out, spans)
}

#[tactic(auto, using(qq_fields::proofs::Appends::prefix_rules), unfolding(crate::specs::Encoding::change_payload))]
fn put_change(
    out: &mut Vec<u8>,
    term: Term,
    by: Option<NodeId>,
    keep: Index,
    list: &[Entry],
) -> Result<(), Memory>
    requires each { All IsEntry list.now }
    requires count { length list.now < 2 ^ 32 }
    ensures ok { OnOk result
        (out.new.items ≡ out.old.items ++ change_payload term by keep list.now) }
    ensures err { OnErr result (IsPrefix out.old.items out.new.items) }
    ensures want { IsOkUnless result Memory.Want }
{
    put_u64(out, term.0)?;
    put_vote(out, by)?;
    put_u64(out, keep.0)?;
    put_entries(out, list)?;
    Ok(())
}

#[tactic(auto, using(qq_fields::proofs::Appends::prefix_rules))]
fn put_snapshot(out: &mut Vec<u8>, snapshot: &SnapshotHead, file: u64) -> Result<(), Memory>
    ensures ok { OnOk result (out.new.items ≡ out.old.items ++ (head snapshot.now ++ u64 file)) }
    ensures err { OnErr result (IsPrefix out.old.items out.new.items) }
    ensures want { IsOkUnless result Memory.Want }
{
    put_head(out, snapshot)?;
    put_u64(out, file)
}

fn put_op(out: &mut Vec<u8>, op: &Op) -> Result<(), Memory>
    requires { IsWritableOp op.now }
    ensures ok { OnOk result (out.new.items ≡ out.old.items ++ op_payload op.now) }
    ensures err { OnErr result (IsPrefix out.old.items out.new.items) }
    ensures want { IsOkUnless result Memory.Want }
{
    match op {
        Op::Change {
            term,
            vote,
            keep,
            entries,
            ..
        } => put_change(out, *term, *vote, *keep, entries.as_slice()),
        Op::SnapshotMade { head, file, .. } => put_snapshot(out, head, *file),
        Op::SegmentMade {
            file,
            first,
            last,
            ..
        } => put_segment(
            out,
            &Span {
                file: *file,
                segment: true,
                first: *first,
                last: *last,
            },
        ),
    }
}

#[tactic(auto, using(qq_fields::proofs::Appends::prefix_rules), unfolding(crate::specs::Encoding::carry_payload))]
fn put_carry(out: &mut Vec<u8>, carry: &Carry) -> Result<(), Memory>
    requires { IsWritableCarry carry.now }
    ensures ok { OnOk result (out.new.items ≡ out.old.items ++ carry_payload carry.now) }
    ensures err { OnErr result (IsPrefix out.old.items out.new.items) }
    ensures want { IsOkUnless result Memory.Want }
{
    put_u64(out, carry.term.0)?;
    put_vote(out, carry.vote)?;
    put_head(out, &carry.base)?;
    put_u64(out, carry.snapshot)?;
    put_segments(out, carry.segments.as_slice())?;
    put_u64(out, carry.last.0)
}

/// What follows the length of an op's payload.
#[tactic(auto, using(qq_fields::proofs::Appends::prefix_rules), unfolding(crate::specs::Encoding::inside))]
fn put_op_inside(out: &mut Vec<u8>, op: &Op) -> Result<(), Memory>
    requires { IsWritableOp op.now }
    ensures ok { OnOk result (out.new.items ≡ out.old.items ++ inside (OpRecord op.now)) }
    ensures err { OnErr result (IsPrefix out.old.items out.new.items) }
    ensures want { IsOkUnless result Memory.Want }
{
    put_u8(out, op_kind(op))?;
    put_u32(out, op.queue().0)?;
    put_u64(out, op.number())?;
    put_op(out, op)?;
    Ok(())
}

/// Adds an op's record before its mark. Its payload's length is set when its payload stands there.
#[tactic(auto, using(qq_fields::proofs::Appends::prefix_rules), unfolding(crate::specs::Encoding::body))]
pub fn put_op_body(out: &mut Vec<u8>, op: &Op) -> Result<(), Memory>
    requires { IsWritableOp op.now }
    ensures ok { OnOk result (out.new.items ≡ out.old.items ++ body (OpRecord op.now)) }
    ensures err { OnErr result (IsPrefix out.old.items out.new.items) }
    ensures want { IsOkUnless result Memory.Want }
{
    let place = out.len();
    put_u32(out, 0)?;
    put_op_inside(out, op)?;
    let length = (out.len() - place - HEAD_LEN) as u32;
    set_length(out, place, length);
    Ok(())
}

/// What follows the length of a carry's payload.
#[tactic(auto, using(qq_fields::proofs::Appends::prefix_rules), unfolding(crate::specs::Encoding::inside))]
fn put_carry_inside(out: &mut Vec<u8>, carry: &Carry) -> Result<(), Memory>
    requires { IsWritableCarry carry.now }
    ensures ok { OnOk result (out.new.items ≡ out.old.items ++ inside (CarryRecord carry.now)) }
    ensures err { OnErr result (IsPrefix out.old.items out.new.items) }
    ensures want { IsOkUnless result Memory.Want }
{
    put_u8(out, CARRY)?;
    put_u32(out, carry.queue.0)?;
    put_u64(out, carry.op)?;
    put_carry(out, carry)?;
    Ok(())
}

/// Adds a carry's record before its mark.
#[tactic(auto, using(qq_fields::proofs::Appends::prefix_rules), unfolding(crate::specs::Encoding::body))]
fn put_carry_body(out: &mut Vec<u8>, carry: &Carry) -> Result<(), Memory>
    requires { IsWritableCarry carry.now }
    ensures ok { OnOk result (out.new.items ≡ out.old.items ++ body (CarryRecord carry.now)) }
    ensures err { OnErr result (IsPrefix out.old.items out.new.items) }
    ensures want { IsOkUnless result Memory.Want }
{
    let place = out.len();
    put_u32(out, 0)?;
    put_carry_inside(out, carry)?;
    let length = (out.len() - place - HEAD_LEN) as u32;
    set_length(out, place, length);
    Ok(())
}

#[tactic(auto, using(qq_fields::proofs::Appends::prefix_rules), unfolding(crate::specs::Encoding::record_encoding))]
fn put_carry_record(out: &mut Vec<u8>, file: u64, carry: &Carry) -> Result<(), Memory>
    requires { IsWritableCarry carry.now }
    ensures ok { OnOk result
        (out.new.items ≡ out.old.items ++ record_encoding file (CarryRecord carry.now)) }
    ensures err { OnErr result (IsPrefix out.old.items out.new.items) }
    ensures want { IsOkUnless result Memory.Want }
{
    let place = out.len();
    put_carry_body(out, carry)?;
    let mark = record_mark(file, out.as_slice().split_at(place).1);
    out.extend_from_slice(&mark)?;
    Ok(())
}

/// Adds the encoding of a carry's record in the file of this number at the end of `out`. Out of memory, `out` is
/// as before.
pub fn write_carry(file: u64, carry: &Carry, out: &mut Vec<u8>) -> Result<(), Memory>
    requires { IsWritableCarry carry.now }
    ensures ok { OnOk result
        (out.new.items ≡ out.old.items ++ record_encoding file (CarryRecord carry.now)) }
    ensures err { OnErr result (out.new.items ≡ out.old.items) }
    ensures want { IsOkUnless result Memory.Want }
{
    let len = out.len();
    let result = put_carry_record(out, file, carry);
    if result.is_err() {
        out.truncate(len);
    }
    result
}
