//! The marks of a node's log: how far each queue's ops are synced, for all threads to see.
ghost use Rattle.std.specs.Prelude.{◌≡◌, ◌+◌, ◌<◌, ◌≤◌, true, IfOk, IsOk, IsOkUnless, replicate, slice_index};
ghost use Rattle.qq_base.specs.declared.memory.Memory.TheVariants.{Want};
ghost use Rattle.qq_inbox.specs.Marks.{reading, words, IsSeatOf};
ghost use Rattle.qq_inbox.specs.Seats.{AtMost, first_seat, raised_to, looked, reader, joined_seat, bit};
ghost use Rattle.qq_inbox.specs.declared.seat.TheConstants.{STOP};

use crate::seat::{Check, Look, Marking, Raise, STOP, SeatView, Tell};
use atomic_table::{Seat, Table};
use qq_base::{Memory, QueueId};
use qq_log::Synced;
use std::alloc::Global;

/// How far each queue's ops are synced, and whether the log is stopped. Threads share it by reference, and
/// no call waits for another.
#[derive(Drop)]
pub struct Marks {
    table: Table<(), SeatView, usize, Marking, Global>,
}

/// A thread's right to marks, and what it knows of them. It has no bytes.
pub type MarkSeat = Seat<(), SeatView>;

/// Marks for so many queues, all at 0, and the seat that may raise them.
pub fn new_marks(alloc: Global, queues: usize) -> Result<(Marks, MarkSeat), Memory>
    ensures words { IfOk result (λ made. words made.0 ≡ queues + 1) }
    ensures seat { IfOk result (λ made. IsSeatOf made.0 made.1) }
    ensures reading { IfOk result (λ made. reading made.1 ≡ first_seat (queues + 1)) }
    ensures want { IsOkUnless result Want }
{
    // No memory has room for so many words.
    let Some(count) = queues.checked_add(1) else {
        return Err(Memory::Want);
    };
    let words = zeros(alloc, count)?;
    let (table, seat) = Table::of_words(alloc, words.as_slice(), &count)?;
    Ok((Marks { table }, seat))
}

fn zeros(alloc: Global, count: usize) -> Result<Vec<u64>, Memory>
    ensures ok { IfOk result (λ words. words.items ≡ replicate count 0) }
    ensures want { IsOkUnless result Want }
{
    Ok(Vec::from_elem(alloc, 0, count)?)
}

impl Marks {
    /// Marks that a queue's ops are synced up to this one. The log has synced it.
    pub fn raise<S: Synced>(&self, seat: &mut MarkSeat, log: &S, queue: QueueId, op: u64)
        requires seat { IsSeatOf self.now seat.old }
        requires right { (reading seat.old).raises ≡ true }
        requires queue { (0 < queue.0) × (queue.0 < words self.now) }
        requires synced { op ≤ S.synced_op log.now queue }
        ensures seat { IsSeatOf self.now seat.new }
        ensures raised { reading seat.new ≡ raised_to (reading seat.old) queue.0 op }
    {
        self.table
            .shared
            .fetch_max::<Raise>(seat, queue.0 as usize, op);
    }

    /// The last op of a queue that is marked as synced, 0 where none is. It never falls for a seat.
    pub fn seen(&self, seat: &mut MarkSeat, queue: QueueId) -> u64
        requires seat { IsSeatOf self.now seat.old }
        requires queue { (0 < queue.0) × (queue.0 < words self.now) }
        ensures seat { IsSeatOf self.now seat.new }
        ensures seen { reading seat.new ≡ looked (reading seat.old) queue.0 result }
        ensures rises { slice_index (reading seat.old).seen queue.0 ≤ result }
        ensures own { (reading seat.old).raises ≡ true →
            result ≡ slice_index (reading seat.old).raised queue.0 }
    {
        self.table.shared.load::<Look>(seat, queue.0 as usize)
    }

    /// Marks that the log is stopped.
    pub fn stop<S: Synced>(&self, seat: &mut MarkSeat, log: &S)
        requires seat { IsSeatOf self.now seat.old }
        requires right { (reading seat.old).raises ≡ true }
        requires stopped { S.is_stopped log.now ≡ true }
        ensures seat { IsSeatOf self.now seat.new }
        ensures raised { reading seat.new ≡ raised_to (reading seat.old) STOP 1 }
    {
        self.table.shared.fetch_max::<Raise>(seat, STOP, 1);
    }

    /// Whether the log is marked as stopped. Once it is so for a seat it stays so.
    pub fn stopped(&self, seat: &mut MarkSeat) -> bool
        requires { IsSeatOf self.now seat.old }
        ensures seat { IsSeatOf self.now seat.new }
        ensures seen { reading seat.new ≡ looked (reading seat.old) STOP (bit result) }
        ensures rises { slice_index (reading seat.old).seen STOP ≤ bit result }
        ensures own { (reading seat.old).raises ≡ true →
            bit result ≡ slice_index (reading seat.old).raised STOP }
    {
        self.table.shared.load::<Look>(seat, STOP) > 0
    }

    /// A seat that may look, and has seen what this one has. It is never refused.
    pub fn split(&self, seat: &mut MarkSeat) -> Result<MarkSeat, Memory>
        requires { IsSeatOf self.now seat.old }
        ensures ok { IsOk result }
        ensures seat { IsSeatOf self.now seat.new }
        ensures same { reading seat.new ≡ reading seat.old }
        ensures other { IfOk result (λ other. IsSeatOf self.now other) }
        ensures reader { IfOk result (λ other. reading other ≡ reader (reading seat.old)) }
    {
        Ok(self.table.shared.split_seat::<Tell>(seat))
    }

    /// Gives a seat what another may do and has seen. Where it may raise, it is known that no answer to
    /// either of them was above what was raised, and that no stop was seen that wasn't made.
    pub fn join(&self, seat: &mut MarkSeat, other: MarkSeat)
        requires seat { IsSeatOf self.now seat.old }
        requires other { IsSeatOf self.now other }
        ensures seat { IsSeatOf self.now seat.new }
        ensures reading { reading seat.new ≡ joined_seat (reading seat.old) (reading other) }
        ensures answers { (reading seat.new).raises ≡ true →
            AtMost (reading seat.old).seen (reading seat.new).raised
            × AtMost (reading other).seen (reading seat.new).raised }
    {
        self.table.shared.join_seat::<Tell>(seat, other);
        self.table.shared.load::<Check>(seat, STOP);
    }
}
