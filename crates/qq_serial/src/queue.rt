ghost use Rattle.std.specs.Prelude.{◌≡◌, ◌+◌, IfOk, IsOkUnless};
ghost use Rattle.std.specs.List.{list_all};
ghost use Rattle.qq_model.specs.State.{is_row_within, is_consumer_within, is_within_ends};
ghost use Rattle.qq_serial.specs.Views.{state_of};
ghost use Rattle.qq_serial.specs.declared.queue.Store.{Store};

use qq_base::{Memory, NUMBER_END};
use qq_entry::{Answer, Effect, Message, QueueArgs};
use qq_model::{Consumer, Row};
use qq_sessions::Sessions;
use std::alloc::Global;

/// What a step never copies: the queue's arguments, and its messages in the order of their rows.
#[derive(Drop)]
pub struct Store {
    pub args: QueueArgs,
    pub messages: Vec<Message>,
}

/// The rest of a queue's state.
#[derive(Drop)]
pub struct Queue {
    pub applied: u64,
    pub arrivals: u64,
    pub orders: u64,
    pub returns: u64,
    pub deads: u64,
    pub turns: u64,
    pub given: u64,
    pub attached: u64,
    pub rows: Vec<Row>,
    pub consumers: Vec<Consumer>,
    pub sessions: Sessions,
}

/// A queue while an entry is applied, and the effects so far.
#[derive(Drop)]
pub struct Draft {
    pub queue: Queue,
    pub effects: Vec<Effect>,
}

/// Whether an entry's command counted as fresh, and its answer.
#[derive(Drop)]
pub struct Made {
    pub fresh: bool,
    pub answer: Answer,
}

/// The number that follows. A step begins with numbers of at most 2^63 and raises none more often
/// than it finds things in memory, so the type's end is never met; if it were, memory would be out.
pub fn next_number(number: u64) -> Result<u64, Memory>
    ensures ok { IfOk result (λ next. next ≡ number + 1) }
    ensures want { IsOkUnless result Memory.Want }
{
    match number.checked_add(1) {
        Some(next) => Ok(next),
        None => Err(Memory::Want),
    }
}

impl Queue {
    /// The same queue.
    pub fn copy(&self, alloc: Global) -> Result<Queue, Memory>
        ensures ok { IfOk result (λ twin. (store : Store) → state_of store twin
            ≡ state_of store self.now) }
        ensures want { IsOkUnless result Memory.Want }
    {
        Ok(Queue {
            applied: self.applied,
            arrivals: self.arrivals,
            orders: self.orders,
            returns: self.returns,
            deads: self.deads,
            turns: self.turns,
            given: self.given,
            attached: self.attached,
            rows: Vec::from_slice(alloc, &self.rows)?,
            consumers: Vec::from_slice(alloc, &self.consumers)?,
            sessions: self.sessions.copy(alloc)?,
        })
    }

    /// Whether no number has passed its end.
    pub fn is_within_ends(&self) -> bool
        ensures { (store : Store) → result ≡ is_within_ends (state_of store self.now) }
    {
        self.applied <= NUMBER_END
            && self.arrivals <= NUMBER_END
            && self.orders <= NUMBER_END
            && self.returns <= NUMBER_END
            && self.deads <= NUMBER_END
            && self.turns <= NUMBER_END
            && are_rows_within(&self.rows)
            && are_consumers_within(&self.consumers)
            && self.sessions.are_within()
    }
}

fn are_rows_within(rows: &[Row]) -> bool
    ensures { result ≡ list_all is_row_within rows.now }
{
    rows.iter().all(|row| row.count <= NUMBER_END)
}

fn are_consumers_within(consumers: &[Consumer]) -> bool
    ensures { result ≡ list_all is_consumer_within consumers.now }
{
    consumers.iter().all(|consumer| consumer.next_id <= NUMBER_END && consumer.count <= NUMBER_END)
}
