ghost use Rattle.std.specs.Prelude.{◌≡◌, ◌+◌, ◌^◌, ◌≤◌, IsTrue, OnOk, OnErr, IfOk, IfErr, false};

use crate::queue::{Draft, Queue, Store};
use crate::step::step;
use qq_base::{Index, Memory, NUMBER_END};
use qq_entry::{Answer, Effect, Entry, QueueArgs};
use qq_sessions::Sessions;
use std::alloc::Global;
use std::marker::Model;
use std::mem;

/// A queue that computes each step of the definition plainly, over all messages that it ever had.
#[derive(Drop)]
pub struct Serial {
    store: Store,
    queue: Queue,
}

impl Model for Serial {
    ghost use Rattle.std.specs.Prelude.{IsTrue};
    ghost use Rattle.qq_model.specs.State.{State, is_within_ends};
    ghost use Rattle.qq_serial.specs.Views.{state_of};

    ghost Value = { State };

    ghost view = { λ s. state_of s.store s.queue };

    ghost invariant = { λ s. IsTrue (is_within_ends (state_of s.store s.queue)) };
}

impl Serial {
    ghost use Rattle.qq_base.specs.Causes.{SpentOnlyWhere};
    ghost use Rattle.qq_model.specs.State.{empty_queue, is_within_ends};
    ghost use Rattle.qq_model.specs.Step.{step};

    /// The queue to which no entry was applied. It takes no memory.
    pub fn new(alloc: Global, args: QueueArgs) -> Self
        ensures { result ≡ empty_queue args }
    {
        Serial {
            store: Store {
                args,
                messages: Vec::new(alloc),
            },
            queue: Queue {
                applied: 0,
                arrivals: 0,
                orders: 0,
                returns: 0,
                deads: 0,
                turns: 0,
                given: 0,
                attached: 0,
                rows: Vec::new(alloc),
                consumers: Vec::new(alloc),
                sessions: Sessions::new(alloc),
            },
        }
    }

    /// The index of the last entry that was applied, 0 for none. It is at most 2^63.
    pub fn applied(&self) -> u64
        ensures value { result ≡ self.now.applied }
        ensures bound { result ≤ 2 ^ 63 }
    {
        self.queue.applied
    }

    /// Applies the next entry: whether its command counted as fresh, its answer, and its effects in
    /// order. `Spent` comes where a number would pass its end. After an error the queue stays.
    pub fn step(
        &mut self,
        alloc: Global,
        index: Index,
        entry: &Entry,
    ) -> Result<(bool, Answer, Vec<Effect>), Memory>
        requires next { index.0 ≡ self.old.applied + 1 }

        ensures ok { IfOk result (λ made. step self.old index entry.now ≡ record {
          state = self.new;
          fresh = made.0;
          answer = made.1;
          effects = made.2.items;
        }) }
        ensures within { OnOk result (IsTrue (is_within_ends self.new)) }
        ensures err { OnErr result (self.new ≡ self.old) }
        ensures cause { IfErr result (λ e. SpentOnlyWhere e NUMBER_END
            (is_within_ends (step self.old index entry.now).state ≡ false)) }
    {
        let before = self.store.messages.len();
        match step(alloc, &mut self.store, &self.queue, index, entry) {
            Err(stop) => {
                self.store.messages.truncate(before);
                Err(stop)
            }
            Ok((draft, made)) => {
                if !draft.queue.is_within_ends() {
                    self.store.messages.truncate(before);
                    drop(draft);
                    drop(made);
                    return Err(Memory::Spent { number: NUMBER_END });
                }
                let Draft { queue, effects } = draft;
                drop(mem::replace(&mut self.queue, queue));
                Ok((made.fresh, made.answer, effects))
            }
        }
    }
}
