ghost use Rattle.std.specs.Prelude.{◌≡◌, ◌+◌, ◌-◌, ◌<◌, ◌^◌, [], min, false, length, count_by, IsTrue, IfOk, IfErr, IsOkUnless, OnOk, OnErr};
ghost use Rattle.qq_base.specs.Causes.{SpentOnlyWhere};
ghost use Rattle.qq_base.specs.declared.memory.TheConstants.{NUMBER_END};
ghost use Rattle.qq_laws.specs.Far.{IsReached};
ghost use Rattle.qq_entry.specs.Range.{IsInRange};
ghost use Rattle.qq_model.specs.State.{State, is_within_ends};
ghost use Rattle.qq_model.specs.Sound.{IsSound};
ghost use Rattle.qq_model.specs.Audit.{next_step};
ghost use Rattle.qq_entry.specs.declared.queue.QueueArgs.{QueueArgs};
ghost use Rattle.qq_parts.specs.Parts.{Stands, IsWhole};
ghost use Rattle.qq_parts.specs.Step.{new_parts, parts_step, StepsFor};
ghost use Rattle.qq_machine.specs.Views.{parts_of, parts_in, content_of, base_of, IsCommitted};
ghost use Rattle.qq_ledger.specs.Low.{low, parts_low};
ghost use Rattle.qq_machine.specs.Reads.{is_current, fetched};
ghost use Rattle.qq_parts.specs.Reads.{ready_items};
ghost use Rattle.qq_consumer.specs.Roster.{one_of};

use crate::counted::Counted;
use crate::gated::Gated;
use crate::least::least_index;
use crate::queue::{Draft, Queue, Saved};
use crate::reads::{current_count, to_u32};
use qq_base::{ConsumerId, Duplicate, Index, Memory, both};
use qq_consumer::Consumers;
use qq_dead::Dead;
use qq_entry::{Answer, Delivery, Effect, Entry, QueueArgs};
use qq_ledger::Tracked;
use qq_live::Live;
use qq_ready::Ready;
use qq_sessions::Sessions;
use std::alloc::Global;
use std::marker::Model;
use std::mem;

/// A queue that keeps lists of its live messages alone.
///
/// Contracts see the parts of a queue.
#[derive(Drop)]
pub struct Machine {
    args: QueueArgs,
    draft: Draft,
    // The indices of the messages of the queue as it was at the last commit.
    live: Live,
}

impl Model for Machine {
    ghost use Rattle.std.specs.Prelude.{◌≡◌, []};
    ghost use Rattle.qq_parts.specs.Parts.{Parts};
    ghost use Rattle.qq_machine.specs.Views.{parts_of, content_of, IsCommitted};
    ghost use Rattle.qq_machine.specs.Least.{HoldsAll};

    ghost Value = { Parts };

    ghost view = { λ m. parts_of m.args m.draft.queue };

    ghost invariant = { λ m. IsCommitted m.draft.queue × (m.draft.effects.items ≡ [])
        × HoldsAll m.live.indices (content_of m.draft.queue) };
}

fn copy_live(alloc: Global, live: &Live) -> Result<Live, Memory>
    ensures ok { IfOk result (λ twin. twin.indices ≡ live.now.indices) }
    ensures want { IsOkUnless result Memory.Want }
{
    live.copy(alloc)
}

impl Queue {
    fn new(alloc: Global) -> Self
        ensures parts { (args : QueueArgs) → parts_of args result ≡ new_parts args }
        ensures committed { IsCommitted result }
    {
        Queue {
            applied: 0,
            arrivals: 0,
            saved: Saved {
                applied: 0,
                arrivals: 0,
            },
            sessions: Gated::new(alloc),
            ready: Tracked::over(alloc, Ready::new(alloc)),
            consumers: Counted::new(alloc),
            dead: Tracked::over(alloc, Dead::new(alloc)),
        }
    }

    /// What was changed since the last commit stays. It takes no memory, and costs what was changed.
    fn commit(&mut self)
        ensures content { content_of self.new ≡ content_of self.old }
        ensures committed { IsCommitted self.new }
    {
        self.saved = Saved {
            applied: self.applied,
            arrivals: self.arrivals,
        };
        self.sessions.commit();
        self.ready.commit();
        self.consumers.commit();
        self.dead.commit();
    }

    /// The queue is as it was at the last commit. It takes no memory, and costs what was changed.
    fn undo(&mut self)
        ensures content { content_of self.new ≡ base_of self.old }
        ensures committed { IsCommitted self.new }
    {
        self.applied = self.saved.applied;
        self.arrivals = self.saved.arrivals;
        self.sessions.undo();
        self.ready.undo();
        self.consumers.undo();
        self.dead.undo();
    }

    /// The same queue, as it was at the last commit.
    fn copy(&self, alloc: Global) -> Result<Queue, Memory>
        requires { IsCommitted self.now }

        ensures ok { IfOk result (λ twin. (args : QueueArgs) →
            parts_of args twin ≡ parts_of args self.now) }
        ensures committed { IfOk result (λ twin. IsCommitted twin) }
        ensures want { IsOkUnless result Memory.Want }
    {
        let waiting = both(self.sessions.copy(alloc), self.ready.copy(alloc));
        let served = both(self.consumers.copy(alloc), self.dead.copy(alloc));
        let ((sessions, ready), (consumers, dead)) = both(waiting, served)?;
        Ok(Queue {
            applied: self.applied,
            arrivals: self.arrivals,
            saved: self.saved,
            sessions,
            ready,
            consumers,
            dead,
        })
    }
}

impl Draft {
    fn commit(&mut self, alloc: Global) -> Vec<Effect>
        ensures effects { result.items ≡ self.old.effects.items }
        ensures content { content_of self.new.queue ≡ content_of self.old.queue }
        ensures committed { IsCommitted self.new.queue }
        ensures none { self.new.effects.items ≡ [] }
    {
        self.queue.commit();
        mem::replace(&mut self.effects, Vec::new(alloc))
    }

    fn undo(&mut self, alloc: Global)
        ensures content { content_of self.new.queue ≡ base_of self.old.queue }
        ensures committed { IsCommitted self.new.queue }
        ensures none { self.new.effects.items ≡ [] }
    {
        self.queue.undo();
        self.effects = Vec::new(alloc);
    }
}

impl Machine {
    /// The queue to which no entry was applied. It takes no memory.
    pub fn new(alloc: Global, args: QueueArgs) -> Self
        ensures { result ≡ new_parts args }
    {
        let queue = Queue::new(alloc);
        let effects = Vec::new(alloc);
        Machine {
            args,
            draft: Draft { queue, effects },
            live: Live::new(alloc),
        }
    }

    /// The index of the last entry that was applied, 0 for none. The parts are whole.
    pub fn applied(&self) -> Index
        ensures value { result.0 ≡ self.now.rest.applied }
        ensures whole { IsWhole self.now }
    {
        self.draft.queue.sizes();
        Index(self.draft.queue.applied)
    }

    /// The queue's arguments.
    pub fn args(&self) -> &QueueArgs
        ensures { result.now ≡ self.now.rest.args }
    {
        &self.args
    }

    /// How many messages have arrived.
    pub fn arrivals(&self) -> u64
        ensures { result ≡ self.now.rest.arrivals }
    {
        self.draft.queue.arrivals
    }

    /// The queue of these parts, which were read of a queue of these arguments. A refusal gives the parts up.
    pub fn from_parts(
        alloc: Global,
        args: QueueArgs,
        applied: Index,
        arrivals: u64,
        sessions: Sessions,
        ready: Ready,
        consumers: Consumers,
        dead: Dead,
    ) -> Result<Self, Memory>
        ensures ok { IfOk result (λ machine. machine ≡ parts_in args (record {
          applied = applied.0;
          arrivals = arrivals;
          sessions = sessions.known;
          ready = ready.queue;
          roster = consumers.roster;
          letters = dead.letters;
        })) }
        ensures want { IsOkUnless result Memory.Want }
    {
        let Ok(consumers) = Counted::from_consumers(alloc, consumers) else {
            drop(args);
            drop(sessions);
            drop(ready);
            drop(dead);
            return Err(Memory::Want);
        };
        let mut queue = Queue {
            applied: applied.0,
            arrivals,
            saved: Saved {
                applied: 0,
                arrivals: 0,
            },
            sessions: Gated::from_sessions(sessions),
            ready: Tracked::over(alloc, ready),
            consumers,
            dead: Tracked::over(alloc, dead),
        };
        queue.commit();
        let Ok(live) = queue.live_messages(alloc) else {
            drop(args);
            drop(queue);
            return Err(Memory::Want);
        };
        let effects = Vec::new(alloc);
        Ok(Machine {
            args,
            draft: Draft { queue, effects },
            live,
        })
    }

    /// The sessions, the ready messages, the consumers and the dead messages.
    pub fn parts(&self) -> (&Sessions, &Ready, &Consumers, &Dead)
        ensures { parts_in self.now.rest.args (record {
          applied = self.now.rest.applied;
          arrivals = self.now.rest.arrivals;
          sessions = result.0.now.known;
          ready = result.1.now.queue;
          roster = result.2.now.roster;
          letters = result.3.now.letters;
        }) ≡ self.now }
    {
        let queue = &self.draft.queue;
        (
            queue.sessions.sessions(),
            queue.ready.store(),
            queue.consumers.table(),
            queue.dead.store(),
        )
    }

    /// How many messages are ready, and how many consumers weren't cancelled, as far as 32 bits count. A
    /// sound queue has at most 1,024.
    pub fn counts(&self) -> (u64, u32)
        ensures ready { result.0 ≡ length (ready_items self.now) }
        ensures consumers { result.1 ≡ min (count_by is_current self.now.served) (2 ^ 32 - 1) }
    {
        let queue = &self.draft.queue;
        let current = current_count(queue.consumers.table());
        (queue.ready.store().count(), to_u32(current))
    }

    /// What is out with a consumer, from an id on, by rising id.
    pub fn fetch(
        &self,
        alloc: Global,
        consumer: ConsumerId,
        from: u64,
    ) -> Result<Vec<Delivery>, Memory>
        ensures ok { IfOk result (λ found.
            found.items ≡ fetched from (one_of consumer self.now.served)) }
        ensures want { IsOkUnless result Memory.Want }
    {
        self.draft.queue.fetch(alloc, consumer, from)
    }

    /// The least index that the queue still needs: of its messages, ready, out or dead, and of those that
    /// kept answers name. Where there are none, the next index. An index is at most 2^64 - 1, so behind
    /// that one it is the answer.
    pub fn low(&self) -> Index
        ensures value { result.0 ≡ min (parts_low self.now) (2 ^ 64 - 1) }
        ensures queue { (s : State) → Stands self.now s → result.0 ≡ min (low s) (2 ^ 64 - 1) }
    {
        let kept = self.draft.queue.sessions.sessions().kept_low();
        least_index(self.live.low(), kept, self.draft.queue.applied)
    }

    /// The same queue.
    pub fn copy(&self, alloc: Global) -> Result<Self, Memory>
        ensures ok { IfOk result (λ twin. twin ≡ self.now) }
        ensures want { IsOkUnless result Memory.Want }
    {
        let Ok(live) = copy_live(alloc, &self.live) else {
            return Err(Memory::Want);
        };
        let Ok(args) = self.args.copy(alloc) else {
            drop(live);
            return Err(Memory::Want);
        };
        let Ok(queue) = self.draft.queue.copy(alloc) else {
            drop(live);
            drop(args);
            return Err(Memory::Want);
        };
        let effects = Vec::new(alloc);
        Ok(Machine {
            args,
            draft: Draft { queue, effects },
            live,
        })
    }

    /// Applies the next entry: whether its command counted as fresh, its answer, and its effects in
    /// order. `Spent` comes where a number would pass its end. After an error the queue is as before.
    pub fn apply(
        &mut self,
        alloc: Global,
        index: Index,
        entry: &Entry,
    ) -> Result<(bool, Answer, Vec<Effect>), Memory>
        requires next { index.0 ≡ self.old.rest.applied + 1 }
        requires range { IsInRange entry.now }

        ensures ok { IfOk result (λ made. parts_step self.old index entry.now ≡ record {
          parts = self.new;
          fresh = made.0;
          answer = made.1;
          effects = made.2.items;
        }) }
        ensures queue { (s : State) → IsSound s → Stands self.old s → IfOk result (λ made.
            StepsFor (record {
              parts = self.new;
              fresh = made.0;
              answer = made.1;
              effects = made.2.items;
            }) (next_step s entry.now)) }
        ensures within { (s : State) → IsSound s → IsReached s → Stands self.old s →
            OnOk result (IsTrue (is_within_ends (next_step s entry.now).state)) }
        ensures err { OnErr result (self.new ≡ self.old) }
        ensures cause { IfErr result (λ e. SpentOnlyWhere e NUMBER_END
            ((s : State) → IsSound s → Stands self.old s →
            is_within_ends (next_step s entry.now).state ≡ false)) }
    {
        self.draft.queue.sizes();
        match self.draft.step_within(alloc, &self.args, index, entry) {
            Err(cause) => {
                self.draft.undo(alloc);
                Err(cause)
            }
            Ok(made) => {
                // Room before the commit, which can't be taken back.
                if let Err(cause) = self.draft.queue.make_room(&mut self.live) {
                    self.draft.undo(alloc);
                    return Err(cause);
                }
                self.draft.queue.tell(&mut self.live);
                let effects = self.draft.commit(alloc);
                Ok((made.fresh, made.answer, effects))
            }
        }
    }
}
