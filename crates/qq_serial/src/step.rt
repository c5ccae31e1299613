//! One entry, on a copy of the queue.
ghost use Rattle.std.specs.Prelude.{◌≡◌, [], take, vec_len, IfOk, IsOkUnless};
ghost use Rattle.qq_model.specs.Commands.{Acted, reply};
ghost use Rattle.qq_model.specs.State.{State};
ghost use Rattle.qq_model.specs.Step.{carry_out, pass_gate, pass_ungated, reject, go_through, step_by, step};
ghost use Rattle.qq_serial.specs.Views.{state_of, progress_of, step_of, CarriesOut, Makes, OnlyAddsMessages};

use crate::queue::{Draft, Made, Queue, Store};
use qq_base::{Duplicate, Index, Memory, both};
use qq_entry::{Answer, Command, Entry, Stamp};
use qq_model::Gate;
use std::alloc::Global;

impl Draft {
    /// Carries out a command with all that follows on it.
    #[tactic(auto, unfolding(qq_model::specs::Step::carry_out))]
    fn carry_out(
        &mut self,
        alloc: Global,
        store: &mut Store,
        index: Index,
        command: &Command,
    ) -> Result<Answer, Memory>
        requires { self.old.effects.items ≡ [] }

        ensures ok { IfOk result (CarriesOut (carry_out index command.now)
            store.old self.old.queue store.new self.new) }
        ensures store { OnlyAddsMessages store.old store.new }
        ensures want { IsOkUnless result Memory.Want }
    {
        let answer = self.act(alloc, store, index, command)?;
        if let Err(cause) = self.check_out_all(alloc, store) {
            drop(answer);
            return Err(cause);
        }
        let answer = self.drain_after(store, command, answer)?;
        if let Err(cause) = self.keep_limits(alloc, store) {
            drop(answer);
            return Err(cause);
        }
        match self.give_all_dead(alloc, store) {
            Ok(()) => Ok(answer),
            Err(cause) => {
                drop(answer);
                Err(cause)
            }
        }
    }

    fn pass_ungated(
        &mut self,
        alloc: Global,
        store: &mut Store,
        index: Index,
        command: &Command,
    ) -> Result<Made, Memory>
        requires { self.old.effects.items ≡ [] }

        ensures ok { IfOk result (Makes (λ s. pass_ungated index (carry_out index command.now s))
            store.old self.old.queue store.new self.new) }
        ensures store { OnlyAddsMessages store.old store.new }
        ensures want { IsOkUnless result Memory.Want }
    {
        let answer = self.carry_out(alloc, store, index, command)?;
        self.queue.applied = index.0;
        Ok(Made {
            fresh: true,
            answer,
        })
    }

    fn pass_gate(
        &mut self,
        alloc: Global,
        store: &mut Store,
        index: Index,
        stamp: Stamp,
        command: &Command,
    ) -> Result<Made, Memory>
        requires { self.old.effects.items ≡ [] }

        ensures ok { IfOk result (Makes (go_through Gate.Fresh index stamp command.now)
            store.old self.old.queue store.new self.new) }
        ensures store { OnlyAddsMessages store.old store.new }
        ensures want { IsOkUnless result Memory.Want }
    {
        self.queue.sessions.reserve(alloc, stamp.session)?;
        self.queue.sessions.admit(&stamp);
        let answer = self.carry_out(alloc, store, index, command)?;
        let twin = answer.copy(alloc);
        let reserved = self.queue.sessions.reserve(alloc, stamp.session);
        let (twin, ()) = match both(twin, reserved) {
            Ok(held) => held,
            Err(cause) => {
                drop(answer);
                return Err(cause);
            }
        };
        self.queue.sessions.keep(&stamp, twin);
        self.queue.applied = index.0;
        Ok(Made {
            fresh: true,
            answer,
        })
    }

    fn reject(&mut self, store: &Store, index: Index, stamp: Stamp, answer: Answer) -> Made
        requires { self.old.effects.items ≡ [] }

        ensures { Makes (reject index stamp answer)
            store.now self.old.queue store.now self.new result }
    {
        self.queue.sessions.advance(&stamp);
        self.queue.applied = index.0;
        Made {
            fresh: false,
            answer,
        }
    }

    fn go_through(
        &mut self,
        alloc: Global,
        store: &mut Store,
        gate: Gate,
        index: Index,
        stamp: Stamp,
        command: &Command,
    ) -> Result<Made, Memory>
        requires { self.old.effects.items ≡ [] }

        ensures ok { IfOk result (Makes (go_through gate index stamp command.now)
            store.old self.old.queue store.new self.new) }
        ensures store { OnlyAddsMessages store.old store.new }
        ensures want { IsOkUnless result Memory.Want }
    {
        match gate {
            Gate::Fresh => self.pass_gate(alloc, store, index, stamp, command),
            Gate::Again(answer) => Ok(self.reject(store, index, stamp, answer)),
            Gate::Gap { next } => Ok(self.reject(store, index, stamp, Answer::Gap { next })),
            Gate::Forgotten => Ok(self.reject(store, index, stamp, Answer::Forgotten)),
            Gate::Ended => Ok(self.reject(store, index, stamp, Answer::Ended)),
            Gate::WindowFull => Ok(self.reject(store, index, stamp, Answer::WindowFull)),
            Gate::SessionsFull => Ok(self.reject(store, index, stamp, Answer::SessionsFull)),
        }
    }

    fn step_by(
        &mut self,
        alloc: Global,
        store: &mut Store,
        stamp: Option<Stamp>,
        index: Index,
        command: &Command,
    ) -> Result<Made, Memory>
        requires { self.old.effects.items ≡ [] }

        ensures ok { IfOk result (Makes (step_by stamp index command.now)
            store.old self.old.queue store.new self.new) }
        ensures store { OnlyAddsMessages store.old store.new }
        ensures want { IsOkUnless result Memory.Want }
    {
        match stamp {
            None => self.pass_ungated(alloc, store, index, command),
            Some(stamp) => {
                let gate = self.queue.sessions.check(alloc, &stamp)?;
                self.go_through(alloc, store, gate, index, stamp, command)
            }
        }
    }
}

/// Applies an entry to a copy of the queue. Only the message of an enqueue is added to the store,
/// and stays there where the call gives up.
#[tactic(auto, unfolding(qq_model::specs::Step::step))]
pub fn step(
    alloc: Global,
    store: &mut Store,
    queue: &Queue,
    index: Index,
    entry: &Entry,
) -> Result<(Draft, Made), Memory>
    ensures ok { IfOk result (λ to. Makes (λ s. step s index entry.now)
        store.old queue.now store.new to.0 to.1) }
    ensures store { OnlyAddsMessages store.old store.new }
    ensures want { IsOkUnless result Memory.Want }
{
    let mut draft = Draft {
        queue: queue.copy(alloc)?,
        effects: Vec::new(alloc),
    };
    let command = entry.command.get();
    match draft.step_by(alloc, store, command.stamp(), index, command) {
        Ok(made) => Ok((draft, made)),
        Err(cause) => {
            drop(draft);
            Err(cause)
        }
    }
}
