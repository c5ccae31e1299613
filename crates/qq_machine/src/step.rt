//! One entry, on a queue that is as before where it can't be applied.
ghost use Rattle.std.specs.Prelude.{◌≡◌, [], Some, None, false, IfOk, IfErr, IsOkUnless, OnOk};
ghost use Rattle.qq_base.specs.Causes.{SpentOnlyWhere};
ghost use Rattle.qq_base.specs.declared.memory.TheConstants.{NUMBER_END};
ghost use Rattle.qq_machine.specs.Within.{are_within, AreTold};
ghost use Rattle.qq_entry.specs.Command.{stamp};
ghost use Rattle.qq_model.specs.Gate.{gate};
ghost use Rattle.qq_machine.specs.declared.pending.Pending.TheVariants.{Nothing};
ghost use Rattle.qq_machine.specs.Gated.{begun};
ghost use Rattle.qq_parts.specs.Step.{parts_carry_out, parts_pass_gate, parts_pass_ungated, parts_reject, parts_go_through, parts_step_by, parts_step};
ghost use Rattle.qq_machine.specs.Views.{parts_of, work_of, base_of, CarriesOut, Makes, KeepsStamp};

use crate::queue::{Draft, Made};
use qq_base::{Duplicate, Index, Memory};
use qq_entry::{Answer, Command, Entry, QueueArgs, Stamp};
use qq_model::Gate;
use std::alloc::Global;

impl Draft {
    /// Carries out a command with all that follows on it.
    #[tactic(auto, unfolding(qq_parts::specs::Step::parts_carry_out))]
    fn carry_out(
        &mut self,
        alloc: Global,
        args: &QueueArgs,
        index: Index,
        command: &Command,
    ) -> Result<Answer, Memory>
        requires effects { self.old.effects.items ≡ [] }
        requires pending { self.old.queue.sessions.pending ≡ begun (stamp command.now) }

        ensures ok { IfOk result (CarriesOut (parts_carry_out index command.now)
            args.now self.old self.new) }
        ensures base { KeepsStamp self.old.queue self.new.queue }
        ensures want { IsOkUnless result Memory.Want }
    {
        let mut answer = self.act(alloc, args, index, command)?;
        if let Err(cause) = self.check_out_all(alloc, args) {
            drop(answer);
            return Err(cause);
        }
        // Checkouts come before limits: a message that a consumer waits for is delivered and not dropped.
        if let Err(cause) = self.drain_after(args, command, &mut answer) {
            drop(answer);
            return Err(cause);
        }
        if let Err(cause) = self.keep_limits(args) {
            drop(answer);
            return Err(cause);
        }
        match self.give_all_dead(alloc, args) {
            Ok(()) => Ok(answer),
            Err(cause) => {
                drop(answer);
                Err(cause)
            }
        }
    }

    fn pass_ungated(
        &mut self,
        alloc: Global,
        args: &QueueArgs,
        index: Index,
        command: &Command,
    ) -> Result<Made, Memory>
        requires effects { self.old.effects.items ≡ [] }
        requires pending { self.old.queue.sessions.pending ≡ Nothing }
        requires ungated { stamp command.now ≡ None }

        ensures ok { IfOk result (Makes
            (λ m. parts_pass_ungated index (parts_carry_out index command.now m))
            args.now self.old self.new) }
        ensures base { base_of self.new.queue ≡ base_of self.old.queue }
        ensures want { IsOkUnless result Memory.Want }
    {
        let answer = self.carry_out(alloc, args, index, command)?;
        self.queue.applied = index.0;
        Ok(Made {
            fresh: true,
            answer,
        })
    }

    fn pass_gate(
        &mut self,
        alloc: Global,
        args: &QueueArgs,
        index: Index,
        by: Stamp,
        command: &Command,
    ) -> Result<Made, Memory>
        requires effects { self.old.effects.items ≡ [] }
        requires pending { self.old.queue.sessions.pending ≡ Nothing }
        requires stamped { stamp command.now ≡ Some by }

        ensures ok { IfOk result (Makes
            (parts_go_through Gate.Fresh index by command.now) args.now self.old self.new) }
        ensures base { base_of self.new.queue ≡ base_of self.old.queue }
        ensures want { IsOkUnless result Memory.Want }
    {
        self.queue.sessions.admit(alloc, by)?;
        let answer = self.carry_out(alloc, args, index, command)?;
        let twin = match answer.copy(alloc) {
            Ok(twin) => twin,
            Err(cause) => {
                drop(answer);
                return Err(cause);
            }
        };
        self.queue.sessions.keep(by, twin);
        self.queue.applied = index.0;
        Ok(Made {
            fresh: true,
            answer,
        })
    }

    fn reject(&mut self, args: &QueueArgs, index: Index, by: Stamp, answer: Answer) -> Made
        requires effects { self.old.effects.items ≡ [] }
        requires pending { self.old.queue.sessions.pending ≡ Nothing }

        ensures value { Makes (parts_reject index by answer) args.now self.old self.new result }
        ensures base { base_of self.new.queue ≡ base_of self.old.queue }
    {
        self.queue.sessions.turn_away(by);
        self.queue.applied = index.0;
        Made {
            fresh: false,
            answer,
        }
    }

    fn go_through(
        &mut self,
        alloc: Global,
        args: &QueueArgs,
        gate: Gate,
        index: Index,
        by: Stamp,
        command: &Command,
    ) -> Result<Made, Memory>
        requires effects { self.old.effects.items ≡ [] }
        requires pending { self.old.queue.sessions.pending ≡ Nothing }
        requires stamped { stamp command.now ≡ Some by }

        ensures ok { IfOk result (Makes
            (parts_go_through gate index by command.now) args.now self.old self.new) }
        ensures base { base_of self.new.queue ≡ base_of self.old.queue }
        ensures want { IsOkUnless result Memory.Want }
    {
        match gate {
            Gate::Fresh => self.pass_gate(alloc, args, index, by, command),
            Gate::Again(answer) => Ok(self.reject(args, index, by, answer)),
            Gate::Gap { next } => Ok(self.reject(args, index, by, Answer::Gap { next })),
            Gate::Forgotten => Ok(self.reject(args, index, by, Answer::Forgotten)),
            Gate::Ended => Ok(self.reject(args, index, by, Answer::Ended)),
            Gate::WindowFull => Ok(self.reject(args, index, by, Answer::WindowFull)),
            Gate::SessionsFull => Ok(self.reject(args, index, by, Answer::SessionsFull)),
        }
    }

    fn step_by(
        &mut self,
        alloc: Global,
        args: &QueueArgs,
        by: Option<Stamp>,
        index: Index,
        command: &Command,
    ) -> Result<Made, Memory>
        requires effects { self.old.effects.items ≡ [] }
        requires pending { self.old.queue.sessions.pending ≡ Nothing }
        requires base { self.old.queue.sessions.known ≡ self.old.queue.sessions.base }
        requires stamped { stamp command.now ≡ by }

        ensures ok { IfOk result (Makes
            (parts_step_by by index command.now) args.now self.old self.new) }
        ensures base { base_of self.new.queue ≡ base_of self.old.queue }
        ensures want { IsOkUnless result Memory.Want }
    {
        match by {
            None => self.pass_ungated(alloc, args, index, command),
            Some(by) => {
                let gate = self.queue.sessions.check(alloc, &by)?;
                self.go_through(alloc, args, gate, index, by, command)
            }
        }
    }

    /// Applies the next entry to a queue as it was at the last commit, without effects so far.
    #[tactic(auto, unfolding(qq_parts::specs::Step::parts_step))]
    pub fn step(
        &mut self,
        alloc: Global,
        args: &QueueArgs,
        index: Index,
        entry: &Entry,
    ) -> Result<Made, Memory>
        requires effects { self.old.effects.items ≡ [] }
        requires pending { self.old.queue.sessions.pending ≡ Nothing }
        requires base { self.old.queue.sessions.known ≡ self.old.queue.sessions.base }

        ensures ok { IfOk result (Makes (λ m. parts_step m index entry.now)
            args.now self.old self.new) }
        ensures base { base_of self.new.queue ≡ base_of self.old.queue }
        ensures want { IsOkUnless result Memory.Want }
    {
        let command = entry.command.get();
        self.step_by(alloc, args, command.stamp(), index, command)
    }

    /// Applies the next entry, where no number passes its end.
    pub fn step_within(
        &mut self,
        alloc: Global,
        args: &QueueArgs,
        index: Index,
        entry: &Entry,
    ) -> Result<Made, Memory>
        requires effects { self.old.effects.items ≡ [] }
        requires pending { self.old.queue.sessions.pending ≡ Nothing }
        requires base { self.old.queue.sessions.known ≡ self.old.queue.sessions.base }

        ensures ok { IfOk result (Makes (λ m. parts_step m index entry.now)
            args.now self.old self.new) }
        ensures told { OnOk result (AreTold (parts_of args.now self.new.queue)) }
        ensures base { base_of self.new.queue ≡ base_of self.old.queue }
        ensures cause { IfErr result (λ e. SpentOnlyWhere e NUMBER_END
            (are_within (parts_step (parts_of args.now self.old.queue) index entry.now).parts
            ≡ false)) }
    {
        let made = match self.step(alloc, args, index, entry) {
            Ok(made) => made,
            Err(cause) => return Err(cause),
        };
        match self.queue.check_ends(alloc) {
            Ok(()) => Ok(made),
            Err(cause) => Err(cause),
        }
    }
}
