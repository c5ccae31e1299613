//! The end of a session.
ghost use Rattle.std.specs.Prelude.{◌≡◌, ◌<◌, true, false, length, IfOk, IsOkUnless, OnOk};
ghost use Rattle.qq_model.specs.declared.place.Place.{Place};
ghost use Rattle.qq_parts.specs.Commands.{parts_return_session, parts_down};
ghost use Rattle.qq_machine.specs.Views.{work_of, Changes, Replies, return_rows, KeepsBase, KeepsStamp};
ghost use Rattle.qq_machine.specs.declared.pending.Pending.TheVariants.{Nothing};

use crate::queue::Draft;
use qq_base::{Memory, SessionId};
use qq_consumer::Rising;
use qq_entry::{Answer, QueueArgs, ReadyRow};
use std::alloc::Global;

impl Draft {
    fn return_rows(&mut self, args: &QueueArgs, mut rows: Rising<ReadyRow>) -> Result<(), Memory>
        ensures ok { OnOk result ((place : Place) → Changes
            (return_rows place rows.items) args.now self.old self.new) }
        ensures base { KeepsBase self.old.queue self.new.queue }
        ensures want { IsOkUnless result Memory.Want }
    {
        'rows: while let Some(row) = rows.take_first()? {
            self.return_row(args, row)?;
        }
        Ok(())
    }

    // The longest joined consumer of a session leaves, and what is out with it goes back. False where
    // there is none.
    fn return_first(
        &mut self,
        alloc: Global,
        args: &QueueArgs,
        session: SessionId,
    ) -> Result<bool, Memory>
        ensures ok { IfOk result (λ did. parts_return_session session (work_of args.now self.old)
            ≡ parts_return_session session (work_of args.now self.new)) }
        ensures over { IfOk result (λ did. did ≡ false →
            parts_return_session session (work_of args.now self.new) ≡ work_of args.now self.new) }
        ensures fewer { IfOk result (λ did. did ≡ true →
            length self.new.queue.consumers.roster.served
            < length self.old.queue.consumers.roster.served) }
        ensures base { KeepsBase self.old.queue self.new.queue }
        ensures want { IsOkUnless result Memory.Want }
    {
        self.queue.consumers.len();
        let ended = self.queue.consumers.end(alloc, session)?;
        let row = match ended {
            None => return Ok(false),
            Some(row) => row,
        };
        self.return_rows(args, row.out)?;
        Ok(true)
    }

    fn return_session(
        &mut self,
        alloc: Global,
        args: &QueueArgs,
        session: SessionId,
    ) -> Result<(), Memory>
        ensures ok { OnOk result (Changes (parts_return_session session)
            args.now self.old self.new) }
        ensures base { KeepsBase self.old.queue self.new.queue }
        ensures want { IsOkUnless result Memory.Want }
    {
        'rounds: while self.return_first(alloc, args, session)? {}
        Ok(())
    }

    /// Ends a session.
    #[tactic(auto, unfolding(qq_parts::specs::Commands::parts_down))]
    pub fn down(
        &mut self,
        alloc: Global,
        args: &QueueArgs,
        session: SessionId,
    ) -> Result<Answer, Memory>
        requires { self.old.queue.sessions.pending ≡ Nothing }

        ensures ok { IfOk result (Replies (parts_down session) args.now self.old self.new) }
        ensures base { KeepsStamp self.old.queue self.new.queue }
        ensures want { IsOkUnless result Memory.Want }
    {
        self.return_session(alloc, args, session)?;
        self.queue.sessions.end(alloc, session)?;
        Ok(Answer::Down)
    }
}
