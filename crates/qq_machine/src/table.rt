//! The table of the commands.
ghost use Rattle.std.specs.Prelude.{◌≡◌, IfOk, IsOkUnless};
ghost use Rattle.qq_parts.specs.Commands.{parts_act};
ghost use Rattle.qq_machine.specs.Views.{work_of, Replies, KeepsStamp};
ghost use Rattle.qq_machine.specs.Gated.{begun};
ghost use Rattle.qq_entry.specs.Command.{stamp};

use crate::queue::Draft;
use qq_base::{Index, Memory};
use qq_entry::{Answer, Command, QueueArgs};
use qq_model::Outcome;
use std::alloc::Global;

impl Draft {
    /// Carries out a command's row of the table.
    #[tactic(auto, unfolding(qq_parts::specs::Commands::parts_act))]
    pub fn act(
        &mut self,
        alloc: Global,
        args: &QueueArgs,
        index: Index,
        command: &Command,
    ) -> Result<Answer, Memory>
        requires { self.old.queue.sessions.pending ≡ begun (stamp command.now) }

        ensures ok { IfOk result (Replies (parts_act index command.now)
            args.now self.old self.new) }
        ensures base { KeepsStamp self.old.queue self.new.queue }
        ensures want { IsOkUnless result Memory.Want }
    {
        match command {
            Command::Noop { .. } => Ok(Answer::Lead),
            Command::Enqueue { message, .. } => self.enqueue(alloc, args, index, message),
            Command::Get { .. } => self.get(args),
            Command::Subscribe { stamp, tag, mode } => {
                self.subscribe(alloc, args, *stamp, *tag, *mode)
            }
            Command::Cancel { stamp, tag } => {
                let id = stamp.consumer_id(*tag);
                self.cancel(args, id)
            }
            Command::Credit {
                stamp,
                tag,
                count,
                credit,
                ..
            } => {
                let id = stamp.consumer_id(*tag);
                self.give_credit(args, id, *count, *credit)
            }
            Command::Settle { stamp, tag, ids } => {
                let id = stamp.consumer_id(*tag);
                self.finish(alloc, args, Outcome::Settled, id, ids.as_slice())
            }
            Command::Return { stamp, tag, ids } => {
                let id = stamp.consumer_id(*tag);
                self.finish(alloc, args, Outcome::Returned, id, ids.as_slice())
            }
            Command::Discard { stamp, tag, ids } => {
                let id = stamp.consumer_id(*tag);
                self.finish(alloc, args, Outcome::Discarded, id, ids.as_slice())
            }
            Command::Purge { .. } => self.purge(args),
            Command::Down { session } => self.down(alloc, args, *session),
            Command::DeadAttach { term } => Ok(self.dead_attach(args, *term)),
            Command::DeadSettle { term, done } => self.dead_settle(args, *term, done.as_slice()),
        }
    }
}
