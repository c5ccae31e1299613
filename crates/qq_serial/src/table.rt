//! The table of the commands.
ghost use Rattle.std.specs.Prelude.{◌≡◌, take, vec_len, IfOk, IsOkUnless, OnOk, OnErr};
ghost use Rattle.qq_model.specs.Commands.{Acted, reply, act};
ghost use Rattle.qq_serial.specs.Views.{progress_of, Acts, OnlyAddsMessages};

use crate::queue::{Draft, Store};
use qq_base::{Index, Memory};
use qq_entry::{Answer, Command};
use qq_model::Outcome;
use std::alloc::Global;

impl Draft {
    /// Carries out a command's row of the table.
    #[tactic(auto, unfolding(qq_model::specs::Commands::act))]
    pub fn act(
        &mut self,
        alloc: Global,
        store: &mut Store,
        index: Index,
        command: &Command,
    ) -> Result<Answer, Memory>
        ensures ok { IfOk result (Acts (act index command.now)
            store.old self.old store.new self.new) }
        ensures store { OnlyAddsMessages store.old store.new }
        ensures want { IsOkUnless result Memory.Want }
    {
        match command {
            Command::Noop { .. } => Ok(Answer::Lead),
            Command::Enqueue { message, .. } => self.enqueue(alloc, store, index, message),
            Command::Get { .. } => self.get(alloc, store),
            Command::Subscribe { stamp, tag, mode } => {
                let id = stamp.consumer_id(*tag);
                self.subscribe(alloc, store, id, *mode)
            }
            Command::Cancel { stamp, tag } => {
                let id = stamp.consumer_id(*tag);
                Ok(self.cancel(store, id))
            }
            Command::Credit {
                stamp,
                tag,
                count,
                credit,
                ..
            } => {
                let id = stamp.consumer_id(*tag);
                self.give_credit(store, id, u64::from(*count) + u64::from(*credit))
            }
            Command::Settle { stamp, tag, ids } => {
                let id = stamp.consumer_id(*tag);
                self.finish(alloc, store, Outcome::Settled, id, ids.as_slice())
            }
            Command::Return { stamp, tag, ids } => {
                let id = stamp.consumer_id(*tag);
                self.finish(alloc, store, Outcome::Returned, id, ids.as_slice())
            }
            Command::Discard { stamp, tag, ids } => {
                let id = stamp.consumer_id(*tag);
                self.finish(alloc, store, Outcome::Discarded, id, ids.as_slice())
            }
            Command::Purge { .. } => Ok(self.purge(store)),
            Command::Down { session } => self.down(alloc, store, *session),
            Command::DeadAttach { term } => Ok(self.dead_attach(store, *term)),
            Command::DeadSettle { term, done } => self.dead_settle(store, *term, done.as_slice()),
        }
    }
}
