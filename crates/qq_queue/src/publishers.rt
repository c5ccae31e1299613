//! The numbers of the clients' sessions at the queue.
ghost use Rattle.std.specs.Prelude.{◌≡◌, ◌<◌, [], length, true, nat_eq, IfOk, IfErr, OnOk, OnErr, IsOkUnless};
ghost use Rattle.std.specs.List.{AllByRecursion};
ghost use Rattle.std.specs.Map.{lookup};
ghost use Rattle.std.specs.Option.{option_copied};
ghost use Rattle.qq_base.specs.Fronts.{put};
ghost use Rattle.qq_base.specs.declared.memory.TheConstants.{NUMBER_END};
ghost use Rattle.qq_model.specs.declared.TheConstants.{WINDOW};
ghost use Rattle.qq_session.specs.Publishing.{hand, next_command, open_commands, HasHandCause};
ghost use Rattle.qq_session.specs.Clients.{ended_by, hear, is_printed, is_printed_by, is_used, may_hand, sender, tells_end};
ghost use Rattle.qq_queue.specs.Range.{HasBytes, MayStamp};
ghost use Rattle.qq_queue.specs.Sessions.{clients_of, is_known, numbers_of, standings};

use crate::answers::{ended_by, sender};
use crate::publisher::Publisher;
use crate::sessions::Sessions;
use indexmap::IndexMap;
use qq_base::{Memory, QueueId};
use qq_entry::{AuditRow, Command, Unstamped};
use qq_session::HandFault;
use std::alloc::Global;
use std::marker::Model;

/// The numbers of the sessions that have sent something to the queue, by the sessions' numbers. Any other is a
/// new one.
#[derive(Drop)]
pub struct Publishers {
    queue: QueueId,
    rows: IndexMap<u64, Publisher>,
}

impl Model for Publishers {
    ghost use Rattle.qq_queue.specs.Sessions.{Known};

    ghost Value = { Known };

    ghost view = { λ p. record { queue = p.queue; rows = p.rows.entries } };
}

impl Publishers {
    /// No session has sent anything. It takes no memory.
    pub fn new(alloc: Global, queue: QueueId) -> Self
        ensures { result ≡ record { queue = queue; rows = [] } }
    {
        Publishers {
            queue,
            rows: IndexMap::new(alloc),
        }
    }

    fn publisher(&self, session: u64) -> Option<&Publisher>
        ensures { option_copied result ≡ lookup (nat_eq session) self.now.rows }
    {
        self.rows.get(&session)
    }

    // Makes a row for a session that has none.
    fn open(&mut self, alloc: Global, session: u64) -> Result<(), Memory>
        requires { 0 < session }

        ensures same { numbers_of self.new ≡ numbers_of self.old }
        ensures ok { OnOk result (is_known session self.new ≡ true) }
        ensures want { IsOkUnless result Memory.Want }
    {
        if self.rows.contains_key(&session) {
            return Ok(());
        }
        let publisher = Publisher::new(alloc, self.queue, session);
        self.rows.insert(session, publisher)?;
        Ok(())
    }

    /// Whether a session has given a command.
    pub fn is_used(&self, session: u64) -> bool
        ensures { result ≡ is_used (numbers_of self.now session) }
    {
        match self.publisher(session) {
            None => false,
            Some(publisher) => publisher.is_used(),
        }
    }

    /// Whether a session's window has room for one more number.
    pub fn may_hand(&self, session: u64) -> bool
        ensures { result ≡ may_hand (numbers_of self.now session) }
    {
        match self.publisher(session) {
            None => true,
            Some(publisher) => publisher.may_hand(),
        }
    }

    /// Gives a command of a session the next number.
    pub fn hand(
        &mut self,
        alloc: Global,
        session: u64,
        body: Unstamped,
    ) -> Result<Command, HandFault>
        requires session { 0 < session }
        requires bytes { MayStamp body }

        ensures ok { IfOk result (λ command.
            command ≡ next_command body (numbers_of self.old session)) }
        ensures handed { OnOk result (numbers_of self.new
            ≡ put session (hand body (numbers_of self.old session)) (numbers_of self.old)) }
        ensures room { OnOk result (length (numbers_of self.old session).opened < WINDOW) }
        ensures within { OnOk result ((numbers_of self.old session).next < NUMBER_END) }
        ensures bytes { IfOk result HasBytes }
        ensures err { OnErr result (numbers_of self.new ≡ numbers_of self.old) }
        ensures cause { IfErr result (λ fault.
            HasHandCause fault (numbers_of self.old session)) }
    {
        if let Err(cause) = self.open(alloc, session) {
            return Err(HandFault::Memory(cause));
        }
        let Some(publisher) = self.rows.get_mut(&session) else {
            unreachable!()
        };
        publisher.hand(alloc, body)
    }

    /// Copies of a session's open commands in the order of their numbers.
    pub fn resend(&self, alloc: Global, session: u64) -> Result<Vec<Command>, Memory>
        ensures ok { IfOk result (λ commands.
            commands.items ≡ open_commands (numbers_of self.now session)) }
        ensures bytes { IfOk result (λ commands. AllByRecursion HasBytes commands.items) }
        ensures want { IsOkUnless result Memory.Want }
    {
        match self.publisher(session) {
            None => Ok(Vec::new(alloc)),
            Some(publisher) => publisher.resend(alloc),
        }
    }

    // Whether the answer to the end of a session is printed.
    fn tells_end(&self, sessions: &Sessions, row: &AuditRow) -> bool
        ensures { result ≡ tells_end (ended_by row.now.entry.command)
            (clients_of (standings sessions.now) (numbers_of self.now)) }
    {
        let Some(session) = ended_by(row.entry.command.get()) else {
            return false;
        };
        !sessions.is_muted(session)
    }

    // Whether it is printed as the answer to an open number.
    fn is_answer(&self, sessions: &Sessions, row: &AuditRow) -> bool
        ensures { result ≡ is_printed_by (sender row.now)
            (clients_of (standings sessions.now) (numbers_of self.now)) row.now }
    {
        let Some(session) = sender(row) else {
            return false;
        };
        let muted = sessions.is_muted(session);
        if muted {
            return false;
        }
        match self.publisher(session) {
            None => false,
            Some(publisher) => publisher.is_open(row),
        }
    }

    /// Whether the answer of a row is printed.
    pub fn is_printed(&self, sessions: &Sessions, row: &AuditRow) -> bool
        ensures { result ≡ is_printed
            (clients_of (standings sessions.now) (numbers_of self.now)) row.now }
    {
        self.is_answer(sessions, row) || self.tells_end(sessions, row)
    }

    /// The answer of a row comes to its session, unless that is lost.
    pub fn hear(&mut self, sessions: &Sessions, row: &AuditRow)
        ensures { clients_of (standings sessions.now) (numbers_of self.new)
            ≡ hear row.now (clients_of (standings sessions.now) (numbers_of self.old)) }
    {
        let Some(session) = sender(row) else {
            return;
        };
        let muted = sessions.is_muted(session);
        if muted {
            return;
        }
        let Some(publisher) = self.rows.get_mut(&session) else {
            return;
        };
        publisher.take_answer(row);
    }
}
