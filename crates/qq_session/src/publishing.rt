ghost use Rattle.std.specs.Prelude.{◌≡◌, ◌+◌, ◌<◌, ◌≤◌, ◌∷◌, ◌++◌, [], length, OnOk, OnErr, IfOk, IfErr, IsOkUnless};
ghost use Rattle.qq_base.specs.declared.memory.Memory.TheVariants.{Want};
ghost use Rattle.qq_base.specs.declared.memory.TheConstants.{NUMBER_END};
ghost use Rattle.qq_model.specs.declared.TheConstants.{WINDOW};
ghost use Rattle.qq_session.specs.declared.publishing.HandFault.TheVariants as faults;
ghost use Rattle.qq_session.specs.Numbering.{HasNumber, IsNumbering, IsLowMark, Rise};
ghost use Rattle.qq_session.specs.Publishing.{Numbers, new_numbers, low_mark, mark_before, next_stamp, next_command, hand, HasHandCause, is_first, is_open, is_open_in, is_first_answer, without, answer, open_commands};

use crate::stamped::{closes, stamped};
use qq_base::{Duplicate, Memory, NUMBER_END, QueueId, SessionId};
use qq_entry::{Answer, Command, Stamp, Unstamped};
use qq_model::WINDOW;
use std::alloc::{AllocFailed, Global};
use std::collections::VecDeque;
use std::marker::Model;
use thiserror::Error;

/// Why a command gets no number.
#[derive(Clone, Copy, Debug, PartialEq, Eq, Error)]
pub enum HandFault {
    /// As many of the session's numbers are open as may be.
    #[error("256 numbers are open")]
    WindowFull,
    /// Out of memory, or the numbers are at their end.
    #[error("{0}")]
    Memory(Memory),
}

impl From<Memory> for HandFault {
    ghost from_gives = { λ cause e. e ≡ faults.Memory cause };

    fn from(cause: Memory) -> Self {
        HandFault::Memory(cause)
    }
}

impl<T: Drop> From<AllocFailed<T>> for HandFault {
    ghost from_gives = { λ _ e. e ≡ faults.Memory Want };

    fn from(_: AllocFailed<T>) -> Self {
        HandFault::Memory(Memory::Want)
    }
}

/// The numbers of a session's commands to one queue, and the commands that aren't answered.
///
/// Contracts see the session, the queue, the next number, and the open numbers with their commands, in
/// order.
#[derive(Drop)]
pub struct Publishing {
    session: SessionId,
    queue: QueueId,
    next: u64,
    opened: VecDeque<(u64, Command)>,
}

impl Model for Publishing {
    ghost use Rattle.qq_session.specs.Publishing.{Numbers};
    ghost use Rattle.qq_session.specs.Numbering.{IsNumbering};

    ghost Value = { Numbers };

    ghost view = { λ p. record {
      session = p.session;
      queue = p.queue;
      next = p.next;
      opened = p.opened.items;
    } };

    ghost invariant = { λ p. IsNumbering (record {
      session = p.session;
      queue = p.queue;
      next = p.next;
      opened = p.opened.items;
    }) };
}

// The low mark before the next number and the open ones.
fn mark_before(next: u64, opened: &VecDeque<(u64, Command)>) -> u64
    ensures { result ≡ mark_before next opened.now.items }
{
    match opened.front() {
        None => next.saturating_sub(1),
        Some(first) => first.0.saturating_sub(1),
    }
}

fn is_first(seq: u64, opened: &VecDeque<(u64, Command)>) -> bool
    ensures { result ≡ is_first seq opened.now.items }
{
    match opened.front() {
        None => false,
        Some(first) => first.0 == seq,
    }
}

fn is_open_in(seq: u64, opened: &VecDeque<(u64, Command)>) -> bool
    ensures { result ≡ is_open_in seq opened.now.items }
{
    opened.iter().any(|one| one.0 == seq)
}

// Numbers are mostly answered in their order, so that the first open one is looked at before the others.
fn close(seq: u64, opened: &mut VecDeque<(u64, Command)>)
    requires { Rise opened.old.items }
    ensures { opened.new.items ≡ without seq opened.old.items }
{
    if is_first(seq, opened) {
        drop(opened.pop_front());
        return;
    }
    opened.retain(|one| one.0 != seq);
}

impl Publishing {
    /// A session that has handed out no number for this queue. It takes no memory.
    pub fn new(alloc: Global, session: SessionId, queue: QueueId) -> Self
        ensures { result ≡ new_numbers session queue }
    {
        Publishing {
            session,
            queue,
            next: 1,
            opened: VecDeque::new(alloc),
        }
    }

    /// Whose numbers they are.
    pub fn session(&self) -> SessionId
        ensures { result ≡ self.now.session }
    {
        self.session
    }

    /// The queue that the commands are for.
    pub fn queue(&self) -> QueueId
        ensures { result ≡ self.now.queue }
    {
        self.queue
    }

    /// The number that the next command gets, from 1.
    pub fn next(&self) -> u64
        ensures { result ≡ self.now.next }
    {
        self.next
    }

    /// How many numbers are open.
    pub fn open_count(&self) -> usize
        ensures count { result ≡ length self.now.opened }
        ensures within { result ≤ WINDOW }
    {
        self.opened.len()
    }

    /// The greatest number that is answered with all below it, 0 where there is none.
    pub fn low_mark(&self) -> u64
        ensures value { result ≡ low_mark self.now }
        ensures greatest { IsLowMark result self.now }
    {
        mark_before(self.next, &self.opened)
    }

    /// Whether a number was handed out and isn't answered.
    pub fn is_open(&self, seq: u64) -> bool
        ensures { result ≡ is_open seq self.now }
    {
        is_first(seq, &self.opened) || is_open_in(seq, &self.opened)
    }

    fn next_stamp(&self) -> Stamp
        ensures { result ≡ next_stamp self.now }
    {
        Stamp {
            session: self.session,
            seq: self.next,
            done: self.low_mark(),
        }
    }

    // Opens the next number.
    fn open_next(&mut self, command: Command) -> Result<(), Memory>
        requires within { self.old.next < NUMBER_END }
        requires room { length self.old.opened < WINDOW }
        requires number { HasNumber self.old.session self.old.next command }

        ensures ok { OnOk result (self.new ≡ record self.old {
          next = self.old.next + 1;
          opened = self.old.opened ++ (self.old.next, command) ∷ [];
        }) }
        ensures err { OnErr result (self.new ≡ self.old) }
        ensures want { IsOkUnless result Memory.Want }
    {
        self.opened.push_back((self.next, command))?;
        self.next += 1;
        Ok(())
    }

    /// Gives a command the next number and the low mark, and keeps a copy until it is answered.
    ///
    /// - `ok`: the command has the next stamp, and its number is open.
    /// - `room`, `within`: fewer numbers were open than may be, and the next wasn't at its end.
    /// - `err`: after an error all is as before.
    /// - `cause`: `WindowFull` comes only where as many numbers are open as may be, `Memory::Spent` only
    ///   where fewer are, and the next number is at its end.
    pub fn hand(&mut self, alloc: Global, body: Unstamped) -> Result<Command, HandFault>
        ensures ok { IfOk result (λ command. command ≡ next_command body self.old) }
        ensures handed { OnOk result (self.new ≡ hand body self.old) }
        ensures room { OnOk result (length self.old.opened < WINDOW) }
        ensures within { OnOk result (self.old.next < NUMBER_END) }
        ensures err { OnErr result (self.new ≡ self.old) }
        ensures cause { IfErr result (λ fault. HasHandCause fault self.old) }
    {
        if self.open_count() as u64 >= WINDOW {
            drop(body);
            return Err(HandFault::WindowFull);
        }
        if self.next == NUMBER_END {
            drop(body);
            return Err(HandFault::Memory(Memory::Spent { number: NUMBER_END }));
        }
        let command = stamped(self.next_stamp(), body);
        // A copy stays until the answer comes: what is sent may be lost.
        let kept = match command.copy(alloc) {
            Ok(kept) => kept,
            Err(_) => {
                drop(command);
                return Err(HandFault::Memory(Memory::Want));
            }
        };
        match self.open_next(kept) {
            Ok(()) => Ok(command),
            Err(_) => {
                drop(command);
                Err(HandFault::Memory(Memory::Want))
            }
        }
    }

    /// Takes the answer to a number. It is true exactly for the first answer that closes the number: it
    /// was handed out and isn't answered, and the answer isn't `Gap`, `WindowFull` or `SessionsFull`,
    /// after which the command is to be sent again.
    pub fn answer(&mut self, seq: u64, given: &Answer) -> bool
        ensures first { result ≡ is_first_answer seq given.now self.old }
        ensures after { self.new ≡ answer seq given.now self.old }
    {
        if !closes(given) {
            return false;
        }
        let open = self.is_open(seq);
        if open {
            close(seq, &mut self.opened);
        }
        open
    }

    /// Copies of the open commands in the order of their numbers, each with the stamp that it had.
    ///
    /// - `ok`, `numbers`: they are the open ones, and each has its session and number.
    /// - `want`: it fails for want of memory alone.
    pub fn resend(&self, alloc: Global) -> Result<Vec<Command>, Memory>
        ensures ok { IfOk result (λ commands. commands.items ≡ open_commands self.now) }
        ensures numbers { IsNumbering self.now }
        ensures want { IsOkUnless result Memory.Want }
    {
        let mut commands = Vec::with_capacity(alloc, self.opened.len())?;
        'commands: for one in self.opened.iter() {
            commands.push(one.1.copy(alloc)?)?;
        }
        Ok(commands)
    }
}
