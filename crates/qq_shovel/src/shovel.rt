//! What moves messages, as data.
ghost use Rattle.std.specs.Prelude.{◌≡◌, ◌+◌, filter, ◌≤◌, ◌∷◌, [], Some, true, false, length, is_some, IfErr, IfOk, IsOkUnless, OnErr, OnOk};
ghost use Rattle.qq_base.specs.declared.memory.Memory.TheVariants.{Want};
ghost use Rattle.qq_model.specs.declared.TheConstants.{WINDOW};
ghost use Rattle.qq_shovel.specs.Moving.{after_delivery, after_row, close_by, confirmed, is_confirmed, is_new, is_open, is_other, publish_of, published, settle_by, settled};
ghost use Rattle.qq_shovel.specs.Faults.{IsMoveCaused};

use crate::fault::MoveFault;
use qq_base::{Ids, Memory, QueueId, SessionId};
use qq_entry::{Answer, AuditRow, Command, Delivery, Unstamped};
use qq_model::WINDOW;
use std::alloc::Global;
use std::marker::Model;

/// The tag of the consumer at the source.
pub const TAG: u32 = 1;

/// What moves the messages of a queue to another one. It calls nobody: it is told what arrives, and says what is to be
/// given.
#[derive(Drop)]
pub struct Shovel {
    source: QueueId,
    target: QueueId,
    session: SessionId,
    prefetch: u16,
    had: u64,
    opened: Vec<u64>,
}

impl Model for Shovel {
    ghost use Rattle.qq_shovel.specs.Moving.{Moving};

    ghost Value = { Moving };

    ghost view = { λ s. record {
      source = s.source;
      target = s.target;
      session = s.session;
      prefetch = s.prefetch;
      had = s.had;
      opened = s.opened.items;
    } };
}

// The number of a session's publish.
fn publish_of(session: SessionId, command: &Command) -> Option<u64>
    ensures { result ≡ publish_of session command.now }
{
    match command {
        Command::Enqueue { stamp, .. } => {
            if stamp.session == session {
                return Some(stamp.seq);
            }
            None
        }
        _ => None,
    }
}

fn is_confirmed(answer: &Answer) -> bool
    ensures { result ≡ is_confirmed answer.now }
{
    match answer {
        Answer::Confirmed => true,
        _ => false,
    }
}

// The number that a row confirms.
fn confirmed(session: SessionId, row: &AuditRow) -> Option<u64>
    ensures { result ≡ confirmed session row.now }
{
    if !row.fresh {
        return None;
    }
    if !is_confirmed(&row.answer) {
        return None;
    }
    publish_of(session, row.entry.command.get())
}

// A list of one number.
fn only(alloc: Global, number: u64) -> Result<Ids, Memory>
    ensures ok { IfOk result (λ ids. ids ≡ number ∷ []) }
    ensures want { IsOkUnless result Want }
{
    let mut ids = Ids::new(alloc);
    ids.push(number)?;
    Ok(ids)
}

// A number isn't open any more.
fn close(opened: &mut Vec<u64>, number: u64)
    ensures { opened.new.items ≡ filter (is_other number) opened.old.items }
{
    opened.retain(|other| number != *other);
}

impl Shovel {
    /// Nothing was moved yet. The session is its own at both queues. It takes no memory.
    pub fn new(
        alloc: Global,
        source: QueueId,
        target: QueueId,
        session: SessionId,
        prefetch: u16,
    ) -> Self
        ensures { result ≡ record {
          source = source;
          target = target;
          session = session;
          prefetch = prefetch;
          had = 0;
          opened = [];
        } }
    {
        Shovel {
            source,
            target,
            session,
            prefetch,
            had: 0,
            opened: Vec::new(alloc),
        }
    }

    /// A delivery of the source arrives. Its message is to be published at the target, under the number that its id is.
    /// None comes exactly for a repeat: an id that it has had.
    ///
    /// - `first`, `next`, `content`: ids come in turn from 1, and a delivery brings its content.
    /// - `err`: after an error it is as before.
    /// - `cause`, `full`: `WindowFull` comes exactly where 256 publishes are open and the delivery is new.
    pub fn delivered(&mut self, delivery: Delivery) -> Result<Option<Unstamped>, MoveFault>
        requires first { 1 ≤ delivery.id }
        requires next { delivery.id ≤ self.old.had + 1 }
        requires content { is_some delivery.message.content ≡ true }
        ensures given { IfOk result (λ body. body ≡ published self.old delivery) }
        ensures state { OnOk result (self.new ≡ after_delivery delivery self.old) }
        ensures err { OnErr result (self.new ≡ self.old) }
        ensures cause { IfErr result (IsMoveCaused (length self.old.opened)) }
        ensures full { is_new self.old delivery ≡ true → WINDOW ≤ length self.old.opened →
            OnOk result ⊥ }
    {
        if delivery.id <= self.had {
            return Ok(None);
        }
        if self.opened.len() as u64 >= WINDOW {
            return Err(MoveFault::WindowFull);
        }
        self.opened.push(delivery.id)?;
        self.had = delivery.id;
        Ok(Some(Unstamped::Enqueue {
            origin: None,
            message: delivery.message,
        }))
    }

    /// The target shows a row. The first time that it confirms a publish, the delivery of that number is to be settled.
    /// Out of memory it is as before.
    pub fn answered(&mut self, alloc: Global, row: &AuditRow) -> Result<Option<Unstamped>, Memory>
        ensures given { IfOk result (λ body. body ≡ settled self.old row.now) }
        ensures state { OnOk result (self.new ≡ after_row row.now self.old) }
        ensures err { OnErr result (self.new ≡ self.old) }
        ensures want { IsOkUnless result Want }
    {
        match confirmed(self.session, row) {
            Some(number) => self.settle(alloc, number),
            None => Ok(None),
        }
    }

    // A publish was confirmed.
    fn settle(&mut self, alloc: Global, number: u64) -> Result<Option<Unstamped>, Memory>
        ensures given { IfOk result (λ body. body ≡ settle_by self.old (Some number)) }
        ensures state { OnOk result (self.new ≡ close_by (Some number) self.old) }
        ensures err { OnErr result (self.new ≡ self.old) }
        ensures want { IsOkUnless result Want }
    {
        let ids = only(alloc, number)?;
        let is_open = self.opened.contains(&number);
        close(&mut self.opened, number);
        if !is_open {
            return Ok(None);
        }
        Ok(Some(Unstamped::Settle { tag: TAG, ids }))
    }

    /// How many publishes aren't confirmed yet.
    pub fn open_count(&self) -> usize
        ensures { result ≡ length self.now.opened }
    {
        self.opened.len()
    }
}
