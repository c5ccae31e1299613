//! What comes of a run outside of its queues.
ghost use Rattle.std.specs.Prelude.{◌≡◌, ◌++◌, [], IfOk, OnErr, OnOk, IsOkUnless};
ghost use Rattle.qq_cluster_model.specs.Outcome.{hear_some, heard_by};
ghost use Rattle.qq_cluster.specs.Telling.{tell, tell_all, turns_then};
ghost use Rattle.qq_taker.specs.Takers.{hear_on, heard_of, judge, listen, take_heard};

use qq_base::{Memory, QueueId, Text};
use qq_entry::Delivery;
use qq_script::shown_text;
use qq_session::Shown;
use qq_taker::{Desk, Heard, Refusal, Taker, Verdict};
use std::alloc::Global;
use std::marker::Model;
use std::mem;

/// What a run tells: its text, and the takers of consumers' deliveries.
///
/// Contracts see the text so far, what each taker has seen, and what who listens has heard.
#[derive(Drop)]
pub struct Told<T: Taker> {
    text: Vec<u8>,
    desk: Desk<T>,
}

impl<T: Taker> Model for Told<T> {
    ghost use Rattle.qq_cluster_model.specs.Outcome.{Outcome};

    ghost Value = { Outcome };

    ghost view = { λ t. record { text = t.text.items; takers = t.desk } };
}

impl<T: Taker> Told<T> {
    /// Nothing was told yet. It takes no memory.
    pub fn new(alloc: Global, desk: Desk<T>) -> Self
        ensures { result ≡ record { text = []; takers = desk } }
    {
        Told {
            text: Vec::new(alloc),
            desk,
        }
    }

    /// This text was told already. It takes no memory.
    pub fn over(text: Vec<u8>, desk: Desk<T>) -> Self
        ensures { result ≡ record { text = text.items; takers = desk } }
    {
        Told { text, desk }
    }

    /// The text so far.
    pub fn text(&self) -> &[u8]
        ensures { result.now ≡ self.now.text }
    {
        self.text.as_slice()
    }

    /// Adds to the text. Out of memory, all is as before.
    pub fn write(&mut self, more: &[u8]) -> Result<(), Memory>
        ensures ok { OnOk result (self.new
            ≡ record self.old { text = self.old.text ++ more.now }) }
        ensures err { OnErr result (self.new ≡ self.old) }
        ensures want { IsOkUnless result Memory.Want }
    {
        self.text.extend_from_slice(more)?;
        Ok(())
    }

    /// Takes the whole text out. The takers stay.
    pub fn take_text(&mut self, alloc: Global) -> Vec<u8>
        ensures text { result.items ≡ self.old.text }
        ensures rest { self.new ≡ record self.old { text = [] } }
    {
        mem::replace(&mut self.text, Vec::new(alloc))
    }

    /// Forgets the text. The takers stay.
    pub fn clear(&mut self)
        ensures { self.new ≡ record self.old { text = [] } }
    {
        self.text.clear();
    }

    /// The text, and the takers with what they have seen.
    pub fn into_parts(self) -> (Vec<u8>, Desk<T>)
        ensures text { result.0.items ≡ self.text }
        ensures takers { result.1 ≡ self.takers }
    {
        (self.text, self.desk)
    }

    /// The takers.
    pub fn desk(&self) -> &Desk<T>
        ensures { result.now ≡ self.now.takers }
    {
        &self.desk
    }

    /// The takers, with what they have seen.
    pub fn into_desk(self) -> Desk<T>
        ensures { result ≡ self.takers }
    {
        self.desk
    }

    /// From here on what is told is kept: answers, deliveries to consumers without a taker, and
    /// that commands weren't given to a leader. What was kept before is dropped.
    pub fn listen(&mut self, alloc: Global)
        ensures { self.new ≡ record self.old { takers = listen self.old.takers } }
    {
        self.desk.listen(alloc);
    }

    /// What was kept, in order; what comes next is kept from here on. None exactly where nobody
    /// listens.
    pub fn take_heard(&mut self, alloc: Global) -> Option<Vec<Heard>>
        ensures heard { heard_of result ≡ self.old.takers.heard }
        ensures rest { self.new ≡ record self.old { takers = take_heard self.old.takers } }
    {
        self.desk.take_heard(alloc)
    }

    /// What comes next is kept after this list, and what was kept is handed out. None is as if
    /// nobody listened.
    pub fn hear_on(&mut self, list: Option<Vec<Heard>>) -> Option<Vec<Heard>>
        ensures heard { heard_of result ≡ self.old.takers.heard }
        ensures rest { self.new
            ≡ record self.old { takers = hear_on (heard_of list) self.old.takers } }
    {
        self.desk.hear_on(list)
    }

    // Who listens hears what a queue shows, where it is for them.
    fn hear(&mut self, alloc: Global, queue: QueueId, shown: &Shown) -> Result<(), Memory>
        ensures ok { OnOk result (self.new ≡ record self.old {
          takers = hear_some (heard_by queue.0 shown.now) self.old.takers;
        }) }
        ensures want { IsOkUnless result Memory.Want }
    {
        match shown {
            Shown::Answered { row } => self.desk.hear_answer(alloc, queue, row)?,
            Shown::Delivered { consumer, delivery } => {
                self.desk.hear_delivery(alloc, queue, *consumer, delivery)?
            }
            Shown::NoLeader { session } => {
                self.desk.hear_refusal(queue, *session, Refusal::NoLeader)?
            }
            Shown::WindowFull { session } => {
                self.desk
                    .hear_refusal(queue, *session, Refusal::WindowFull)?
            }
            Shown::HasEnded { session } => {
                self.desk.hear_refusal(queue, *session, Refusal::Ended)?
            }
            Shown::NotTaken { session, id } => {
                self.desk
                    .hear_refusal(queue, *session, Refusal::NotTaken { id: *id })?
            }
            Shown::Attached { .. } => (),
            Shown::IsBusy { .. } => (),
            Shown::Taken { .. } => (),
            Shown::Dropped { .. } => (),
        }
        Ok(())
    }

    // A taker is given to a consumer, or is dropped, where that is shown.
    fn turn(&mut self, shown: &Shown)
        ensures { self.new ≡ record self.old { takers = turns_then shown.now self.old.takers } }
    {
        match shown {
            Shown::Attached { number, .. } => self.desk.give(*number),
            Shown::Dropped { number, .. } => self.desk.drop_at(*number),
            Shown::Answered { .. } => (),
            Shown::Delivered { .. } => (),
            Shown::NoLeader { .. } => (),
            Shown::WindowFull { .. } => (),
            Shown::HasEnded { .. } => (),
            Shown::NotTaken { .. } => (),
            Shown::IsBusy { .. } => (),
            Shown::Taken { .. } => (),
        }
    }

    // What a queue of this name shows is told. `first` says that it is the cluster's first one.
    fn tell(
        &mut self,
        alloc: Global,
        first: bool,
        queue: QueueId,
        name: &Text,
        shown: &Shown,
    ) -> Result<(), Memory>
        ensures ok { OnOk result (self.new
            ≡ tell first queue.0 name.now shown.now self.old) }
        ensures want { IsOkUnless result Memory.Want }
    {
        shown_text(alloc, first, name, shown, &mut self.text)?;
        self.turn(shown);
        self.hear(alloc, queue, shown)?;
        Ok(())
    }

    /// What a queue of this name shows is told, in order. `first` says that it is the cluster's first one.
    pub(crate) fn tell_all(
        &mut self,
        alloc: Global,
        first: bool,
        queue: QueueId,
        name: &Text,
        list: &[Shown],
    ) -> Result<(), Memory>
        ensures ok { OnOk result (self.new
            ≡ tell_all first queue.0 name.now list.now self.old) }
        ensures want { IsOkUnless result Memory.Want }
    {
        'list: for shown in list {
            self.tell(alloc, first, queue, name, shown)?;
        }
        Ok(())
    }

    /// A delivery is offered to the taker of this number. One that isn't there, or that no consumer was given, leaves
    /// the delivery with its consumer.
    pub(crate) fn ask(&mut self, number: u32, delivery: &Delivery) -> Result<Verdict, Memory>
        ensures ok { IfOk result (λ verdict. self.new ≡ record self.old {
          takers = judge number delivery.now verdict self.old.takers;
        }) }
        ensures want { IsOkUnless result Memory.Want }
    {
        let Some(verdict) = self.desk.offer(number, delivery)? else {
            return Ok(Verdict::Keep);
        };
        Ok(verdict)
    }
}
