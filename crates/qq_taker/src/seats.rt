ghost use Rattle.std.specs.Prelude.{◌≡◌, ◌∷◌, [], find, IsOkUnless, OnErr, OnOk};
ghost use Rattle.std.specs.List.{position, position_or_len};
ghost use Rattle.qq_taker.specs.Seats.{is_above, leaves, sit, taker_of, without_first};

use qq_base::{ConsumerId, Memory, SessionId};
use std::alloc::Global;
use std::marker::Model;

/// A consumer, and its taker's number.
#[derive(Clone, Copy)]
pub struct Seat {
    pub consumer: ConsumerId,
    /// From 1.
    pub number: u32,
}

/// Who loses its taker.
#[derive(Clone, Copy)]
pub enum Leaving {
    /// This consumer.
    Consumer(ConsumerId),
    /// Each consumer of this session.
    Session(SessionId),
}

impl Leaving {
    fn leaves(&self, seat: &Seat) -> bool
        ensures { result ≡ leaves self.now seat.now }
    {
        match self {
            Leaving::Consumer(id) => seat.consumer == *id,
            Leaving::Session(session) => seat.consumer.session == *session,
        }
    }
}

fn first_above(tag: u32, rows: &[Seat]) -> Option<usize>
    ensures { result ≡ position (is_above tag) rows.now }
{
    rows.iter().position(|seat| tag < seat.consumer.tag)
}

fn first_leaving(whom: Leaving, rows: &[Seat]) -> Option<usize>
    ensures { result ≡ position (leaves whom) rows.now }
{
    rows.iter().position(|seat| whom.leaves(seat))
}

// The place of the first of a higher tag, or their count.
fn place_above(tag: u32, rows: &[Seat]) -> usize
    ensures { result ≡ position_or_len (is_above tag) rows.now }
{
    match first_above(tag, rows) {
        Some(at) => at,
        None => rows.len(),
    }
}

// The place of the first that loses its taker, or their count.
fn place_leaving(whom: Leaving, rows: &[Seat]) -> usize
    ensures { result ≡ position_or_len (leaves whom) rows.now }
{
    match first_leaving(whom, rows) {
        Some(at) => at,
        None => rows.len(),
    }
}

/// The consumers of a queue that have a taker. Contracts see them in the order of their tags.
#[derive(Drop)]
pub struct Seats {
    rows: Vec<Seat>,
}

impl Model for Seats {
    ghost use Rattle.std.specs.Prelude.{List};
    ghost use Rattle.qq_taker.specs.declared.seats.Seat.{Seat};

    ghost Value = { List Seat };

    ghost view = { λ s. s.rows.items };
}

impl Seats {
    /// No consumer has one. It takes no memory.
    pub fn new(alloc: Global) -> Self
        ensures { result ≡ [] }
    {
        Seats {
            rows: Vec::new(alloc),
        }
    }

    /// The number of a consumer's taker. None exactly where it has none.
    pub fn taker_of(&self, id: ConsumerId) -> Option<u32>
        ensures { result ≡ taker_of id self.now }
    {
        for seat in &self.rows {
            if seat.consumer == id {
                return Some(seat.number);
            }
        }
        None
    }

    /// Gives a consumer a taker, after those of lower tags. Out of memory, all is as before.
    pub fn sit(&mut self, id: ConsumerId, number: u32) -> Result<(), Memory>
        ensures ok { OnOk result (self.new ≡ sit (record { consumer = id; number = number }) self.old) }
        ensures err { OnErr result (self.new ≡ self.old) }
        ensures want { IsOkUnless result Memory.Want }
    {
        let at = place_above(id.tag, &self.rows);
        let seat = Seat {
            consumer: id,
            number,
        };
        self.rows.insert(at, seat)?;
        Ok(())
    }

    /// The first of those that lose their takers gives it up, and is answered. None exactly where there is none.
    pub fn leave_first(&mut self, whom: Leaving) -> Option<Seat>
        ensures seat { result ≡ find (leaves whom) self.old }
        ensures after { self.new ≡ without_first whom self.old }
    {
        let at = place_leaving(whom, &self.rows);
        if at >= self.rows.len() {
            return None;
        }
        Some(self.rows.remove(at))
    }
}
