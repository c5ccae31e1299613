//! The queues that may have something to do.
ghost use Rattle.std.specs.Prelude.{◌≡◌, ◌<◌, [], length, remove, slice_index, OnOk, OnErr, IsOkUnless};
ghost use Rattle.qq_cluster.specs.Active.{AreRising, is_at, place_of, put_in};

use qq_base::Memory;
use std::alloc::Global;
use std::marker::Model;

/// Numbers in rising order, each once: the indexes of the queues that may have something to do. Contracts see
/// the list.
#[derive(Drop)]
pub struct Active {
    numbers: Vec<usize>,
}

impl Model for Active {
    ghost use Rattle.std.specs.Prelude.{ℕ, List};
    ghost use Rattle.qq_cluster.specs.Active.{AreRising};

    ghost Value = { List ℕ };

    ghost view = { λ a. a.numbers.items };

    ghost invariant = { λ a. AreRising a.numbers.items };
}

// How many of the numbers are below this one.
fn place_of(number: usize, numbers: &[usize]) -> usize
    requires { AreRising numbers.now }
    ensures { result ≡ place_of number numbers.now }
{
    numbers.partition_point(|other| *other < number)
}

fn is_at(number: usize, place: usize, numbers: &[usize]) -> bool
    ensures { result ≡ is_at number place numbers.now }
{
    match numbers.get(place) {
        None => false,
        Some(other) => *other == number,
    }
}

fn put_in(number: usize, numbers: &mut Vec<usize>) -> Result<(), Memory>
    requires { AreRising numbers.old.items }
    ensures ok { OnOk result (numbers.new.items ≡ put_in number numbers.old.items) }
    ensures err { OnErr result (numbers.new.items ≡ numbers.old.items) }
    ensures want { IsOkUnless result Memory.Want }
{
    let place = place_of(number, numbers);
    let there = is_at(number, place, numbers);
    if there {
        return Ok(());
    }
    numbers.insert(place, number)?;
    Ok(())
}

impl Active {
    /// None of them. It takes no memory.
    pub fn new(alloc: Global) -> Self
        ensures { result ≡ [] }
    {
        Active {
            numbers: Vec::new(alloc),
        }
    }

    /// How many there are.
    pub fn len(&self) -> usize
        ensures count { result ≡ length self.now }
        ensures rising { AreRising self.now }
    {
        self.numbers.len()
    }

    /// The number at a place.
    pub fn at(&self, place: usize) -> usize
        requires { place < length self.now }
        ensures { result ≡ slice_index self.now place }
    {
        self.numbers[place]
    }

    /// Adds a number, where it isn't there yet. Out of memory, the numbers stay.
    pub fn add(&mut self, number: usize) -> Result<(), Memory>
        ensures ok { OnOk result (self.new ≡ put_in number self.old) }
        ensures err { OnErr result (self.new ≡ self.old) }
        ensures want { IsOkUnless result Memory.Want }
    {
        put_in(number, &mut self.numbers)
    }

    /// Takes out the number at a place.
    pub fn remove(&mut self, place: usize)
        requires { place < length self.old }
        ensures { self.new ≡ remove self.old place }
    {
        let _ = self.numbers.remove(place);
    }
}
