ghost use Rattle.std.specs.Prelude.{◌≡◌, ◌<◌, ◌≤◌, ℕ, [], nat_eq, nat_lt, length, slice_get, vec_len, IfOk, IsOkUnless, OnOk};
ghost use Rattle.std.specs.List.{list_any};
ghost use Rattle.std.specs.Vec.{vec_capacity};
ghost use Rattle.qq_model.specs.Gate.{put_ended};
ghost use Rattle.qq_sessions.specs.Rising.{Rises, place_of, is_at, number_key};

use qq_base::Memory;
use std::alloc::Global;
use std::marker::Model;

/// The numbers of the clients' sessions that have ended, rising.
#[derive(Drop)]
pub struct Ended {
    numbers: Vec<u64>,
}

impl Model for Ended {
    ghost use Rattle.std.specs.Prelude.{◌-◌, vec_len};
    ghost use Rattle.std.specs.Vec.{vec_capacity};
    ghost use Rattle.qq_sessions.specs.Rising.{Numbers, Rises, number_key};

    ghost Value = { Numbers };

    ghost view = { λ e. record {
      numbers = e.numbers.items;
      room = vec_capacity e.numbers - vec_len e.numbers;
    } };

    ghost invariant = { λ e. Rises number_key e.numbers.items };
}

fn place_of(number: u64, numbers: &[u64]) -> usize
    requires { Rises number_key numbers.now }

    ensures place { result ≡ place_of number_key number numbers.now }
    ensures within { result ≤ length numbers.now }
{
    numbers.partition_point(|other| *other < number)
}

fn is_at(number: u64, place: usize, numbers: &[u64]) -> bool
    ensures { result ≡ is_at number_key number place numbers.now }
{
    match numbers.get(place) {
        None => false,
        Some(other) => *other == number,
    }
}

fn put(numbers: &mut Vec<u64>, number: u64)
    requires rising { Rises number_key numbers.old.items }
    requires room { vec_len numbers.old < vec_capacity numbers.old }

    ensures { numbers.new.items ≡ put_ended number numbers.old.items }
{
    let place = place_of(number, numbers.as_slice());
    if is_at(number, place, numbers.as_slice()) {
        return;
    }
    numbers.insert(place, number).unwrap();
}

impl Ended {
    /// No numbers. It takes no memory.
    pub fn new(alloc: Global) -> Self
        ensures { result.numbers ≡ [] }
    {
        Ended {
            numbers: Vec::new(alloc),
        }
    }

    /// These numbers, which rise. It takes no memory.
    pub fn from_vec(numbers: Vec<u64>) -> Self
        requires { Rises number_key numbers.items }

        ensures { result.numbers ≡ numbers.items }
    {
        Ended { numbers }
    }

    /// The number at a place. None exactly where there is none.
    pub fn at(&self, place: usize) -> Option<u64>
        ensures { result ≡ slice_get self.now.numbers place }
    {
        self.numbers.as_slice().get(place).copied()
    }

    /// Whether a number is there, by binary search.
    pub fn contains(&self, number: u64) -> bool
        ensures { result ≡ list_any (λ (other : ℕ). nat_eq other number) self.now.numbers }
    {
        let numbers = self.numbers.as_slice();
        is_at(number, place_of(number, numbers), numbers)
    }

    /// Makes room for one more number.
    pub fn reserve(&mut self) -> Result<(), Memory>
        ensures same { self.new.numbers ≡ self.old.numbers }
        ensures ok { OnOk result (0 < self.new.room) }
        ensures want { IsOkUnless result Memory.Want }
    {
        self.numbers.reserve(1)?;
        Ok(())
    }

    /// Adds a number, if it isn't there.
    pub fn put(&mut self, number: u64)
        requires { 0 < self.old.room }

        ensures { self.new.numbers ≡ put_ended number self.old.numbers }
    {
        put(&mut self.numbers, number);
    }

    /// The same numbers.
    pub fn copy(&self, alloc: Global) -> Result<Ended, Memory>
        ensures ok { IfOk result (λ twin. twin.numbers ≡ self.now.numbers) }
        ensures want { IsOkUnless result Memory.Want }
    {
        Ok(Ended {
            numbers: Vec::from_slice(alloc, &self.numbers)?,
        })
    }
}
