ghost use Rattle.std.specs.Prelude.{◌≡◌, ◌+◌, ◌*◌, ◌<◌, ◌≤◌, ◌^◌, [], length, slice_get, IfOk, IsOkUnless, OnOk, OnErr};
ghost use Rattle.std.specs.Option.{option_copied, option_map};
ghost use Rattle.qq_model.specs.declared.place.Key.TheVariants.{Front, Back};
ghost use Rattle.qq_ready.specs.Queue.{no_messages, in_order, head, without_next, emptied, push_back, push_returned, bytes_of, AreKeyed, IsInOrder};

use crate::row::KeyedRow;
use qq_base::{Memory, both};
use qq_entry::ReadyRow;
use qq_model::Key;
use qq_undo::UndoDeque;
use std::alloc::Global;
use std::marker::Model;

/// How many keys of each kind were drawn, and how many bytes there are.
#[derive(Clone, Copy)]
struct Counts {
    orders: u64,
    returns: u64,
    bytes: u128,
}

/// The ready messages of a queue, the next first.
///
/// What was returned under a delivery limit comes before all else, in the order of the returns. Contracts
/// see two lists and the counters from which places are drawn, and the same as they were at the last
/// `commit`, which `undo` leads back to. No call goes through the messages, but `copy` and `from_parts`.
#[derive(Drop)]
pub struct Ready {
    fronts: UndoDeque<KeyedRow>,
    backs: UndoDeque<KeyedRow>,
    counts: Counts,
    base: Counts,
}

impl Model for Ready {
    ghost use Rattle.qq_ready.specs.Queue.{ReadyState, IsInOrder, CountsBytes, queue_of};

    ghost Value = { ReadyState };

    ghost view = { λ r. record {
      queue = queue_of r.fronts.items r.backs.items r.counts.orders r.counts.returns;
      base = queue_of r.fronts.base r.backs.base r.base.orders r.base.returns;
    } };

    ghost invariant = { λ r.
        (IsInOrder (queue_of r.fronts.items r.backs.items r.counts.orders r.counts.returns)
        × CountsBytes r.counts.bytes
        (queue_of r.fronts.items r.backs.items r.counts.orders r.counts.returns))
        × (IsInOrder (queue_of r.fronts.base r.backs.base r.base.orders r.base.returns)
        × CountsBytes r.base.bytes
        (queue_of r.fronts.base r.backs.base r.base.orders r.base.returns)) };
}

// The bytes of a message's body.
fn size(one: &KeyedRow) -> u128
    ensures size { result ≡ one.now.row.message.size }
    ensures fits { result < 2 ^ 32 }
{
    u128::from(one.row.message.size)
}

fn bytes_of(rows: &[KeyedRow]) -> u128
    ensures sum { result ≡ bytes_of rows.now }
    ensures fits { result ≤ length rows.now * 2 ^ 32 }
{
    let mut sum = 0;
    for one in rows {
        sum += size(one);
    }
    sum
}

// Takes all out. After an error both are as at the last commit.
fn clear_both(
    fronts: &mut UndoDeque<KeyedRow>,
    backs: &mut UndoDeque<KeyedRow>,
) -> Result<(), Memory>
    ensures fronts { OnOk result (fronts.new.items ≡ []) }
    ensures backs { OnOk result (backs.new.items ≡ []) }
    ensures no_fronts { OnErr result (fronts.new.items ≡ fronts.old.base) }
    ensures no_backs { OnErr result (backs.new.items ≡ backs.old.base) }
    ensures fronts_base { fronts.new.base ≡ fronts.old.base }
    ensures backs_base { backs.new.base ≡ backs.old.base }
    ensures want { IsOkUnless result Memory.Want }
{
    let cleared = fronts.clear().is_ok();
    let both = cleared && backs.clear().is_ok();
    if both {
        return Ok(());
    }
    fronts.undo();
    backs.undo();
    Err(Memory::Want)
}

impl Ready {
    /// No messages. It takes no memory.
    pub fn new(alloc: Global) -> Self
        ensures queue { result.queue ≡ no_messages }
        ensures base { result.base ≡ no_messages }
    {
        let counts = Counts {
            orders: 0,
            returns: 0,
            bytes: 0,
        };
        Ready {
            fronts: UndoDeque::new(alloc),
            backs: UndoDeque::new(alloc),
            counts,
            base: counts,
        }
    }

    /// The messages at the front and those behind them, each the next first, with their keys, and how many
    /// keys of each kind were drawn. They are committed. It takes no memory.
    pub fn from_parts(
        fronts: Vec<KeyedRow>,
        backs: Vec<KeyedRow>,
        orders: u64,
        returns: u64,
    ) -> Self
        requires fronts { AreKeyed Front returns fronts.items }
        requires backs { AreKeyed Back orders backs.items }

        ensures queue { result.queue ≡ record {
          fronts = fronts.items;
          backs = backs.items;
          orders = orders;
          returns = returns;
        } }
        ensures base { result.base ≡ result.queue }
    {
        let bytes = bytes_of(fronts.as_slice()) + bytes_of(backs.as_slice());
        let counts = Counts {
            orders,
            returns,
            bytes,
        };
        Ready {
            fronts: UndoDeque::from_vec(fronts),
            backs: UndoDeque::from_vec(backs),
            counts,
            base: counts,
        }
    }

    /// Puts a new message at the back, with the next key there. There has to be a key. After an error all
    /// is as before.
    pub fn push_new(&mut self, row: ReadyRow) -> Result<(), Memory>
        requires counts { self.old.queue.orders + 1 < 2 ^ 64 }

        ensures queue { OnOk result (self.new.queue ≡ push_back row self.old.queue) }
        ensures err { OnErr result (self.new.queue ≡ self.old.queue) }
        ensures base { self.new.base ≡ self.old.base }
        ensures want { IsOkUnless result Memory.Want }
    {
        self.push_back(row)
    }

    /// Puts a message that was returned without a delivery limit at the back, with the next key there.
    /// There has to be a key. After an error all is as before.
    pub fn push_back(&mut self, row: ReadyRow) -> Result<(), Memory>
        requires counts { self.old.queue.orders + 1 < 2 ^ 64 }

        ensures queue { OnOk result (self.new.queue ≡ push_back row self.old.queue) }
        ensures err { OnErr result (self.new.queue ≡ self.old.queue) }
        ensures base { self.new.base ≡ self.old.base }
        ensures want { IsOkUnless result Memory.Want }
    {
        let key = Key::Back(self.counts.orders + 1);
        let one = KeyedRow { key, row };
        let more = size(&one);
        self.backs.push_back(one)?;
        self.counts.bytes += more;
        self.counts.orders += 1;
        Ok(())
    }

    /// Puts a message that was returned under a delivery limit before all but those that were returned
    /// before it, with the next key there. There has to be a key. After an error all is as before.
    pub fn push_returned(&mut self, row: ReadyRow) -> Result<(), Memory>
        requires counts { self.old.queue.returns + 1 < 2 ^ 64 }

        ensures queue { OnOk result (self.new.queue ≡ push_returned row self.old.queue) }
        ensures err { OnErr result (self.new.queue ≡ self.old.queue) }
        ensures base { self.new.base ≡ self.old.base }
        ensures want { IsOkUnless result Memory.Want }
    {
        let key = Key::Front(self.counts.returns + 1);
        let one = KeyedRow { key, row };
        let more = size(&one);
        self.fronts.push_back(one)?;
        self.counts.bytes += more;
        self.counts.returns += 1;
        Ok(())
    }

    /// Takes the next message. None exactly where nothing is ready. After an error all is as before.
    pub fn pop_next(&mut self) -> Result<Option<ReadyRow>, Memory>
        ensures next { IfOk result (λ next.
            next ≡ option_map (λ one. one.row) (head (in_order self.old.queue))) }
        ensures queue { OnOk result (self.new.queue ≡ without_next self.old.queue) }
        ensures err { OnErr result (self.new.queue ≡ self.old.queue) }
        ensures base { self.new.base ≡ self.old.base }
        ensures want { IsOkUnless result Memory.Want }
    {
        if let Some(one) = self.fronts.pop_front()? {
            self.counts.bytes -= size(&one);
            return Ok(Some(one.row));
        }
        match self.backs.pop_front()? {
            None => Ok(None),
            Some(one) => {
                self.counts.bytes -= size(&one);
                Ok(Some(one.row))
            }
        }
    }

    /// Takes all messages out, in time that doesn't depend on how many there are. After an error all is
    /// as at the last commit.
    pub fn clear(&mut self) -> Result<(), Memory>
        ensures queue { OnOk result (self.new.queue ≡ emptied self.old.queue) }
        ensures err { OnErr result (self.new.queue ≡ self.old.base) }
        ensures base { self.new.base ≡ self.old.base }
        ensures want { IsOkUnless result Memory.Want }
    {
        if let Err(cause) = clear_both(&mut self.fronts, &mut self.backs) {
            self.counts = self.base;
            return Err(cause);
        }
        self.counts.bytes = 0;
        Ok(())
    }

    /// Makes the queue as it is what `undo` leads back to. It takes no memory.
    pub fn commit(&mut self)
        ensures queue { self.new.queue ≡ self.old.queue }
        ensures base { self.new.base ≡ self.old.queue }
    {
        self.fronts.commit();
        self.backs.commit();
        self.base = self.counts;
    }

    /// Takes back what was changed since the last commit. It takes no memory.
    pub fn undo(&mut self)
        ensures queue { self.new.queue ≡ self.old.base }
        ensures base { self.new.base ≡ self.old.base }
    {
        self.fronts.undo();
        self.backs.undo();
        self.counts = self.base;
    }

    /// A message by its place, counted from the next one on. None exactly where there is none.
    pub fn row_at(&self, place: usize) -> Option<&KeyedRow>
        ensures { option_copied result ≡ slice_get (in_order self.now.queue) place }
    {
        if place < self.fronts.len() {
            self.fronts.get(place)
        } else {
            self.backs.get(place - self.fronts.len())
        }
    }

    /// How many keys at the back, and how many at the front, were drawn. Each message has a key of its own
    /// kind, and the keys of one kind rise.
    pub fn counters(&self) -> (u64, u64)
        ensures order { IsInOrder self.now.queue }
        ensures orders { result.0 ≡ self.now.queue.orders }
        ensures returns { result.1 ≡ self.now.queue.returns }
    {
        (self.counts.orders, self.counts.returns)
    }

    /// How many messages are ready.
    pub fn count(&self) -> u64
        ensures { result ≡ length (in_order self.now.queue) }
    {
        self.fronts.len() as u64 + self.backs.len() as u64
    }

    /// How many bytes their bodies have.
    pub fn bytes(&self) -> u128
        ensures { result ≡ bytes_of (in_order self.now.queue) }
    {
        self.counts.bytes
    }

    /// The same messages, committed, in memory of their own.
    pub fn copy(&self, alloc: Global) -> Result<Self, Memory>
        ensures ok { IfOk result (λ twin. twin.queue ≡ self.now.queue) }
        ensures base { IfOk result (λ twin. twin.base ≡ self.now.queue) }
        ensures want { IsOkUnless result Memory.Want }
    {
        let (fronts, backs) = both(self.fronts.copy(alloc), self.backs.copy(alloc))?;
        Ok(Ready {
            fronts,
            backs,
            counts: self.counts,
            base: self.counts,
        })
    }
}
