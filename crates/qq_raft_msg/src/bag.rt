ghost use Rattle.std.specs.Prelude.{◌≡◌, ◌++◌, ◌∷◌, [], Some, None, Ok, Err, length, IfOk, IfErr, IfSome, IfNone, OnOk, OnErr, IsSomeAnd};
ghost use Rattle.qq_base.specs.Causes.{SpentOnlyWhere};
ghost use Rattle.qq_raft_msg.specs.Bag.{at_place, without, HasCopyCause};

use crate::rpc::Rpc;
use qq_base::{Duplicate, Memory};
use std::alloc::Global;
use std::collections::VecDeque;
use std::marker::Model;
use thiserror::Error;

/// The most messages of a bag.
pub const BAG_LIMIT: u32 = u32::MAX;

/// The messages that are on their way, which may be delivered in any order, lost and doubled. Their places
/// are counted from 1. Contracts see it as a list.
#[derive(Drop)]
pub struct Bag {
    messages: VecDeque<Rpc>,
}

/// The bag has no message at that place.
#[derive(Clone, Copy, Debug, PartialEq, Eq, Error)]
#[error("no such message")]
pub struct NoSuch;

/// Why no message was doubled.
#[derive(Clone, Copy, Debug, PartialEq, Eq, Error)]
pub enum CopyFault {
    /// The bag has no message at that place.
    #[error("no such message")]
    NoSuch,
    /// Out of memory, or the bag is full.
    #[error("{0}")]
    Memory(Memory),
}

impl From<Memory> for CopyFault {
    ghost use Rattle.qq_raft_msg.specs.declared.bag.CopyFault.TheVariants.{Memory};

    ghost from_gives = { λ m e. e ≡ Memory m };

    fn from(cause: Memory) -> Self {
        CopyFault::Memory(cause)
    }
}

impl Model for Bag {
    ghost use Rattle.std.specs.Prelude.{◌≤◌, List};
    ghost use Rattle.std.specs.VecDeque.{deque_len};
    ghost use Rattle.qq_raft_msg.specs.declared.bag.TheConstants.{BAG_LIMIT};
    ghost use Rattle.qq_raft_msg.specs.declared.rpc.Rpc.{Rpc};

    ghost Value = { List Rpc };

    ghost view = { λ b. b.messages.items };

    ghost invariant = { λ b. deque_len b.messages ≤ BAG_LIMIT };
}

impl Bag {
    /// An empty bag. It takes no memory.
    pub fn new(alloc: Global) -> Self
        ensures { result ≡ [] }
    {
        Bag {
            messages: VecDeque::new(alloc),
        }
    }

    /// How many messages there are.
    pub fn len(&self) -> u32
        ensures { result ≡ length self.now }
    {
        self.messages.len() as u32
    }

    /// The message at a place. None exactly where there is none.
    pub fn get(&self, k: u32) -> Option<&Rpc>
        ensures some { IfSome result (λ rpc. at_place k self.now ≡ Some rpc.now) }
        ensures none { IfNone result (at_place k self.now ≡ None) }
    {
        if k == 0 {
            return None;
        }
        self.messages.get(k as usize - 1)
    }

    /// Adds a message at the end. `Spent` tells `BAG_LIMIT`, exactly where so many are there. After an
    /// error the bag stays.
    pub fn put(&mut self, rpc: Rpc) -> Result<(), Memory>
        ensures ok { OnOk result (self.new ≡ self.old ++ rpc ∷ []) }
        ensures err { OnErr result (self.new ≡ self.old) }
        ensures cause { IfErr result (λ e.
            SpentOnlyWhere e BAG_LIMIT (length self.old ≡ BAG_LIMIT)) }
        ensures spent { length self.old ≡ BAG_LIMIT → result ≡ Err (Memory.Spent BAG_LIMIT) }
    {
        if self.messages.len() == BAG_LIMIT as usize {
            return Err(Memory::Spent {
                number: BAG_LIMIT as u64,
            });
        }
        self.messages.push_back(rpc)?;
        Ok(())
    }

    /// Takes the message at a place out. `NoSuch` comes exactly where there is none, and then the bag
    /// stays.
    pub fn deliver(&mut self, k: u32) -> Result<Rpc, NoSuch>
        ensures ok { IfOk result (λ rpc. at_place k self.old ≡ Some rpc) }
        ensures err { OnErr result (at_place k self.old ≡ None) }
        ensures rest { self.new ≡ without k self.old }
    {
        if k == 0 {
            return Err(NoSuch);
        }
        match self.messages.remove(k as usize - 1) {
            Some(rpc) => Ok(rpc),
            None => Err(NoSuch),
        }
    }

    /// Drops the message at a place. `NoSuch` comes exactly where there is none, and then the bag stays.
    pub fn lose(&mut self, k: u32) -> Result<(), NoSuch>
        ensures ok { OnOk result (IsSomeAnd (at_place k self.old) (λ _. Unit {0})) }
        ensures err { OnErr result (at_place k self.old ≡ None) }
        ensures rest { self.new ≡ without k self.old }
    {
        self.deliver(k)?;
        Ok(())
    }

    /// Adds a copy of the message at a place at the end. `NoSuch` comes exactly where there is none, and
    /// `Spent` exactly where there is one and the bag has `BAG_LIMIT` messages. After an error the bag
    /// stays.
    pub fn copy(&mut self, alloc: Global, k: u32) -> Result<(), CopyFault>
        ensures ok { OnOk result
            (IsSomeAnd (at_place k self.old) (λ rpc. self.new ≡ self.old ++ rpc ∷ [])) }
        ensures err { OnErr result (self.new ≡ self.old) }
        ensures cause { IfErr result (HasCopyCause k self.old) }
        ensures none { at_place k self.old ≡ None → result ≡ Err CopyFault.NoSuch }
    {
        let twin = match self.get(k) {
            None => return Err(CopyFault::NoSuch),
            Some(rpc) => rpc.copy(alloc)?,
        };
        self.put(twin)?;
        Ok(())
    }
}
