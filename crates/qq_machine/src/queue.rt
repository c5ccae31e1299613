ghost use Rattle.std.specs.Prelude.{◌≡◌, ◌+◌, ◌<◌, ◌≤◌, ◌^◌, IfOk, IsOkUnless, OnOk};

use crate::counted::Counted;
use crate::gated::Gated;
use qq_base::Memory;
use qq_dead::Dead;
use qq_entry::{Answer, Effect};
use qq_ledger::Tracked;
use qq_ready::Ready;

/// The numbers of a queue at the last commit.
#[derive(Clone, Copy)]
pub struct Saved {
    pub applied: u64,
    pub arrivals: u64,
}

/// A queue but for its arguments, which a step never copies. Each part of it tells what it was at the last
/// commit, and can be that again.
#[derive(Drop)]
pub struct Queue {
    pub applied: u64,
    pub arrivals: u64,
    pub saved: Saved,
    pub sessions: Gated,
    pub ready: Tracked<Ready>,
    pub consumers: Counted,
    pub dead: Tracked<Dead>,
}

/// A queue while an entry is applied, and the effects so far.
#[derive(Drop)]
pub struct Draft {
    pub queue: Queue,
    pub effects: Vec<Effect>,
}

/// Whether an entry's command counted as fresh, and its answer.
#[derive(Drop)]
pub struct Made {
    pub fresh: bool,
    pub answer: Answer,
}

/// The number that follows. At the end of 64 bits memory is out.
pub fn next_number(number: u64) -> Result<u64, Memory>
    ensures ok { IfOk result (λ next. next ≡ number + 1) }
    ensures fits { OnOk result (number + 1 < 2 ^ 64) }
    ensures want { IsOkUnless result Memory.Want }
{
    match number.checked_add(1) {
        Some(next) => Ok(next),
        None => Err(Memory::Want),
    }
}
