ghost use Rattle.std.specs.Prelude.{◌≡◌, ◌<◌, ℕ, length, slice_index_or, vec_len};

use crate::turn::{Turn, Turned};
use std::alloc::Global;
use std::sync::Wait;
use std::thread;
use std::thread::Threads;

/// Turns each value until its turn answers `Ended` or is refused, each value in a thread of its own where
/// one can be made, and gives them all back in their places. After an idle turn a value rests. It can't be
/// refused, and takes no memory but what the turns take with this allocator. Where no thread can be made the
/// values are turned one after another, so values that wait for one another may then wait for ever.
pub fn run_all<R: Threads + Wait + Sync, T: Turn + Send>(
    rt: &R,
    alloc: Global,
    turns: Vec<T>,
) -> Vec<T>
    ensures count { vec_len result ≡ vec_len turns }
    ensures over { (place : ℕ) (other : T) → place < vec_len turns →
        T.over (slice_index_or result.items place other) }
    ensures places { (place : ℕ) (other : T) → place < vec_len turns →
        T.name (slice_index_or result.items place other)
        ≡ T.name (slice_index_or turns.items place other) }
{
    let mut back = turns;
    thread::for_each_chunk_mut(
        rt,
        back.as_mut_slice(),
        1,
        &|_, chunk| turn_chunk(rt, alloc, chunk),
    );
    back
}

fn turn_chunk<W: Wait, T: Turn>(rt: &W, alloc: Global, chunk: &mut [T])
    requires { length chunk.old ≡ 1 }
    ensures over { (k : ℕ) (other : T) → k < length chunk.old →
        T.over (slice_index_or chunk.new k other) }
    ensures name { (k : ℕ) (other : T) → k < length chunk.old →
        T.name (slice_index_or chunk.new k other) ≡ T.name (slice_index_or chunk.old k other) }
{
    turn_to_end(rt, alloc, &mut chunk[0]);
}

fn turn_to_end<W: Wait, T: Turn>(rt: &W, alloc: Global, value: &mut T)
    ensures over { T.over value.new }
    ensures name { T.name value.new ≡ T.name value.old }
{
    'turns: for _ in rt.forever() {
        match value.turn(rt, alloc) {
            Ok(Turned::Worked) => {}
            Ok(Turned::Idle) => value.rest(rt),
            Ok(Turned::Ended) | Err(_) => return,
        }
    }
    unreachable!()
}
