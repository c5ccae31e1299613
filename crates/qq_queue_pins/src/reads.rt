//! Laws of what is read of the parts: the functions do nothing, and their contracts are the laws.
ghost use Rattle.std.specs.Prelude.{◌≡◌, ℕ, Some, Contains, length};
ghost use Rattle.std.specs.Option.{option_map};
ghost use Rattle.qq_parts.specs.Reduced.{Item, item_row};
ghost use Rattle.qq_model.specs.Changes.{message_of};
ghost use Rattle.qq_model.specs.Choice.{next_message, out_count};
ghost use Rattle.qq_model.specs.Commands.{dead_row};
ghost use Rattle.qq_model.specs.Limits.{ready_count, ready_bytes, dead_count, live_count};
ghost use Rattle.qq_model.specs.Serving.{next_dead, given_count};
ghost use Rattle.qq_model.specs.State.{State};
ghost use Rattle.qq_parts.specs.Changes.{Taken};
ghost use Rattle.qq_parts.specs.Letters.{first_above, given_of, take_dead};
ghost use Rattle.qq_parts.specs.Outs.{taken_row};
ghost use Rattle.qq_parts.specs.Parts.{Parts, Served, Stands, StandsWith, IsWhole, items_of};
ghost use Rattle.qq_parts.specs.Reads.{first_of, ready_items, size_of};

use qq_parts::{parts_tell_dead_letters, parts_tell_the_queue};

/// A law: of parts that stand for a queue.
///
/// - `next`, `ready`, `bytes`: the next message is the first of the ready ones, which are as many as the queue's, with
///   as many bytes.
/// - `live`, `dead`: so many messages are live, and so many dead, as the lists are long.
/// - `out`: so many are out with a consumer as are in its list.
/// - `message`: each item has its row's message.
pub fn counts_are_lengths()
    ensures next { (m : Parts) (s : State) → Stands m s → IsWhole m →
        next_message s.rows ≡ option_map item_row (first_of (ready_items m)) }
    ensures ready { (m : Parts) (s : State) → Stands m s → IsWhole m →
        ready_count s.rows ≡ length (ready_items m) }
    ensures bytes { (m : Parts) (s : State) → Stands m s → IsWhole m →
        ready_bytes s.rows ≡ size_of (ready_items m) }
    ensures live { (m : Parts) (s : State) → Stands m s → IsWhole m →
        live_count s.rows ≡ length (items_of m) }
    ensures dead { (m : Parts) (s : State) → Stands m s → IsWhole m →
        dead_count s.rows ≡ length m.dead }
    ensures out { (m : Parts) (s : State) (one : Served) → Stands m s → IsWhole m →
        Contains m.served one → out_count one.consumer.id s.rows ≡ length one.out }
    ensures message { (m : Parts) (s : State) (x : Item) → Stands m s → IsWhole m →
        Contains (items_of m) x → message_of s.rows s.messages x.row ≡ x.message }
{
    parts_tell_the_queue();
}

/// A law: of the dead letters of parts that stand for a queue.
///
/// - `next`, `count`: the next one for the worker is the first above what it was given, and so many up to that are
///   under way.
/// - `found`, `taken`: the one of a number is taken out, and once it is, the queue stands for what is left and that
///   message more.
pub fn dead_letters_are_found()
    ensures next { (m : Parts) (s : State) (given : ℕ) → Stands m s → IsWhole m →
        next_dead given s.rows ≡ option_map item_row (first_above given m.dead) }
    ensures count { (m : Parts) (s : State) (given : ℕ) → Stands m s → IsWhole m →
        given_count given s.rows ≡ given_of given m.dead }
    ensures found { (m : Parts) (s : State) (number : ℕ) → Stands m s → IsWhole m →
        dead_row number s.rows ≡ option_map taken_row (take_dead number m) }
    ensures taken { (m : Parts) (s : State) (number : ℕ) (taken : Taken) → Stands m s →
        IsWhole m → take_dead number m ≡ Some taken →
        StandsWith taken.item taken.left s × IsWhole taken.left }
{
    parts_tell_dead_letters();
}
