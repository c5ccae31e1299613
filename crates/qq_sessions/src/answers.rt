//! The messages that kept answers name.
ghost use Rattle.std.specs.Prelude.{◌≡◌, ◌++◌, ◌<◌, take, length, slice_get, Some, IsOkUnless, OnOk};
ghost use Rattle.qq_live.specs.Indices.{Removes, HasRoomFor};
ghost use Rattle.qq_sessions.specs.Named.{got_indices, index_list, answers_indices};

use crate::row::Kepts;
use qq_base::{Index, Memory};
use qq_entry::Answer;
use qq_live::Live;

/// The index of the message that an answer names.
pub fn got_index(answer: &Answer) -> Option<Index>
    ensures { index_list result ≡ got_indices answer.now }
{
    match answer {
        Answer::Got(delivery) => Some(delivery.index),
        _ => None,
    }
}

fn answer_at(kept: &Kepts, place: usize) -> &Answer
    requires { place < length kept.now.items }

    ensures { slice_get kept.now.items place ≡ Some result.now }
{
    &kept[place]
}

// The message of an answer is let go.
fn let_go(named: &mut Live, answer: &Answer)
    ensures named { Removes (got_indices answer.now) named.old.indices named.new.indices }
    ensures room { HasRoomFor 1 named.old → HasRoomFor 1 named.new }
{
    match got_index(answer) {
        None => {}
        Some(index) => {
            named.remove(index);
        }
    }
}

/// The messages of the first answers, so many, are let go.
pub fn let_go_first(named: &mut Live, kept: &Kepts, count: u64)
    ensures named { Removes (answers_indices (take count kept.now.items))
        named.old.indices named.new.indices }
    ensures room { HasRoomFor 1 named.old → HasRoomFor 1 named.new }
{
    let most = count.min(kept.len() as u64) as usize;
    'answers: for place in 0..most {
        let_go(named, answer_at(kept, place));
    }
}

fn push_got(answer: &Answer, indices: &mut Vec<Index>) -> Result<(), Memory>
    ensures ok { OnOk result (indices.new.items
        ≡ indices.old.items ++ got_indices answer.now) }
    ensures want { IsOkUnless result Memory.Want }
{
    match got_index(answer) {
        None => Ok(()),
        Some(index) => {
            indices.push(index)?;
            Ok(())
        }
    }
}

/// The indices of a session's answers, put behind others.
pub fn push_answers(kept: &Kepts, indices: &mut Vec<Index>) -> Result<(), Memory>
    ensures ok { OnOk result (indices.new.items
        ≡ indices.old.items ++ answers_indices kept.now.items) }
    ensures want { IsOkUnless result Memory.Want }
{
    'answers: for place in 0..kept.len() {
        push_got(answer_at(kept, place), indices)?;
    }
    Ok(())
}
