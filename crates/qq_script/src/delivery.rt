ghost use Rattle.std.specs.Prelude.{◌≡◌, ◌++◌, ◌∷◌, [], Some, OnOk, IsOkUnless, OnErr};
ghost use Rattle.qq_script.specs.Text.{content_body, delivery_words, delivery_text, line_prefix};

use crate::answer::{content_body, push_line_prefix};
use crate::piece::Piece;
use crate::words::{push_line, put_mark, put_numbered};
use qq_base::{ConsumerId, Memory, Text};
use qq_entry::Delivery;
use std::alloc::Global;

// Puts the words of a delivery and a blank, and gives the message's body, which follows.
fn put_delivery<'a>(piece: &mut Piece, consumer: ConsumerId, delivery: &'a Delivery) -> &'a [u8]
    requires { piece.old ≡ [] }

    ensures { piece.new ++ result.now ≡ delivery_words consumer delivery.now
        ++ 32 ∷ content_body delivery.now.message.content }
{
    piece.put_text(" ");
    put_mark(piece, delivery.arrival, delivery.count);
    piece.put_text(" ");
    put_numbered(piece, " ", delivery.id);
    put_numbered(piece, "deliver ", u64::from(consumer.tag));
    content_body(&delivery.message.content)
}

/// Adds the line of a delivery to a consumer, with its line feed. `first` says that the queue is the first
/// one. Session 1 of the first queue isn't named.
///
/// - `ok`: the line stands behind what `out` had.
/// - `err`, `want`: it fails for want of memory alone, and then `out` stays.
pub fn delivery_text(
    alloc: Global,
    first: bool,
    queue: &Text,
    consumer: ConsumerId,
    delivery: &Delivery,
    out: &mut Vec<u8>,
) -> Result<(), Memory>
    ensures ok { OnOk result (out.new.items ≡
        out.old.items ++ delivery_text first queue.now consumer delivery.now) }
    ensures err { OnErr result (out.new.items ≡ out.old.items) }
    ensures want { IsOkUnless result Memory.Want }
{
    let mut prefix = Vec::new(alloc);
    push_line_prefix(&mut prefix, first, Some(consumer.session), queue.as_str())?;
    let mut words = Piece::new();
    let body = put_delivery(&mut words, consumer, delivery);
    push_line(out, &prefix, words.text(), body)
}
