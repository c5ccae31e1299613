ghost use Rattle.std.specs.Prelude.{◌≡◌, List, Option, IfOk, OnErr, IsOkUnless};
ghost use Rattle.qq_taker.specs.declared.taker.Seen.{Seen};
ghost use Rattle.qq_taker.specs.Seen.{see};

use qq_base::Memory;
use qq_entry::Delivery;

/// What becomes of a delivery.
#[derive(Clone, Copy, Debug, PartialEq, Eq)]
pub enum Verdict {
    /// It is settled.
    Settle,
    /// Its message goes back to the queue.
    Return,
    /// Its message dies.
    Discard,
    /// It stays with the consumer, and is settled later or never.
    Keep,
}

/// A delivery that a taker was offered, with its verdict.
#[derive(Clone, Copy, Debug, PartialEq, Eq)]
pub struct Seen {
    /// The delivery's number for the consumer.
    pub id: u64,
    /// The message's place in the order of arrival.
    pub arrival: u64,
    /// What became of it.
    pub verdict: Verdict,
}

/// An application's own code, which is offered a consumer's deliveries.
pub trait Taker: Drop {
    /// The deliveries that it was offered, with its verdicts, in order. None where it doesn't tell them.
    ghost seen: { Self → Option (List Seen) };

    /// Takes a delivery, and answers what becomes of it.
    ///
    /// - `ok`: it has seen this one more.
    /// - `err`: a refused call changes nothing of what it has seen.
    /// - `want`: it is refused for want of memory alone.
    fn take(&mut self, delivery: &Delivery) -> Result<Verdict, Memory>
        ensures ok { IfOk result (λ verdict.
            seen self.new ≡ see delivery.now verdict (seen self.old)) }
        ensures err { OnErr result (seen self.new ≡ seen self.old) }
        ensures want { IsOkUnless result Memory.Want };
}

/// A box of any taker is one.
impl Taker for Box<dyn Taker> {
    ghost seen = { λ b. (Taker-box b).seen b.value };

    fn take(&mut self, delivery: &Delivery) -> Result<Verdict, Memory> {
        (**self).take(delivery)
    }
}
