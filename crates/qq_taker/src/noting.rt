ghost use Rattle.std.specs.Prelude.{◌≡◌, ◌++◌, ◌∷◌, [], OnErr, OnOk, IfOk, IsOkUnless, Some};
ghost use Rattle.qq_taker.specs.Seen.{seen_of};

use crate::taker::{Seen, Taker, Verdict};
use qq_base::Memory;
use qq_entry::Delivery;
use std::alloc::Global;
use std::marker::Model;

/// A taker with the same verdict on each delivery, which keeps what it has seen.
///
/// Contracts see the verdict and the list.
#[derive(Drop)]
pub struct NotingTaker {
    verdict: Verdict,
    list: Vec<Seen>,
}

impl Model for NotingTaker {
    ghost use Rattle.qq_taker.specs.Noting.{Noting};

    ghost Value = { Noting };

    ghost view = { λ t. record { verdict = t.verdict; list = t.list.items } };
}

impl NotingTaker {
    /// A taker with this verdict that has seen nothing. It takes no memory.
    pub fn new(alloc: Global, verdict: Verdict) -> Self
        ensures { result ≡ record { verdict = verdict; list = [] } }
    {
        NotingTaker {
            verdict,
            list: Vec::new(alloc),
        }
    }

    /// What it has seen, in order.
    pub fn list(&self) -> &[Seen]
        ensures { result.now ≡ self.now.list }
    {
        self.list.as_slice()
    }
}

impl Taker for NotingTaker {
    ghost seen = { λ t. Some t.list };

    fn take(&mut self, delivery: &Delivery) -> Result<Verdict, Memory>
        ensures verdict { IfOk result (λ verdict. verdict ≡ self.old.verdict) }
        ensures ok { IfOk result (λ verdict. self.new
            ≡ record self.old { list = self.old.list ++ seen_of delivery.now verdict ∷ [] }) }
        ensures err { OnErr result (self.new ≡ self.old) }
        ensures want { IsOkUnless result Memory.Want }
    {
        self.list.push(Seen {
            id: delivery.id,
            arrival: delivery.arrival,
            verdict: self.verdict,
        })?;
        Ok(self.verdict)
    }
}
