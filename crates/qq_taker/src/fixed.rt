ghost use Rattle.std.specs.Prelude.{◌≡◌, None, Ok};

use crate::taker::{Taker, Verdict};
use qq_base::Memory;
use qq_entry::Delivery;

/// A taker with the same verdict on each delivery. It keeps nothing, so it doesn't tell what it has seen.
#[derive(Drop)]
pub struct FixedTaker {
    verdict: Verdict,
}

impl FixedTaker {
    /// A taker with this verdict. It takes no memory.
    pub fn new(verdict: Verdict) -> Self
        ensures { result ≡ record { verdict = verdict } }
    {
        FixedTaker { verdict }
    }
}

impl Taker for FixedTaker {
    ghost seen = { λ _. None };

    fn take(&mut self, _delivery: &Delivery) -> Result<Verdict, Memory>
        ensures verdict { result ≡ Ok self.old.verdict }
        ensures same { self.new ≡ self.old }
    {
        Ok(self.verdict)
    }
}
