//! Messages.
ghost use Rattle.std.specs.Prelude.{◌≡◌, ℕ};
ghost use Rattle.qq_entry.specs.Same.{reason_rank, same_content, same_contents, same_message, same_origin};

use crate::lists::{Same, are_same};
use crate::{Content, Death, Message, Origin, Reason, Shared};

fn reason_rank(reason: Reason) -> u8
    ensures { result ≡ reason_rank reason }
{
    match reason {
        Reason::Rejected => 0,
        Reason::Expired => 1,
        Reason::MaxLen => 2,
        Reason::DeliveryLimit => 3,
    }
}

impl Same for Death {
    ghost use Rattle.qq_entry.specs.Same.{same_death};

    ghost same = { same_death };

    fn is_same(&self, other: &Self) -> bool {
        self.queue.0 == other.queue.0 && reason_rank(self.reason) == reason_rank(other.reason)
    }
}

fn same_content(a: &Content, b: &Content) -> bool
    ensures { result ≡ same_content a.now b.now }
{
    a.body == b.body && a.key == b.key && are_same(a.deaths.as_slice(), b.deaths.as_slice())
}

fn same_contents(a: &Option<Shared<Content>>, b: &Option<Shared<Content>>) -> bool
    ensures { result ≡ same_contents a.now b.now }
{
    match (a, b) {
        (None, None) => true,
        (Some(a), Some(b)) => same_content(a.get(), b.get()),
        _ => false,
    }
}

pub(crate) fn same_message(a: &Message, b: &Message) -> bool
    ensures { result ≡ same_message a.now b.now }
{
    a.size == b.size && same_contents(&a.content, &b.content)
}

pub(crate) fn same_origin(a: Option<Origin>, b: Option<Origin>) -> bool
    ensures { result ≡ same_origin a b }
{
    match (a, b) {
        (None, None) => true,
        (Some(a), Some(b)) => a.source.0 == b.source.0 && a.number == b.number,
        _ => false,
    }
}
