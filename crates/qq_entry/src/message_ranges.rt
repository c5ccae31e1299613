ghost use Rattle.std.specs.Prelude.{◌≡◌, IsTrue, All, IfSome};
ghost use Rattle.qq_entry.specs.Range.{IsQueue, IsDeath, IsContent, IsOrigin};

use crate::{BODY_LIMIT, Content, DEATHS_LIMIT, Death, KEY_LIMIT, Message, Origin};
use qq_base::QueueId;

pub(crate) fn are_queues(queues: &[QueueId]) -> bool
    ensures { IsTrue result → All IsQueue queues.now }
{
    queues.iter().all(|queue| queue.0 > 0)
}

fn are_deaths(deaths: &[Death]) -> bool
    ensures { IsTrue result → All IsDeath deaths.now }
{
    deaths.iter().all(|death| death.queue.0 > 0)
}

fn is_content(content: &Content) -> bool
    ensures { IsTrue result → IsContent content.now }
{
    if content.body.len() > BODY_LIMIT || content.key.len() > KEY_LIMIT {
        return false;
    }
    if content.deaths.len() > DEATHS_LIMIT {
        return false;
    }
    let _text = content.key.as_str();
    are_deaths(content.deaths.as_slice())
}

/// Whether a message has a content in range or none.
pub(crate) fn has_range(message: &Message) -> bool
    ensures { IsTrue result → IfSome message.now.content IsContent }
{
    match &message.content {
        None => true,
        Some(content) => is_content(content.get()),
    }
}

/// Whether an origin, if there is one, is in range.
pub(crate) fn is_from(origin: Option<Origin>) -> bool
    ensures { IsTrue result → IfSome origin IsOrigin }
{
    match origin {
        None => true,
        Some(origin) => origin.source.0 > 0 && origin.number > 0,
    }
}
