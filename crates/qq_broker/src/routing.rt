//! Messages that are routed to queues.
ghost use Rattle.std.specs.Prelude.{◌≡◌, IfOk, IsOkUnless, map};
ghost use Rattle.std.specs.Str.{IsUtf8};
ghost use Rattle.qq_base.specs.declared.ids.QueueId.{QueueId as Id};
ghost use Rattle.qq_route.specs.Destinations.{listed};
ghost use Rattle.qq_route.specs.Setup.{state_of};
ghost use Rattle.qq_cluster_model.specs.Lines.{publish_with};
ghost use Rattle.qq_queue.specs.Range.{MayStamp};
ghost use Rattle.qq_cluster_run.specs.Named.{IsShort};
ghost use Rattle.qq_cluster_run.specs.Setup.{places_for};
ghost use Rattle.qq_broker.specs.Nodes.{MayRun};
ghost use Rattle.qq_broker.specs.Serving.{AreThere};

use qq_base::{Bytes, Memory, Text};
use qq_entry::{Content, Deaths, Message, Unstamped};
use qq_route::{Destinations, RouteFault, Setup};
use std::alloc::Global;

// A law: the bytes of a text are UTF-8.
fn texts_are_utf8(text: &Text)
    ensures { IsUtf8 text.now }
{
    let _text = text.as_str();
}

/// A message with this key and this body, as it is published.
pub fn publish_with(alloc: Global, key: Text, body: Bytes) -> Result<Unstamped, Memory>
    requires { IsShort key body }
    ensures ok { IfOk result (λ command. command ≡ publish_with key body) }
    ensures stamps { IfOk result MayStamp }
    ensures want { IsOkUnless result Memory.Want }
{
    texts_are_utf8(&key);
    let content = Content {
        body,
        key,
        deaths: Deaths::new(alloc),
    };
    let message = Message::new(alloc, content)?;
    Ok(Unstamped::Enqueue {
        origin: None,
        message,
    })
}

/// The queues that a message comes to, in order. To an exchange that isn't there no queue is bound.
pub fn targets(
    alloc: Global,
    setup: &Setup,
    exchange: &Text,
    key: &Text,
) -> Result<Destinations, Memory>
    requires { MayRun setup.now }
    ensures ok { IfOk result (λ queues. map (λ (queue : Id). queue.0) (listed queues)
        ≡ places_for (state_of setup.now).table exchange.now key.now) }
    ensures there { IfOk result (λ queues. AreThere setup.now (listed queues)) }
    ensures want { IsOkUnless result Memory.Want }
{
    match setup.routes.targets(alloc, exchange, key) {
        Ok(queues) => Ok(queues),
        Err(RouteFault::NoExchange) => Ok(Destinations::new(alloc)),
        Err(RouteFault::Memory(memory)) => Err(memory),
    }
}
