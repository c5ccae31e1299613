ghost use Rattle.std.specs.Prelude.{◌≡◌, ◌++◌, ◌∷◌, [], map, filter, ℕ, List, IfOk, OnOk, OnErr, IsOkUnless};
ghost use Rattle.qq_route.specs.declared.exchange.ExchangeKind.TheVariants.{Topic};
ghost use Rattle.qq_route.specs.Destinations.{listed};
ghost use Rattle.qq_route.specs.Index.{index_of, with_queue};
ghost use Rattle.qq_route.specs.Routes.{is_named, takes};

use crate::destinations::Destinations;
use crate::topic::topic_matches;
use qq_base::{Duplicate, Memory, QueueId, Text};
use std::alloc::Global;
use std::collections::BTreeMap;
use std::marker::Model;

/// How an exchange compares a binding's key with a message's (RabbitMQ, "AMQP 0-9-1 Model Explained").
#[derive(Clone, Copy, Debug, PartialEq, Eq, Hash)]
pub enum ExchangeKind {
    /// The keys are equal.
    Direct,
    /// All keys are taken.
    Fanout,
    /// The binding's key is a pattern of words.
    Topic,
}

/// A queue that is bound to an exchange.
#[derive(Debug, Drop)]
pub struct Binding {
    /// Where messages go that the binding takes.
    pub queue: QueueId,
    /// The binding key.
    pub key: Text,
}

/// An exchange and its bindings, which are a set, in the order in which they were made, and are indexed by
/// their keys.
#[derive(Drop)]
pub struct Exchange {
    kind: ExchangeKind,
    bindings: Vec<Binding>,
    /// The queues bound under each key, in the order of the bindings.
    by_key: BTreeMap<String, Vec<QueueId>>,
}

impl Model for Exchange {
    ghost use Rattle.qq_route.specs.Routes.{ExchangeState};

    ghost Value = { ExchangeState };

    ghost use Rattle.qq_route.specs.Index.{IsIndex, index_of};

    ghost view = { λ e. record { kind = e.kind; bindings = e.bindings.items } };

    ghost invariant = { λ e. IsIndex (index_of e.by_key) e.bindings.items };
}

impl Exchange {
    ghost use Rattle.qq_base.specs.declared.ids.QueueId.{QueueId};
    ghost use Rattle.qq_route.specs.Routes.{has_binding, with_binding};

    /// An exchange with no bindings. It takes no memory.
    pub fn new(alloc: Global, kind: ExchangeKind) -> Self
        ensures { result ≡ record { kind = kind; bindings = [] } }
    {
        Exchange {
            kind,
            bindings: Vec::new(alloc),
            by_key: BTreeMap::new(alloc),
        }
    }

    /// How it compares keys.
    pub fn kind(&self) -> ExchangeKind
        ensures { result ≡ self.now.kind }
    {
        self.kind
    }

    /// Whether the queue is bound under the key.
    fn has_binding(&self, queue: QueueId, key: &str) -> bool
        ensures { result ≡ has_binding self.now (record { queue = queue; key = key.now }) }
    {
        is_bound_under(&self.by_key, key, queue)
    }

    /// Binds a queue under a key. Where it is bound under the key already, and out of memory, the exchange
    /// stays.
    pub fn bind(&mut self, alloc: Global, queue: QueueId, key: &Text) -> Result<(), Memory>
        ensures ok { OnOk result
            (self.new ≡ with_binding self.old (record { queue = queue; key = key.now })) }
        ensures err { OnErr result (self.new ≡ self.old) }
        ensures want { IsOkUnless result Memory.Want }
    {
        if self.has_binding(queue, key.as_str()) {
            return Ok(());
        }
        let binding = Binding {
            queue,
            key: key.copy(alloc)?,
        };
        self.bindings.reserve(1)?;
        add_under(&mut self.by_key, alloc, key.as_str(), queue)?;
        self.bindings.push(binding).unwrap();
        Ok(())
    }

    /// The queues to which a message with this key comes, in the order of the bindings.
    pub fn bound(&self, alloc: Global, key: &Text) -> Result<Destinations, Memory>
        ensures ok { IfOk result (λ queues. listed queues
            ≡ map (λ b. b.queue)
            (filter (λ b. takes self.now.kind b.key key.now) self.now.bindings)) }
        ensures want { IsOkUnless result Memory.Want }
    {
        match self.kind {
            ExchangeKind::Direct => bound_under(alloc, &self.by_key, key.as_str()),
            ExchangeKind::Fanout => all_bound(alloc, &self.bindings),
            ExchangeKind::Topic => bound_by_pattern(alloc, &self.bindings, key.as_str()),
        }
    }
}

type Index = BTreeMap<String, Vec<QueueId>>;

fn add_under(index: &mut Index, alloc: Global, name: &str, queue: QueueId) -> Result<(), Memory>
    ensures ok { OnOk result ((key : List ℕ)
        → index_of index.new key ≡ with_queue (index_of index.old) name.now queue key) }
    ensures err { OnErr result ((key : List ℕ) → index_of index.new key ≡ index_of index.old key) }
    ensures want { IsOkUnless result Memory.Want }
{
    let queues = index.entry(String::from_str(alloc, name)?)?.or_default();
    match queues.push(queue) {
        Ok(()) => Ok(()),
        Err(refused) => Err(Memory::from(refused)),
    }
}

fn is_bound_under(index: &Index, key: &str, queue: QueueId) -> bool
    ensures { result ≡ is_named (index_of index.now key.now) queue.0 }
{
    match index.get(key) {
        Some(queues) => queues.iter().any(|bound| bound.0 == queue.0),
        None => false,
    }
}

fn bound_under(alloc: Global, index: &Index, key: &str) -> Result<Destinations, Memory>
    ensures ok { IfOk result (λ queues. listed queues ≡ index_of index.now key.now) }
    ensures want { IsOkUnless result Memory.Want }
{
    match index.get(key) {
        Some(queues) => Destinations::from_slice(alloc, queues),
        None => Ok(Destinations::new(alloc)),
    }
}

fn all_bound(alloc: Global, bindings: &[Binding]) -> Result<Destinations, Memory>
    ensures ok { IfOk result (λ queues. listed queues ≡ map (λ b. b.queue) bindings.now) }
    ensures want { IsOkUnless result Memory.Want }
{
    let mut queues = Vec::new(alloc);
    for binding in bindings {
        queues.push(binding.queue)?;
    }
    Ok(Destinations::Several(queues))
}

fn bound_by_pattern(alloc: Global, bindings: &[Binding], key: &str) -> Result<Destinations, Memory>
    ensures ok { IfOk result (λ queues. listed queues
        ≡ map (λ b. b.queue) (filter (λ b. takes Topic b.key key.now) bindings.now)) }
    ensures want { IsOkUnless result Memory.Want }
{
    let mut queues = Vec::new(alloc);
    for binding in bindings {
        if topic_matches(binding.key.as_str(), key) {
            queues.push(binding.queue)?;
        }
    }
    Ok(Destinations::Several(queues))
}
