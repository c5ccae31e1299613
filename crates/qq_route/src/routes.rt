ghost use Rattle.std.specs.Prelude.{◌≡◌, ◌↔◌, Some, None, Ok, Err, map, filter, nat_eq, is_some, option_map, IfOk, IfErr, OnOk, OnErr, IsOkUnless};
ghost use Rattle.std.specs.Bool.{OnTrue};
ghost use Rattle.std.specs.List.{list_any};
ghost use Rattle.std.specs.BTreeMap.{get_by_text};
ghost use Rattle.qq_route.specs.Destinations.{listed};
ghost use Rattle.qq_route.specs.Fault.{NoExchangeOnlyWhere};
ghost use Rattle.qq_route.specs.Routes.{comes_to, is_named, is_bindable, first_exchanges, queue_id, bind_at, add_at, may_add, targets, add_queue, add_exchange, bind, new_table};
ghost use Rattle.qq_route.specs.View.{table_of};

use crate::destinations::Destinations;
use crate::exchange::{Exchange, ExchangeKind};
use qq_base::{Memory, QueueId, Text};
use std::alloc::Global;
use std::collections::{BTreeMap, BTreeSet};
use thiserror::Error;

/// Why a message has no targets.
#[derive(Clone, Copy, Debug, PartialEq, Eq, Error)]
pub enum RouteFault {
    /// There is no exchange of that name.
    #[error("no such exchange")]
    NoExchange,
    /// Out of memory.
    #[error("{0}")]
    Memory(Memory),
}

impl From<Memory> for RouteFault {
    ghost use Rattle.qq_route.specs.declared.routes.RouteFault.TheVariants.{Memory as memory_fault};

    ghost from_gives = { λ fault e. e ≡ memory_fault fault };

    fn from(fault: Memory) -> Self {
        RouteFault::Memory(fault)
    }
}

/// The default exchange, and those that a broker has by itself.
fn first_exchanges(alloc: Global) -> Result<Exchanges, Memory>
    ensures ok { IfOk result (λ exchanges. get_by_text exchanges ≡ first_exchanges) }
    ensures want { IsOkUnless result Memory.Want }
{
    let mut exchanges = BTreeMap::new(alloc);
    add_at(&mut exchanges, alloc, "", ExchangeKind::Direct)?;
    add_at(&mut exchanges, alloc, "amq.direct", ExchangeKind::Direct)?;
    add_at(&mut exchanges, alloc, "amq.fanout", ExchangeKind::Fanout)?;
    add_at(&mut exchanges, alloc, "amq.topic", ExchangeKind::Topic)?;
    Ok(exchanges)
}

type Exchanges = BTreeMap<String, Exchange>;

/// The queues that a broker knows, its exchanges, and their bindings.
///
/// The default exchange has the empty name and is a direct one. Each queue is bound to it under its own name.
#[derive(Drop)]
pub struct Routes {
    queues: BTreeSet<u32>,
    exchanges: Exchanges,
}

/// Adds an exchange where none of its name is there, and answers whether none of another kind is.
fn add_at(
    exchanges: &mut Exchanges,
    alloc: Global,
    name: &str,
    kind: ExchangeKind,
) -> Result<bool, Memory>
    ensures done { IfOk result (λ done. done ≡ may_add kind (get_by_text exchanges.old name.now)) }
    ensures ok { OnOk result
        (get_by_text exchanges.new ≡ add_at (get_by_text exchanges.old) name.now kind) }
    ensures err { OnErr result (get_by_text exchanges.new ≡ get_by_text exchanges.old) }
    ensures want { IsOkUnless result Memory.Want }
{
    if let Some(exchange) = exchanges.get(name) {
        return Ok(exchange.kind() == kind);
    }
    exchanges.insert(String::from_str(alloc, name)?, Exchange::new(alloc, kind))?;
    Ok(true)
}

/// Binds a queue, and answers whether the exchange is there.
fn bind_at(
    exchanges: &mut Exchanges,
    alloc: Global,
    name: &str,
    queue: QueueId,
    key: &Text,
) -> Result<bool, Memory>
    ensures done { IfOk result (λ done. done ≡ is_some (get_by_text exchanges.old name.now)) }
    ensures ok { OnOk result (get_by_text exchanges.new
        ≡ bind_at (get_by_text exchanges.old) name.now (record { queue = queue; key = key.now })) }
    ensures err { OnErr result (get_by_text exchanges.new ≡ get_by_text exchanges.old) }
    ensures want { IsOkUnless result Memory.Want }
{
    let Some(exchange) = exchanges.get_mut(name) else {
        return Ok(false);
    };
    match exchange.bind(alloc, queue, key) {
        Ok(()) => Ok(true),
        Err(refused) => Err(refused),
    }
}

/// The queues among these that are known.
fn gather(alloc: Global, known: &BTreeSet<u32>, queues: &[QueueId]) -> Result<BTreeSet<u32>, Memory>
    ensures ok { IfOk result (λ set. set.keys ≡ filter (is_named queues.now) known.now.keys) }
    ensures want { IsOkUnless result Memory.Want }
{
    let mut set = BTreeSet::new(alloc);
    if known.len() == 0 {
        return Ok(set);
    }
    for queue in queues {
        if known.contains(&queue.0) {
            set.insert(queue.0)?;
        }
    }
    Ok(set)
}

fn queue_ids(alloc: Global, numbers: &BTreeSet<u32>) -> Result<Destinations, Memory>
    ensures ok { IfOk result (λ list. listed list ≡ map queue_id numbers.now.keys) }
    ensures want { IsOkUnless result Memory.Want }
{
    Ok(Destinations::Several(numbers.iter().map(|n| QueueId(*n)).collect(alloc)?))
}

/// Whether these are one queue, which is known.
fn is_one_known(known: &BTreeSet<u32>, queues: &[QueueId]) -> bool
    ensures { OnTrue result
        (queues.now ≡ map queue_id (filter (is_named queues.now) known.now.keys)) }
{
    let [one] = queues else {
        return false;
    };
    if known.len() == 0 {
        return false;
    }
    known.contains(&one.0)
}

/// The known queues to which a message with this key comes through the exchange.
fn known_targets(
    alloc: Global,
    known: &BTreeSet<u32>,
    exchange: &Exchange,
    key: &Text,
) -> Result<Destinations, Memory>
    ensures ok { IfOk result (λ queues. listed queues
        ≡ map queue_id (filter (comes_to exchange.now key.now) known.now.keys)) }
    ensures want { IsOkUnless result Memory.Want }
{
    let bound = exchange.bound(alloc, key)?;
    if is_one_known(known, bound.as_slice()) {
        return Ok(bound);
    }
    let targets = gather(alloc, known, bound.as_slice())?;
    queue_ids(alloc, &targets)
}

impl Routes {
    /// No queues, the default exchange, and `amq.direct`, `amq.fanout` and `amq.topic`.
    pub fn new(alloc: Global) -> Result<Self, Memory>
        ensures ok { IfOk result (λ routes. table_of routes ≡ new_table) }
        ensures want { IsOkUnless result Memory.Want }
    {
        Ok(Routes {
            queues: BTreeSet::new(alloc),
            exchanges: first_exchanges(alloc)?,
        })
    }

    /// Makes a queue known, and binds it to the default exchange under its name. Out of memory, all stays.
    pub fn add_queue(&mut self, alloc: Global, name: &Text, queue: QueueId) -> Result<(), Memory>
        ensures ok { OnOk result
            (table_of self.new ≡ add_queue (table_of self.old) name.now queue) }
        ensures err { OnErr result (table_of self.new ≡ table_of self.old) }
        ensures want { IsOkUnless result Memory.Want }
    {
        let is_new = self.queues.insert(queue.0)?;
        match bind_at(&mut self.exchanges, alloc, "", queue, name) {
            Ok(_) => Ok(()),
            Err(refused) => {
                if is_new {
                    self.queues.remove(&queue.0);
                }
                Err(refused)
            }
        }
    }

    /// The kind of the exchange of this name. None exactly where there is no such exchange.
    pub fn kind(&self, exchange: &Text) -> Option<ExchangeKind>
        ensures { result ≡ option_map (λ e. e.kind) ((table_of self.now).exchanges exchange.now) }
    {
        Some(self.exchanges.get(exchange.as_str())?.kind())
    }

    /// Adds an exchange, unless one of this name is there. The answer is false exactly where one of
    /// another kind is there. Out of memory, all stays.
    pub fn add_exchange(
        &mut self,
        alloc: Global,
        name: &Text,
        kind: ExchangeKind,
    ) -> Result<bool, Memory>
        ensures done { IfOk result
            (λ done. done ≡ may_add kind ((table_of self.old).exchanges name.now)) }
        ensures ok { OnOk result
            (table_of self.new ≡ add_exchange (table_of self.old) name.now kind) }
        ensures err { OnErr result (table_of self.new ≡ table_of self.old) }
        ensures want { IsOkUnless result Memory.Want }
    {
        add_at(&mut self.exchanges, alloc, name.as_str(), kind)
    }

    /// Binds a queue to an exchange under a key. The answer is false exactly where there is no exchange of
    /// this name; all stays then, and out of memory. To bind a queue again under the same key changes
    /// nothing (AMQP 0-9-1, reference of `queue.bind`). Nothing else is bound to the default exchange than
    /// each queue under its name, so a binding to it changes nothing.
    pub fn bind(
        &mut self,
        alloc: Global,
        exchange: &Text,
        queue: QueueId,
        key: &Text,
    ) -> Result<bool, Memory>
        ensures done { IfOk result
            (λ done. done ≡ is_bindable (table_of self.old) exchange.now) }
        ensures ok { OnOk result (table_of self.new
            ≡ bind (table_of self.old) exchange.now (record { queue = queue; key = key.now })) }
        ensures err { OnErr result (table_of self.new ≡ table_of self.old) }
        ensures want { IsOkUnless result Memory.Want }
    {
        if exchange.len() == 0 {
            return Ok(true);
        }
        bind_at(&mut self.exchanges, alloc, exchange.as_str(), queue, key)
    }

    /// The queues to which a message with this key comes through an exchange, each once, in the order of
    /// their numbers.
    pub fn targets(
        &self,
        alloc: Global,
        exchange: &Text,
        key: &Text,
    ) -> Result<Destinations, RouteFault>
        ensures ok { IfOk result
            (λ queues. targets (table_of self.now) exchange.now key.now ≡ Some (listed queues)) }
        ensures fault { IfErr result (NoExchangeOnlyWhere
            (targets (table_of self.now) exchange.now key.now ≡ None)) }
        ensures absent { targets (table_of self.now) exchange.now key.now ≡ None
            → result ≡ Err RouteFault.NoExchange }
    {
        match self.exchanges.get(exchange.as_str()) {
            None => Err(RouteFault::NoExchange),
            Some(state) => match known_targets(alloc, &self.queues, state, key) {
                Ok(queues) => Ok(queues),
                Err(fault) => Err(RouteFault::Memory(fault)),
            },
        }
    }
}
