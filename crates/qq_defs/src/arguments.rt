ghost use Rattle.std.specs.Prelude.{◌≡◌, ℕ, List, Some, None, is_some, option_map, IfOk, IsOkUnless};
ghost use Rattle.serde_json.specs.View.{view, members_view};
ghost use Rattle.qq_defs.specs.Reading.{Gives};
ghost use Rattle.qq_defs.specs.Arguments.{group_size, count, delivery_limit, short_text, overflow, strategy, rule_of, allows, is_own, check_argument, check_arguments, strategy_with, args_of, queue_args};

use crate::fault::DefsFault;
use qq_base::{Memory, QueueId, Text};
use qq_entry::{DELIVERY_LIMIT, KEY_LIMIT, LIVE_LIMIT, Overflow, QueueArgs, Strategy};
use serde_json::{Map, Value};
use std::alloc::Global;

/// How many members a queue has that asks for no group size.
const GROUP: u8 = 3;

/// What an argument of a queue may be.
#[derive(Clone, Copy)]
pub enum Rule {
    /// An initial group size, 1 to 7.
    Group,
    /// A delivery limit, or -1 for none.
    Returns,
    /// A length below 2^63.
    Count,
    /// What a full queue does.
    Full,
    /// A text of at most 255 bytes.
    ShortText,
    /// How dead letters are sent on.
    Letters,
    /// True or false.
    Flag,
    /// Anything. The argument changes nothing here.
    Ignored,
}

#[tactic(auto, unfolding(crate::specs::Arguments::group_size))]
fn group_size(value: &Value) -> Option<u8>
    ensures { result ≡ group_size (view value.now) }
{
    match value.as_u64() {
        Some(size) if size > 0 && size < 8 => Some(size as u8),
        _ => None,
    }
}

#[tactic(auto, unfolding(crate::specs::Arguments::count))]
fn count(value: &Value) -> Option<u64>
    ensures { result ≡ count (view value.now) }
{
    match value.as_u64() {
        Some(length) if length < 1 << 63 => Some(length),
        _ => None,
    }
}

#[tactic(auto, unfolding(crate::specs::Arguments::delivery_limit))]
fn delivery_limit(value: &Value) -> Option<Option<u64>>
    ensures { result ≡ delivery_limit (view value.now) }
{
    if let Some(limit) = value.as_u64() {
        return Some(Some(limit));
    }
    match value.as_i64() {
        Some(limit) if limit == -1 => Some(None),
        _ => None,
    }
}

#[tactic(auto, unfolding(crate::specs::Arguments::short_text))]
fn short_text(value: &Value) -> Option<&str>
    ensures { option_map (λ text. text.now) result ≡ short_text (view value.now) }
{
    match value.as_str() {
        Some(text) if text.len() <= KEY_LIMIT => Some(text),
        _ => None,
    }
}

#[tactic(auto, unfolding(crate::specs::Arguments::overflow))]
fn overflow(value: &Value) -> Option<Overflow>
    ensures { result ≡ overflow (view value.now) }
{
    let text = value.as_str()?;
    if text == "drop-head" {
        Some(Overflow::DropHead)
    } else if text == "reject-publish" {
        Some(Overflow::RejectPublish)
    } else {
        None
    }
}

#[tactic(auto, unfolding(crate::specs::Arguments::strategy))]
fn strategy(value: &Value) -> Option<Strategy>
    ensures { result ≡ strategy (view value.now) }
{
    let text = value.as_str()?;
    if text == "at-most-once" {
        Some(Strategy::AtMostOnce)
    } else if text == "at-least-once" {
        Some(Strategy::AtLeastOnce)
    } else {
        None
    }
}

#[tactic(auto, unfolding(crate::specs::Arguments::rule_of))]
fn rule_of(key: &str) -> Option<Rule>
    ensures { result ≡ rule_of key.now }
{
    match key {
        "x-quorum-initial-group-size" => Some(Rule::Group),
        "x-delivery-limit" => Some(Rule::Returns),
        "x-max-length" => Some(Rule::Count),
        "x-max-length-bytes" => Some(Rule::Count),
        "x-overflow" => Some(Rule::Full),
        "x-dead-letter-exchange" => Some(Rule::ShortText),
        "x-dead-letter-routing-key" => Some(Rule::ShortText),
        "x-dead-letter-strategy" => Some(Rule::Letters),
        "x-single-active-consumer" => Some(Rule::Flag),
        "x-queue-type" => Some(Rule::Ignored),
        "x-queue-leader-locator" => Some(Rule::Ignored),
        "x-queue-version" => Some(Rule::Ignored),
        "x-max-in-memory-length" => Some(Rule::Ignored),
        "x-max-in-memory-bytes" => Some(Rule::Ignored),
        _ => None,
    }
}

#[tactic(auto, unfolding(crate::specs::Arguments::allows))]
fn allows(rule: Rule, value: &Value) -> bool
    ensures { result ≡ allows rule (view value.now) }
{
    match rule {
        Rule::Group => group_size(value).is_some(),
        Rule::Returns => delivery_limit(value).is_some(),
        Rule::Count => count(value).is_some(),
        Rule::Full => overflow(value).is_some(),
        Rule::ShortText => short_text(value).is_some(),
        Rule::Letters => strategy(value).is_some(),
        Rule::Flag => value.as_bool().is_some(),
        Rule::Ignored => true,
    }
}

fn is_own(key: &str) -> bool
    ensures { result ≡ is_own key.now }
{
    match key.as_bytes() {
        [a, b, ..] => *a == b'x' && *b == b'-',
        _ => false,
    }
}

#[tactic(auto, unfolding(crate::specs::Arguments::check_argument))]
fn check_argument(alloc: Global, key: &str, value: &Value) -> Result<(), DefsFault>
    ensures { Gives (λ _. tt) result (check_argument key.now (view value.now)) }
{
    match rule_of(key) {
        Some(rule) => {
            if allows(rule, value) {
                return Ok(());
            }
            Err(DefsFault::BadArgument {
                name: Text::from_str(alloc, key)?,
            })
        }
        None => {
            if !is_own(key) {
                return Ok(());
            }
            Err(DefsFault::Unsupported {
                name: Text::from_str(alloc, key)?,
            })
        }
    }
}

/// Whether all arguments are allowed, or the first fault in the order of their names.
pub fn check_arguments(alloc: Global, arguments: &Map<String, Value>) -> Result<(), DefsFault>
    ensures { Gives (λ _. tt) result (check_arguments (members_view arguments.now.entries)) }
{
    for (key, value) in arguments {
        match check_argument(alloc, key.as_str(), value) {
            Ok(()) => {}
            Err(fault) => return Err(fault),
        }
    }
    Ok(())
}

fn text_or_none(alloc: Global, text: Option<&str>) -> Result<Option<Text>, Memory>
    ensures ok { IfOk result (λ copy. copy ≡ option_map (λ t. t.now) text.entry) }
    ensures want { IsOkUnless result Memory.Want }
{
    match text {
        None => Ok(None),
        Some(text) => Ok(Some(Text::from_str(alloc, text)?)),
    }
}

fn strategy_with(exchange: Option<&str>, asked: Strategy, full: Overflow) -> Strategy
    ensures { result ≡ strategy_with (option_map (λ t. t.now) exchange.entry) asked full }
{
    if exchange.is_none() {
        return Strategy::Absent;
    }
    match (asked, full) {
        (Strategy::AtLeastOnce, Overflow::RejectPublish) => Strategy::AtLeastOnce,
        _ => Strategy::AtMostOnce,
    }
}

/// The arguments with their values, where all are allowed.
#[tactic(auto, unfolding(crate::specs::Arguments::args_of))]
fn args_of(alloc: Global, nodes: u8, queue: QueueId, arguments: &Value) -> Result<QueueArgs, Memory>
    ensures ok { IfOk result (λ args. args ≡ args_of nodes queue (view arguments.now)) }
    ensures want { IsOkUnless result Memory.Want }
{
    let group = arguments
        .get("x-quorum-initial-group-size")
        .and_then(group_size)
        .unwrap_or(GROUP);
    let full = arguments
        .get("x-overflow")
        .and_then(overflow)
        .unwrap_or(Overflow::DropHead);
    let limit = arguments.get("x-delivery-limit").and_then(delivery_limit);
    let asked = arguments.get("x-dead-letter-strategy").and_then(strategy);
    let exchange = arguments.get("x-dead-letter-exchange").and_then(short_text);
    let key = arguments
        .get("x-dead-letter-routing-key")
        .and_then(short_text);
    let single = arguments
        .get("x-single-active-consumer")
        .and_then(Value::as_bool);
    Ok(QueueArgs {
        queue,
        group: group.min(nodes),
        max_length: arguments.get("x-max-length").and_then(count),
        max_bytes: arguments.get("x-max-length-bytes").and_then(count),
        overflow: full,
        delivery_limit: limit.unwrap_or(Some(DELIVERY_LIMIT)),
        single_active: single.unwrap_or(false),
        strategy: strategy_with(exchange, asked.unwrap_or(Strategy::AtMostOnce), full),
        dead_exchange: Text::from_str(alloc, exchange.unwrap_or(""))?,
        dead_key: text_or_none(alloc, key)?,
        live: LIVE_LIMIT,
    })
}

/// The arguments of a quorum queue over so many nodes, as an export has them ("Quorum Queues", optional
/// queue arguments). The first fault in the order of their names is told.
#[tactic(auto, unfolding(crate::specs::Arguments::queue_args))]
pub fn queue_args(
    alloc: Global,
    nodes: u8,
    queue: QueueId,
    arguments: &Value,
) -> Result<QueueArgs, DefsFault>
    ensures { Gives (λ args. args) result (queue_args nodes queue (view arguments.now)) }
{
    let Some(members) = arguments.as_object() else {
        return Err(DefsFault::NotObject);
    };
    match check_arguments(alloc, members) {
        Ok(()) => Ok(args_of(alloc, nodes, queue, arguments)?),
        Err(fault) => Err(fault),
    }
}
