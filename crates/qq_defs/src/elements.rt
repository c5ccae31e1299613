ghost use Rattle.std.specs.Prelude.{◌≡◌, ◌<◌, length, is_some};
ghost use Rattle.serde_json.specs.View.{view};
ghost use Rattle.qq_route.specs.Routes.{is_bindable};
ghost use Rattle.qq_route.specs.View.{table_of};
ghost use Rattle.qq_defs.specs.Draft.{state_of};
ghost use Rattle.qq_defs.specs.Reading.{Gives};
ghost use Rattle.qq_defs.specs.Elements.{is_name, is_quorum, quorum_queue, named_queue, own_queue, kind_of, named_exchange, own_exchange, named_binding, keyed_binding, own_binding, own_element, element_at};

use crate::arguments::queue_args;
use crate::draft::Draft;
use crate::fault::DefsFault;
use crate::fields::{Place, Section, flag_at, object_at, text_at, vhost_at};
use qq_base::Text;
use qq_entry::KEY_LIMIT;
use qq_route::{ExchangeKind, Routes};
use serde_json::Value;
use std::alloc::Global;

fn is_name(name: &str) -> bool
    ensures { result ≡ is_name name.now }
{
    !name.is_empty() && name.len() <= KEY_LIMIT
}

#[tactic(auto, unfolding(crate::specs::Elements::is_quorum))]
fn is_quorum(alloc: Global, arguments: &Value) -> Result<bool, DefsFault>
    ensures { Gives (λ quorum. quorum) result (is_quorum (view arguments.now)) }
{
    let Some(value) = arguments.get("x-queue-type") else {
        return Ok(false);
    };
    match value.as_str() {
        Some("quorum") => Ok(true),
        Some("classic") => Ok(false),
        Some("stream") => Ok(false),
        _ => Err(DefsFault::BadArgument {
            name: Text::from_str(alloc, "x-queue-type")?,
        }),
    }
}

#[tactic(auto, unfolding(crate::specs::Elements::quorum_queue))]
fn quorum_queue(
    draft: &mut Draft,
    alloc: Global,
    nodes: u8,
    name: &str,
    durable: bool,
    auto: bool,
    arguments: &Value,
) -> Result<(), DefsFault>
    requires { 0 < nodes }
    ensures { Gives (λ _. state_of draft.new) result
        (quorum_queue nodes name.now durable auto (view arguments.now) (state_of draft.old)) }
{
    let wrong = if !is_name(name) {
        Some("name")
    } else if !durable {
        Some("durable")
    } else if auto {
        Some("auto_delete")
    } else {
        None
    };
    if let Some(wrong) = wrong {
        return Err(DefsFault::BadArgument {
            name: Text::from_str(alloc, wrong)?,
        });
    }
    let args = queue_args(alloc, nodes, draft.next_queue(), arguments)?;
    Ok(draft.declare(alloc, nodes, name, args)?)
}

#[tactic(auto, unfolding(crate::specs::Elements::named_queue))]
fn named_queue(
    draft: &mut Draft,
    alloc: Global,
    nodes: u8,
    name: &str,
    durable: bool,
    auto: bool,
    arguments: &Value,
) -> Result<(), DefsFault>
    requires { 0 < nodes }
    ensures { Gives (λ _. state_of draft.new) result
        (named_queue nodes name.now durable auto (view arguments.now) (state_of draft.old)) }
{
    if draft.names.contains_key(name) {
        return Err(DefsFault::BadArgument {
            name: Text::from_str(alloc, "name")?,
        });
    }
    let quorum = is_quorum(alloc, arguments)?;
    if quorum {
        return quorum_queue(draft, alloc, nodes, name, durable, auto, arguments);
    }
    Ok(draft.skip(alloc, name)?)
}

#[tactic(auto, unfolding(crate::specs::Elements::own_queue))]
fn own_queue(
    draft: &mut Draft,
    alloc: Global,
    nodes: u8,
    at: Place,
    element: &Value,
) -> Result<(), DefsFault>
    requires { 0 < nodes }
    ensures { Gives (λ _. state_of draft.new) result
        (own_queue nodes at (view element.now) (state_of draft.old)) }
{
    let name = text_at(alloc, at, "name", element)?;
    let durable = flag_at(alloc, at, "durable", element)?;
    let auto = flag_at(alloc, at, "auto_delete", element)?;
    let arguments = object_at(alloc, at, "arguments", element)?;
    named_queue(draft, alloc, nodes, name, durable, auto, arguments)
}

#[tactic(auto, unfolding(crate::specs::Elements::kind_of))]
fn kind_of(text: &str) -> Option<ExchangeKind>
    ensures { result ≡ kind_of text.now }
{
    match text {
        "direct" => Some(ExchangeKind::Direct),
        "fanout" => Some(ExchangeKind::Fanout),
        "topic" => Some(ExchangeKind::Topic),
        _ => None,
    }
}

#[tactic(auto, unfolding(crate::specs::Elements::named_exchange))]
fn named_exchange(
    draft: &mut Draft,
    alloc: Global,
    name: &str,
    kind: ExchangeKind,
) -> Result<(), DefsFault>
    ensures { Gives (λ _. state_of draft.new) result
        (named_exchange name.now kind (state_of draft.old)) }
{
    if !is_name(name) {
        return Err(DefsFault::BadArgument {
            name: Text::from_str(alloc, "name")?,
        });
    }
    let name = Text::from_str(alloc, name)?;
    match draft.routes.kind(&name) {
        None => {
            draft.routes.add_exchange(alloc, &name, kind)?;
            draft.made.exchanges = draft.made.exchanges.saturating_add(1);
            Ok(())
        }
        Some(there) => {
            if there == kind {
                return Ok(());
            }
            Err(DefsFault::BadArgument {
                name: Text::from_str(alloc, "type")?,
            })
        }
    }
}

#[tactic(auto, unfolding(crate::specs::Elements::own_exchange))]
fn own_exchange(
    draft: &mut Draft,
    alloc: Global,
    at: Place,
    element: &Value,
) -> Result<(), DefsFault>
    ensures { Gives (λ _. state_of draft.new) result
        (own_exchange at (view element.now) (state_of draft.old)) }
{
    let name = text_at(alloc, at, "name", element)?;
    let text = text_at(alloc, at, "type", element)?;
    match kind_of(text) {
        Some(kind) => named_exchange(draft, alloc, name, kind),
        None => Err(DefsFault::Unsupported {
            name: Text::from_str(alloc, text)?,
        }),
    }
}

fn is_bindable(routes: &Routes, source: &Text) -> bool
    ensures { result ≡ is_bindable (table_of routes.now) source.now }
{
    source.len() == 0 || routes.kind(source).is_some()
}

#[tactic(auto, unfolding(crate::specs::Elements::named_binding))]
fn named_binding(
    draft: &mut Draft,
    alloc: Global,
    source: &str,
    destination: &str,
    key: &str,
) -> Result<(), DefsFault>
    ensures { Gives (λ _. state_of draft.new) result
        (named_binding source.now destination.now key.now (state_of draft.old)) }
{
    let queue = draft.names.get(destination).copied();
    if queue == Some(None) {
        draft.made.skipped_bindings = draft.made.skipped_bindings.saturating_add(1);
        return Ok(());
    }
    let source = Text::from_str(alloc, source)?;
    if !is_bindable(&draft.routes, &source) {
        return Err(DefsFault::UnknownTarget { name: source });
    }
    let Some(Some(queue)) = queue else {
        return Err(DefsFault::UnknownTarget {
            name: Text::from_str(alloc, destination)?,
        });
    };
    draft
        .routes
        .bind(alloc, &source, queue, &Text::from_str(alloc, key)?)?;
    draft.made.bindings = draft.made.bindings.saturating_add(1);
    Ok(())
}

#[tactic(auto, unfolding(crate::specs::Elements::keyed_binding))]
fn keyed_binding(
    draft: &mut Draft,
    alloc: Global,
    at: Place,
    kind: &str,
    source: &str,
    destination: &str,
    element: &Value,
) -> Result<(), DefsFault>
    ensures { Gives (λ _. state_of draft.new) result
        (keyed_binding at kind.now source.now destination.now (view element.now)
        (state_of draft.old)) }
{
    let key = text_at(alloc, at, "routing_key", element)?;
    if kind == "queue" {
        return named_binding(draft, alloc, source, destination, key);
    }
    Err(DefsFault::Unsupported {
        name: Text::from_str(alloc, kind)?,
    })
}

#[tactic(auto, unfolding(crate::specs::Elements::own_binding))]
fn own_binding(
    draft: &mut Draft,
    alloc: Global,
    at: Place,
    element: &Value,
) -> Result<(), DefsFault>
    ensures { Gives (λ _. state_of draft.new) result
        (own_binding at (view element.now) (state_of draft.old)) }
{
    let source = text_at(alloc, at, "source", element)?;
    let destination = text_at(alloc, at, "destination", element)?;
    let kind = text_at(alloc, at, "destination_type", element)?;
    keyed_binding(draft, alloc, at, kind, source, destination, element)
}

#[tactic(auto, unfolding(crate::specs::Elements::own_element))]
fn own_element(
    draft: &mut Draft,
    alloc: Global,
    nodes: u8,
    at: Place,
    element: &Value,
) -> Result<(), DefsFault>
    requires { 0 < nodes }
    ensures { Gives (λ _. state_of draft.new) result
        (own_element nodes at (view element.now) (state_of draft.old)) }
{
    match at.section {
        Section::Queues => own_queue(draft, alloc, nodes, at, element),
        Section::Exchanges => own_exchange(draft, alloc, at, element),
        Section::Bindings => own_binding(draft, alloc, at, element),
    }
}

/// Adds an element of the default virtual host, and counts one of another.
#[tactic(auto, unfolding(crate::specs::Elements::element_at))]
pub fn element_at(
    draft: &mut Draft,
    alloc: Global,
    nodes: u8,
    at: Place,
    element: &Value,
) -> Result<(), DefsFault>
    requires { 0 < nodes }
    ensures { Gives (λ _. state_of draft.new) result
        (element_at nodes at (view element.now) (state_of draft.old)) }
{
    let vhost = vhost_at(alloc, at, element)?;
    if vhost == "/" {
        return own_element(draft, alloc, nodes, at, element);
    }
    draft.count_other();
    Ok(())
}
