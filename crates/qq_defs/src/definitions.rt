ghost use Rattle.std.specs.Prelude.{◌≡◌, ◌<◌, Ok, Err, IfOk, IsOkUnless};
ghost use Rattle.serde_json.specs.View.{view, items_view};
ghost use Rattle.qq_defs.specs.Draft.{state_of};
ghost use Rattle.qq_defs.specs.Reading.{Gives};
ghost use Rattle.qq_route.specs.Setup.{state_of as setup_state};
ghost use Rattle.qq_defs.specs.Definitions.{elements, list_at, list_or_none, list_of, is_empty, as_setup, document, read_setup, check_policies, first_state, with_section, within_limit, object_defs, definitions};

use crate::draft::Draft;
use crate::elements::element_at;
use crate::fault::DefsFault;
use crate::fields::{Place, Section};
use qq_base::{Memory, Text};
use qq_route::{Made, QueueRows, Routes, Setup};
use serde_json::Value;
use std::alloc::Global;
use std::collections::BTreeMap;

/// The most quorum queues of a broker.
pub const QUEUES_LIMIT: u64 = 1_024;

fn add_elements(
    draft: &mut Draft,
    alloc: Global,
    nodes: u8,
    section: Section,
    list: &[Value],
) -> Result<(), DefsFault>
    requires { 0 < nodes }
    ensures { Gives (λ _. state_of draft.new) result
        (elements nodes section 0 (items_view list.now) (state_of draft.old)) }
{
    for (index, element) in list.iter().enumerate() {
        let at = Place { section, index };
        match element_at(draft, alloc, nodes, at, element) {
            Ok(()) => {}
            Err(fault) => return Err(fault),
        }
    }
    Ok(())
}

#[tactic(auto, unfolding(crate::specs::Definitions::list_at))]
fn list_at<'a>(alloc: Global, field: &str, document: &'a Value) -> Result<&'a [Value], DefsFault>
    ensures { Gives (λ list. items_view list.now) result (list_at field.now (view document.now)) }
{
    match document.get(field).and_then(Value::as_array) {
        Some(list) => Ok(list),
        None => Err(DefsFault::Missing {
            path: Text::from_str(alloc, field)?,
        }),
    }
}

#[tactic(auto, unfolding(crate::specs::Definitions::list_or_none))]
fn list_or_none<'a>(
    alloc: Global,
    field: &str,
    document: &'a Value,
) -> Result<&'a [Value], DefsFault>
    ensures { Gives (λ list. items_view list.now) result
        (list_or_none field.now (view document.now)) }
{
    let Some(value) = document.get(field) else {
        return Ok(&[]);
    };
    match value.as_array() {
        Some(list) => Ok(list),
        None => Err(DefsFault::Missing {
            path: Text::from_str(alloc, field)?,
        }),
    }
}

#[tactic(auto, unfolding(crate::specs::Definitions::list_of))]
fn list_of<'a>(
    alloc: Global,
    section: Section,
    document: &'a Value,
) -> Result<&'a [Value], DefsFault>
    ensures { Gives (λ list. items_view list.now) result (list_of section (view document.now)) }
{
    match section {
        Section::Queues => list_at(alloc, "queues", document),
        Section::Exchanges => list_or_none(alloc, "exchanges", document),
        Section::Bindings => list_or_none(alloc, "bindings", document),
    }
}

fn is_empty(list: &[Value]) -> bool
    ensures { result ≡ is_empty (items_view list.now) }
{
    match list.split_first() {
        None => true,
        Some(_) => false,
    }
}

#[tactic(auto, unfolding(crate::specs::Definitions::check_policies))]
fn check_policies(alloc: Global, ignore: bool, document: &Value) -> Result<(), DefsFault>
    ensures { Gives (λ _. tt) result (check_policies ignore (view document.now)) }
{
    let policies = list_or_none(alloc, "policies", document)?;
    if is_empty(policies) || ignore {
        return Ok(());
    }
    Err(DefsFault::Policies)
}

#[tactic(auto, unfolding(crate::specs::Definitions::within_limit))]
fn within_limit(draft: &Draft) -> Result<(), DefsFault>
    ensures { Gives (λ _. state_of draft.now) result (within_limit (state_of draft.now)) }
{
    let count = draft.made.queues;
    if QUEUES_LIMIT < count {
        return Err(DefsFault::Limit { count });
    }
    Ok(())
}

#[tactic(auto, unfolding(crate::specs::Definitions::with_section))]
fn with_section(
    draft: &mut Draft,
    alloc: Global,
    nodes: u8,
    section: Section,
    document: &Value,
) -> Result<(), DefsFault>
    requires { 0 < nodes }
    ensures { Gives (λ _. state_of draft.new) result
        (with_section nodes section (view document.now) (state_of draft.old)) }
{
    let list = list_of(alloc, section, document)?;
    add_elements(draft, alloc, nodes, section, list)
}

fn first_draft(alloc: Global) -> Result<Draft, Memory>
    ensures ok { IfOk result (λ draft. state_of draft ≡ first_state) }
    ensures want { IsOkUnless result Memory.Want }
{
    Ok(Draft {
        rows: QueueRows::new(alloc),
        names: BTreeMap::new(alloc),
        routes: Routes::new(alloc)?,
        made: Made {
            queues: 0,
            exchanges: 0,
            bindings: 0,
            skipped_queues: 0,
            skipped_bindings: 0,
            other_vhosts: 0,
        },
    })
}

#[tactic(auto, unfolding(crate::specs::Definitions::object_defs))]
fn object_defs(alloc: Global, ignore: bool, nodes: u8, document: &Value) -> Result<Draft, DefsFault>
    requires { 0 < nodes }
    ensures { Gives (λ draft. state_of draft) result
        (object_defs ignore nodes (view document.now)) }
{
    check_policies(alloc, ignore, document)?;
    let mut draft = first_draft(alloc)?;
    with_section(&mut draft, alloc, nodes, Section::Queues, document)?;
    with_section(&mut draft, alloc, nodes, Section::Exchanges, document)?;
    with_section(&mut draft, alloc, nodes, Section::Bindings, document)?;
    within_limit(&draft)?;
    Ok(draft)
}

/// The setup that definitions describe, over 1 node or more. The first fault in the order of the lists is
/// told, and that there are too many queues last.
#[tactic(auto, unfolding(crate::specs::Definitions::definitions))]
pub fn read_document(
    alloc: Global,
    document: &Value,
    ignore_policies: bool,
    nodes: u8,
    log_bytes: u64,
) -> Result<Setup, DefsFault>
    requires { 0 < nodes }
    ensures { Gives (λ setup. setup_state setup) result
        (as_setup nodes log_bytes (definitions ignore_policies nodes (view document.now))) }
{
    if !document.is_object() {
        return Err(DefsFault::NotObject);
    }
    match object_defs(alloc, ignore_policies, nodes, document) {
        Ok(draft) => Ok(Setup {
            nodes,
            queues: draft.rows,
            routes: draft.routes,
            log_bytes,
            made: Some(draft.made),
        }),
        Err(fault) => Err(fault),
    }
}

/// The setup that exported definitions describe (`rabbitmqctl export_definitions`), over 1 node or more.
/// Bytes that aren't UTF-8, or not JSON, or nested more than 127 deep, are `Json`.
pub fn read(
    alloc: Global,
    bytes: &[u8],
    ignore_policies: bool,
    nodes: u8,
    log_bytes: u64,
) -> Result<Setup, DefsFault>
    requires { 0 < nodes }
    ensures { Gives (λ setup. setup_state setup) result
        (read_setup ignore_policies nodes log_bytes (document bytes.now)) }
{
    match Value::from_slice(alloc, bytes) {
        Ok(document) => read_document(alloc, &document, ignore_policies, nodes, log_bytes),
        Err(fault) => {
            if fault.is_memory() {
                return Err(DefsFault::Memory(Memory::Want));
            }
            Err(DefsFault::Json)
        }
    }
}
