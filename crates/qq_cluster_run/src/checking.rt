//! Whether a line of a drill names what is there.
ghost use Rattle.std.specs.Prelude.{◌≡◌, true, Contains, IsTrue, All, map, nat_eq};
ghost use Rattle.std.specs.List.{list_any, range_with_len};
ghost use Rattle.std.specs.Option.{option_copied};
ghost use Rattle.qq_entry.specs.Range.{AreIds, IsMode, IsPositive};
ghost use Rattle.qq_cluster_run.specs.Named.{AreNodes, IsBody, IsClient, IsNamed, IsShort};
ghost use Rattle.qq_cluster_run.specs.Setup.{Logs, cluster_over, members_by, place_of, row_at};

use qq_base::{Bytes, CLIENT, NodeId, QueueId, SessionId, Text};
use qq_entry::{BODY_LIMIT, IDS_LIMIT, KEY_LIMIT, Mode, Unstamped};
use qq_route::{QueueRow, Setup};
use qq_script_lines::{Nodes, ScriptLine};

// ---- what a client asks for

fn is_client(by: SessionId) -> bool
    ensures { IsTrue result → IsClient by }
{
    by.class == CLIENT && by.owner == 0 && 0 < by.number && by.number < 1 << 32
}

fn is_short(key: &Text, body: &Bytes) -> bool
    ensures { IsTrue result → IsShort key.now body.now }
{
    key.len() <= KEY_LIMIT && body.len() <= BODY_LIMIT
}

fn are_positive(ids: &[u64]) -> bool
    ensures { IsTrue result → All (IsPositive 64) ids.now }
{
    ids.iter().all(|id| *id > 0)
}

fn are_ids(ids: &[u64]) -> bool
    ensures { IsTrue result → AreIds ids.now }
{
    if ids.is_empty() || ids.len() > IDS_LIMIT {
        return false;
    }
    are_positive(ids)
}

// Each one is.
fn is_mode(mode: Mode) -> bool
    ensures range { IsMode mode }
    ensures value { result ≡ true }
{
    match mode {
        Mode::Prefetch(_) => true,
        Mode::Link => true,
    }
}

// Of the commands that a drill has.
fn is_body(body: &Unstamped) -> bool
    ensures { IsTrue result → IsBody body.now }
{
    match body {
        Unstamped::Get => true,
        Unstamped::Subscribe { tag, mode } => is_mode(*mode) && 0 < *tag,
        Unstamped::Settle { tag, ids } => 0 < *tag && are_ids(ids.as_slice()),
        Unstamped::Return { tag, ids } => 0 < *tag && are_ids(ids.as_slice()),
        _ => false,
    }
}

// ---- queues and nodes

fn has_place(setup: &Setup, queue: QueueId) -> bool
    ensures { result ≡ list_any (λ row. nat_eq (place_of row) queue.0) setup.now.queues }
{
    setup
        .queues
        .as_slice()
        .iter()
        .any(|row| row.args.queue.0 == queue.0)
}

/// Whether a queue is there.
pub fn is_place(setup: &Setup, queue: QueueId) -> bool
    ensures { IsTrue result → Contains (map place_of setup.now.queues) queue.0 }
{
    has_place(setup, queue)
}

fn is_node(setup: &Setup, node: NodeId) -> bool
    ensures { IsTrue result → Contains (range_with_len 1 setup.now.nodes) node.0 }
{
    0 < node.0 && node.0 <= setup.nodes
}

fn is_row(row: &QueueRow, queue: QueueId) -> bool
    ensures { result ≡ nat_eq (place_of row.now) queue.0 }
{
    row.args.queue.0 == queue.0
}

fn row_at(rows: &[QueueRow], queue: QueueId) -> Option<&QueueRow>
    ensures { option_copied result ≡ row_at rows.now queue.0 }
{
    for row in rows {
        if is_row(row, queue) {
            return Some(row);
        }
    }
    None
}

fn has_node(nodes: &[NodeId], node: NodeId) -> bool
    ensures { result ≡ list_any (λ own. nat_eq own.0 node.0) nodes.now }
{
    nodes.iter().any(|own| own.0 == node.0)
}

fn is_served(setup: &Setup, node: NodeId, queue: QueueId) -> bool
    ensures { IsTrue result → Contains (members_by (row_at setup.now.queues queue.0)) node }
{
    match row_at(setup.queues.as_slice(), queue) {
        Some(row) => has_node(row.members.as_slice(), node),
        None => false,
    }
}

fn is_member(setup: &Setup, node: NodeId, queue: QueueId) -> bool
    ensures { IsTrue result → Contains (range_with_len 1 setup.now.nodes) node.0
        × Contains (map place_of setup.now.queues) queue.0
        × Contains (members_by (row_at setup.now.queues queue.0)) node }
{
    is_node(setup, node) && is_place(setup, queue) && is_served(setup, node, queue)
}

fn is_one(setup: &Setup, nodes: Nodes) -> bool
    ensures { (logs : Logs) → IsTrue result → AreNodes (cluster_over setup.now logs) nodes }
{
    match nodes {
        Nodes::One(node) => is_node(setup, node),
        Nodes::All => true,
    }
}

// ---- lines

fn is_sent(session: SessionId, key: &Text, body: &Bytes) -> bool
    ensures { IsTrue result → IsClient session × IsShort key.now body.now }
{
    is_client(session) && is_short(key, body)
}

fn is_asked(setup: &Setup, session: SessionId, queue: QueueId, body: &Unstamped) -> bool
    ensures { IsTrue result → IsClient session
        × Contains (map place_of setup.now.queues) queue.0 × IsBody body.now }
{
    is_client(session) && is_place(setup, queue) && is_body(body)
}

/// Whether a line is of a kind that a drill has, and names queues, nodes and sessions that are there.
pub fn is_named(setup: &Setup, line: &ScriptLine) -> bool
    ensures { (logs : Logs) → IsTrue result → IsNamed (cluster_over setup.now logs) line.now }
{
    match line {
        ScriptLine::Send {
            session,
            key,
            body,
            ..
        } => is_sent(*session, key, body),
        ScriptLine::Client {
            session,
            queue,
            body,
        } => is_asked(setup, *session, *queue, body),
        ScriptLine::Resend { session } => is_client(*session),
        ScriptLine::Pace { .. } => true,
        ScriptLine::Pump => true,
        ScriptLine::Write { node } => is_node(setup, *node),
        ScriptLine::Tick { node, queue } => is_member(setup, *node, *queue),
        ScriptLine::Crash { nodes, .. } => is_one(setup, *nodes),
        ScriptLine::Restart { nodes } => is_one(setup, *nodes),
        _ => false,
    }
}
