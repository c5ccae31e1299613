//! Whether terms may have had their elections.
ghost use Rattle.std.specs.Prelude.{◌≡◌, ◌<◌, ◌≤◌, ◌^◌, ℕ, Some, length, option_map};
ghost use Rattle.std.specs.Bool.{Decides};
ghost use Rattle.qq_raft_protocol.specs.Facts.{tally};
ghost use Rattle.qq_agree.specs.Support.{HasElection, number, numbers};
ghost use Rattle.qq_agree.specs.Tests.{all_have_elections, has_election, has_voted, have_elections, may_lead, may_lead_by, named};

use crate::holder::Holder;
use qq_base::NodeId;

/// Whether a member is past a term, or has its vote in it for this node.
fn has_voted<H: Holder>(holder: &H, node: NodeId, term: u64, to: NodeId) -> bool
    requires { H.is_sound holder.now }

    ensures { result ≡ has_voted term to.0 (H.lane holder.now node.0) }
{
    let own = holder.term(node).0;
    if term < own {
        return true;
    }
    if own != term {
        return false;
    }
    match holder.vote(node) {
        None => false,
        Some(vote) => vote.0 == to.0,
    }
}

/// How many members are so.
fn votes<H: Holder>(holder: &H, nodes: &[NodeId], term: u64, to: NodeId) -> u64
    requires { H.is_sound holder.now }

    ensures value { result
        ≡ tally (λ (k : ℕ). has_voted term to.0 (H.lane holder.now k)) (numbers nodes.now) }
    ensures within { result ≤ length nodes.now }
{
    let mut count = 0;
    'nodes: for node in nodes {
        if has_voted(holder, *node, term, to) {
            count += 1;
        }
    }
    count
}

/// Whether a node has reached a term, and a majority may have voted for it.
fn may_lead<H: Holder>(holder: &H, nodes: &[NodeId], term: u64, to: NodeId) -> bool
    requires sound { H.is_sound holder.now }
    requires count { length nodes.now < 2 ^ 32 }

    ensures { result ≡ may_lead nodes.now (H.lane holder.now) term to.0 }
{
    let own = holder.term(to).0;
    if own < term {
        return false;
    }
    (nodes.len() as u64) < 2 * votes(holder, nodes, term, to)
}

/// Whom a member names for a term: itself where it is past it, else its vote in it.
fn named<H: Holder>(holder: &H, node: NodeId, term: u64) -> Option<NodeId>
    requires { H.is_sound holder.now }

    ensures { option_map number result ≡ named term node.0 (H.lane holder.now node.0) }
{
    let own = holder.term(node).0;
    if term < own {
        return Some(node);
    }
    if own != term {
        return None;
    }
    holder.vote(node)
}

/// Whether the node that a member names may lead.
fn may_lead_by<H: Holder>(holder: &H, nodes: &[NodeId], term: u64, node: NodeId) -> bool
    requires sound { H.is_sound holder.now }
    requires count { length nodes.now < 2 ^ 32 }

    ensures { result ≡ may_lead_by nodes.now (H.lane holder.now) term
        (named term node.0 (H.lane holder.now node.0)) }
{
    match named(holder, node, term) {
        None => false,
        Some(to) => may_lead(holder, nodes, term, to),
    }
}

/// Whether a term may have had its election.
fn has_election<H: Holder>(holder: &H, nodes: &[NodeId], term: u64) -> bool
    requires sound { H.is_sound holder.now }
    requires count { length nodes.now < 2 ^ 32 }

    ensures test { result ≡ has_election nodes.now (H.lane holder.now) term }
    ensures exact { Decides result (HasElection nodes.now (H.lane holder.now) term) }
{
    'nodes: for node in nodes {
        if may_lead_by(holder, nodes, term, *node) {
            return true;
        }
    }
    false
}

/// Whether a term is the one that was looked at last.
fn is_last(last: Option<u64>, term: u64) -> bool
    ensures { Decides result (last ≡ Some term) }
{
    match last {
        None => false,
        Some(last) => last == term,
    }
}

/// Whether each term of a member's entries may have had its election.
fn have_elections<H: Holder>(holder: &H, nodes: &[NodeId], node: NodeId) -> bool
    requires sound { H.is_sound holder.now }
    requires count { length nodes.now < 2 ^ 32 }

    ensures { result
        ≡ have_elections nodes.now (H.lane holder.now) (H.lane holder.now node.0).log }
{
    let mut before = None;
    'entries: for place in 0..holder.count(node) {
        let Some(entry) = holder.entry(node, place) else {
            return true;
        };
        let term = entry.term.0;
        // Most entries have the term of the one before.
        let same = is_last(before, term);
        if !same {
            if !has_election(holder, nodes, term) {
                return false;
            }
            before = Some(term);
        }
    }
    true
}

/// Whether it is so of each member.
pub(crate) fn all_have_elections<H: Holder>(holder: &H, nodes: &[NodeId]) -> bool
    requires sound { H.is_sound holder.now }
    requires count { length nodes.now < 2 ^ 32 }

    ensures { result ≡ all_have_elections (H.lane holder.now) nodes.now nodes.now }
{
    'nodes: for node in nodes {
        if !have_elections(holder, nodes, *node) {
            return false;
        }
    }
    true
}
