//! Whether logs match.
ghost use Rattle.std.specs.Prelude.{◌≡◌, ◌+◌, ◌-◌, ◌≤◌, drop, length};
ghost use Rattle.std.specs.Bool.{Decides};
ghost use Rattle.qq_agree.specs.Support.{LogsMatch, TermsRise};
ghost use Rattle.qq_agree.specs.Tests.{all_match, apart, common, logs_match, matches_each};

use crate::holder::Holder;
use qq_base::NodeId;
use qq_entry::same_entry;

/// How many entries two members' logs both begin with.
fn common<H: Holder>(holder: &H, a: NodeId, b: NodeId) -> u64
    requires { H.is_sound holder.now }

    ensures { result ≡ common (H.lane holder.now a.0).log (H.lane holder.now b.0).log }
{
    let count = holder.count(a);
    'entries: for place in 0..count {
        let Some(own) = holder.entry(a, place) else {
            return place;
        };
        let Some(other) = holder.entry(b, place) else {
            return place;
        };
        if !same_entry(own, other) {
            return place;
        }
    }
    count
}

/// Whether no term occurs in both from a place on, along each of which terms rise.
fn are_apart<H: Holder>(holder: &H, a: NodeId, b: NodeId, first: u64) -> bool
    requires sound { H.is_sound holder.now }
    requires own { first ≤ length (H.lane holder.now a.0).log }
    requires other { first ≤ length (H.lane holder.now b.0).log }

    ensures { result ≡ apart
        (length (H.lane holder.now a.0).log + (length (H.lane holder.now b.0).log - 1))
        (drop first (H.lane holder.now a.0).log) (drop first (H.lane holder.now b.0).log) }
{
    let count = holder.count(a) + holder.count(b).saturating_sub(1);
    let mut own = first;
    let mut other = first;
    'steps: for step in 0..count {
        let Some(one) = holder.entry(a, own) else {
            return true;
        };
        let Some(two) = holder.entry(b, other) else {
            return true;
        };
        if one.term.0 < two.term.0 {
            own += 1;
        } else if two.term.0 < one.term.0 {
            other += 1;
        } else {
            return false;
        }
    }
    true
}

/// Whether two members' logs match, along each of which terms rise.
fn logs_match<H: Holder>(holder: &H, a: NodeId, b: NodeId) -> bool
    requires { H.is_sound holder.now }

    ensures test { result
        ≡ logs_match (H.lane holder.now a.0).log (H.lane holder.now b.0).log }
    ensures exact { TermsRise (H.lane holder.now a.0) → TermsRise (H.lane holder.now b.0) →
        Decides result (LogsMatch (H.lane holder.now a.0).log (H.lane holder.now b.0).log) }
{
    let first = common(holder, a, b);
    are_apart(holder, a, b, first)
}

/// Whether a member's log matches those of these.
fn matches_each<H: Holder>(holder: &H, node: NodeId, nodes: &[NodeId]) -> bool
    requires { H.is_sound holder.now }

    ensures { result
        ≡ matches_each (H.lane holder.now) (H.lane holder.now node.0).log nodes.now }
{
    'nodes: for other in nodes {
        if !logs_match(holder, node, *other) {
            return false;
        }
    }
    true
}

/// Whether each member's log matches those of the members after it.
pub(crate) fn all_match<H: Holder>(holder: &H, nodes: &[NodeId]) -> bool
    requires { H.is_sound holder.now }

    ensures { result ≡ all_match (H.lane holder.now) nodes.now }
{
    'nodes: for at in 0..nodes.len() {
        if !matches_each(holder, nodes[at], &nodes[at + 1..]) {
            return false;
        }
    }
    true
}
