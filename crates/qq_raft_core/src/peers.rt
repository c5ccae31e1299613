//! The other members, as a server sees them.
ghost use Rattle.std.specs.Prelude.{ℕ, ◌≡◌, ◌+◌, ◌*◌, ◌≤◌, ◌<◌, ◌^◌, All, map, count_by, nat_le, nat_lt};
ghost use Rattle.qq_base.specs.declared.memory.TheConstants.{NUMBER_END};
ghost use Rattle.qq_raft_model.specs.declared.peer.Peer.{Peer};
ghost use Rattle.qq_raft_model.specs.Leading.{one_if};
ghost use Rattle.qq_raft_model.specs.Server.{greater, match_peer, back_peer};
ghost use Rattle.qq_raft_core.specs.Peers.{change_peer, picks, IsCounted};
ghost use Rattle.qq_raft_core.specs.Raft.{IsPeer};

use qq_base::NodeId;
use qq_raft_model::Peer;

/// What becomes of the other members.
#[derive(Clone, Copy, Debug, PartialEq, Eq)]
pub(crate) enum PeerChange {
    /// A leader knows nothing of their logs, and sends from this index on.
    Started { next: u64 },
    /// They are sent again what they aren't known to have.
    Rewound,
    /// They are asked for their votes.
    Asked,
    /// One has given its vote.
    Granted { node: NodeId },
    /// One has the entries up to an index.
    Matched { node: NodeId, index: u64 },
    /// One lacks what comes before what was sent, and has no more than this.
    Behind { node: NodeId, index: u64 },
}

/// Who is sent to.
#[derive(Clone, Copy, Debug, PartialEq, Eq)]
pub(crate) enum Target {
    /// All.
    Everyone,
    /// One.
    One { node: NodeId },
    /// One, if there is an entry that it wasn't sent.
    Lacking { node: NodeId },
    /// Each that wasn't sent the last entry.
    Lagging,
}

impl Target {
    pub(crate) fn picks(self, last: u64, peer: &Peer) -> bool
        ensures { result ≡ picks self last peer.now }
    {
        match self {
            Target::Everyone => true,
            Target::One { node } => peer.node.0 == node.0,
            Target::Lacking { node } => peer.node.0 == node.0 && peer.next <= last,
            Target::Lagging => peer.next <= last,
        }
    }
}

pub(crate) fn greater(a: u64, b: u64) -> u64
    ensures value { result ≡ greater a b }
    ensures end { (n : ℕ) → a ≤ n → b ≤ n → result ≤ n }
{
    if a < b { b } else { a }
}

fn match_peer(peer: &mut Peer, index: u64)
    requires peer { IsPeer peer.old }
    requires index { index ≤ NUMBER_END }
    ensures value { peer.new ≡ match_peer index peer.old }
    ensures matched { peer.new.matched ≤ NUMBER_END }
    ensures next { peer.new.next ≤ NUMBER_END + 1 }
{
    let matched = greater(peer.matched, index);
    peer.next = greater(peer.next, matched + 1);
    peer.matched = matched;
}

#[tactic(auto, using(crate::proofs::Sendable::min_end))]
fn back_peer(peer: &mut Peer, index: u64)
    requires peer { IsPeer peer.old }
    requires index { index ≤ NUMBER_END }
    ensures value { peer.new ≡ back_peer index peer.old }
    ensures next { peer.new.next ≤ NUMBER_END + 1 }
{
    let back = peer.next.saturating_sub(1).min(index + 1);
    peer.next = greater(peer.matched + 1, back);
}

fn change_peer(change: PeerChange, peer: &mut Peer)
    requires peer { IsPeer peer.old }
    requires counted { IsCounted change }
    ensures value { peer.new ≡ change_peer change peer.old }
    ensures peer { IsPeer peer.new }
{
    match change {
        PeerChange::Started { next } => {
            peer.next = next;
            peer.matched = 0;
        }
        PeerChange::Rewound => peer.next = peer.matched + 1,
        PeerChange::Asked => peer.granted = false,
        PeerChange::Granted { node } => {
            if peer.node.0 == node.0 {
                peer.granted = true;
            }
        }
        PeerChange::Matched { node, index } => {
            if peer.node.0 == node.0 {
                match_peer(peer, index);
            }
        }
        PeerChange::Behind { node, index } => {
            if peer.node.0 == node.0 {
                back_peer(peer, index);
            }
        }
    }
}

fn change_each(change: PeerChange, peers: &mut [Peer])
    requires each { All IsPeer peers.old }
    requires counted { IsCounted change }
    ensures value { peers.new ≡ map (change_peer change) peers.old }
    ensures each { All IsPeer peers.new }
{
    'peers: for peer in peers.iter_mut() {
        change_peer(change, peer);
    }
}

/// Changes each of the other members.
pub(crate) fn change_peers(change: PeerChange, peers: &mut Vec<Peer>)
    requires each { All IsPeer peers.old.items }
    requires counted { IsCounted change }
    ensures value { peers.new.items ≡ map (change_peer change) peers.old.items }
    ensures each { All IsPeer peers.new.items }
{
    change_each(change, peers);
}

/// How many have given their votes.
pub(crate) fn granted_count(peers: &[Peer]) -> usize
    ensures { result ≡ count_by (λ (p : Peer). p.granted) peers.now }
{
    peers.iter().filter(|peer| peer.granted).count()
}

/// How many have the entries up to an index.
pub(crate) fn matched_count(index: u64, peers: &[Peer]) -> usize
    ensures { result ≡ count_by (λ (p : Peer). nat_le index p.matched) peers.now }
{
    peers.iter().filter(|peer| index <= peer.matched).count()
}

/// Whether so many of the others, and the server itself or not, are a majority.
pub(crate) fn is_majority(own: bool, count: usize, others: usize) -> bool
    requires others { others < 2 ^ 32 }
    requires count { count ≤ others }
    ensures { result ≡ nat_lt (others + 1) (2 * (one_if own + count)) }
{
    let all = if own { count + 1 } else { count };
    others + 1 < 2 * all
}
