//! Who knows the lanes of a group's members.
use qq_base::{NodeId, Term};
use qq_entry::Entry;

/// Who knows the lane of each member of a group: its term, its vote and its log.
pub trait Holder {
    ghost use Rattle.std.specs.Prelude.{◌≡◌, ◌≤◌, ◌^◌, ℕ, length, slice_get, option_map};
    ghost use Rattle.std.specs.Option.{option_copied};
    ghost use Rattle.qq_raft_protocol.specs.World.{Lane};
    ghost use Rattle.qq_agree.specs.Support.{number};

    /// When it may be asked.
    ghost is_sound: { Self → Type 0 };

    /// The lanes, by their nodes' numbers.
    ghost lane: { Self → ℕ → Lane };

    /// A lane's term.
    fn term(&self, node: NodeId) -> Term
        requires { is_sound self.now }
        ensures { result.0 ≡ (lane self.now node.0).term };

    /// The vote in it, if one was given.
    fn vote(&self, node: NodeId) -> Option<NodeId>
        requires { is_sound self.now }
        ensures { option_map number result ≡ (lane self.now node.0).vote };

    /// How many entries the log has.
    fn count(&self, node: NodeId) -> u64
        requires { is_sound self.now }
        ensures value { result ≡ length (lane self.now node.0).log }
        ensures within { result ≤ 2 ^ 63 };

    /// The entry at a place, from 0. None exactly where the log ends before it.
    fn entry(&self, node: NodeId, place: u64) -> Option<&Entry>
        requires sound { is_sound self.now }
        requires place { place ≤ 2 ^ 63 }
        ensures { option_copied result ≡ slice_get (lane self.now node.0).log place };
}
