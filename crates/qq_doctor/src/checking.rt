//! A queue's lanes are compared.
ghost use Rattle.std.specs.Prelude.{◌<◌, ℕ, length, IfSome, IfNone};
ghost use Rattle.qq_doctor.specs.Lanes.{DifferAmong};
ghost use Rattle.qq_doctor.specs.Verdicts.{AreAlike, IsDifference, IsFirstFrom, Means};

use crate::lanes::{counts, difference};
use crate::verdict::Verdict;
use qq_base::{Index, NodeId, Term};
use qq_log::Lane;

/// A lane's node, and the term that it has at a place.
type Side = (NodeId, Term);

// A lane and the first after it that differs from it at a place.
fn first_from(place: u64, lanes: &[(NodeId, Lane)], i: usize) -> Option<(Side, Side)>
    requires { i < length lanes.now }
    ensures some { IfSome result (λ sides. IsFirstFrom place lanes.now i sides.0 sides.1) }
    ensures none { IfNone result ((l : ℕ) → i < l → DifferAmong place lanes.now i l → ⊥) }
{
    let own = &lanes[i];
    'others: for j in i + 1..lanes.len() {
        let other = &lanes[j];
        if let Some((s, t)) = difference(place, &own.1, &other.1) {
            return Some(((own.0, s), (other.0, t)));
        }
    }
    None
}

// The first two lanes that differ at a place.
fn first_pair(place: u64, lanes: &[(NodeId, Lane)]) -> Option<(Side, Side)>
    ensures some { IfSome result (λ sides. IsDifference place lanes.now sides.0 sides.1) }
    ensures none { IfNone result (AreAlike place lanes.now) }
{
    'lanes: for i in 0..lanes.len() {
        if let Some(sides) = first_from(place, lanes, i) {
            return Some(sides);
        }
    }
    None
}

/// Compares the lanes that were found of a queue with so many members, in the order of their nodes. It takes no memory.
///
/// The clause has what each verdict means. Lanes that differ aren't damaged: a node that was cut off may hold entries
/// which a leader of a later term replaces, once the node hears of it.
pub fn check(members: u8, lanes: &[(NodeId, Lane)]) -> Verdict
    ensures { Means members lanes.now result }
{
    'places: for upto in 0..u64::MAX {
        let place = upto + 1;
        let is_reached = counts(members, lanes, place);
        if !is_reached {
            return Verdict::Agree { upto: Index(upto) };
        }
        if let Some((a, b)) = first_pair(place, lanes) {
            return Verdict::Differ {
                index: Index(place),
                a,
                b,
            };
        }
    }
    Verdict::Agree {
        upto: Index(u64::MAX),
    }
}
