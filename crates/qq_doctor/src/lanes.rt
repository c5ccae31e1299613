//! Where two lanes of a queue differ.
ghost use Rattle.std.specs.Prelude.{◌≡◌, ◌≤◌, ◌^◌, ◌<◌, IfSome, IfNone};
ghost use Rattle.std.specs.Bool.{Decides};
ghost use Rattle.std.specs.Option.{option_copied};
ghost use Rattle.qq_doctor.specs.Lanes.{Counts, Differ, entry_at, last, reaches, term_at};

use qq_base::{NodeId, Term};
use qq_entry::{Entry, same_entry};
use qq_log::Lane;

// The index of a lane's last entry.
fn last(lane: &Lane) -> u64
    ensures { result ≡ last lane.now }
{
    lane.base.index.0.saturating_add(lane.entries.len() as u64)
}

// The entry at a place.
fn entry_at(place: u64, lane: &Lane) -> Option<&Entry>
    ensures { option_copied result ≡ entry_at place lane.now }
{
    let base = lane.base.index.0;
    if place <= base {
        return None;
    }
    lane.entries.as_slice().get((place - base - 1) as usize)
}

// The term of the entry at a place, or of the base.
fn term_at(place: u64, lane: &Lane) -> Option<Term>
    ensures { result ≡ term_at place lane.now }
{
    if place == lane.base.index.0 {
        return Some(lane.base.term);
    }
    match entry_at(place, lane) {
        Some(entry) => Some(entry.term),
        None => None,
    }
}

// Whether two lanes differ at a place where they have these terms.
fn differ(place: u64, a: &Lane, b: &Lane, s: Term, t: Term) -> bool
    requires a { term_at place a.now ≡ Some s }
    requires b { term_at place b.now ≡ Some t }
    ensures { Decides result (Differ place a.now b.now) }
{
    let Some(own) = entry_at(place, a) else {
        return s.0 != t.0;
    };
    let Some(other) = entry_at(place, b) else {
        return s.0 != t.0;
    };
    !same_entry(own, other)
}

/// The terms that two lanes have at a place where they differ.
pub(crate) fn difference(place: u64, a: &Lane, b: &Lane) -> Option<(Term, Term)>
    ensures some { IfSome result (λ terms. Differ place a.now b.now
        × (term_at place a.now ≡ Some terms.0) × (term_at place b.now ≡ Some terms.1)) }
    ensures none { IfNone result (Differ place a.now b.now → ⊥) }
{
    let Some(s) = term_at(place, a) else {
        return None;
    };
    let Some(t) = term_at(place, b) else {
        return None;
    };
    if differ(place, a, b, s, t) {
        return Some((s, t));
    }
    None
}

fn reaches(place: u64, found: &(NodeId, Lane)) -> bool
    ensures { result ≡ reaches place found.now }
{
    place <= last(&found.1)
}

/// Whether a majority of so many members' lanes reach a place.
pub(crate) fn counts(members: u8, lanes: &[(NodeId, Lane)], place: u64) -> bool
    ensures { Decides result (Counts members lanes.now place) }
{
    let mut count: u64 = 0;
    'lanes: for found in lanes {
        if reaches(place, found) {
            count += 1;
        }
    }
    u64::from(members / 2) < count
}
