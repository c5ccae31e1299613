//! What leads back from changes that may be lost.
ghost use Rattle.std.specs.Prelude.{◌≡◌, ◌≤◌, ◌<◌, ◌+◌, ◌^◌, true, length, drop, slice_get};
ghost use Rattle.std.specs.Bool.{Decides};
ghost use Rattle.std.specs.Option.{option_copied};
ghost use Rattle.qq_log.specs.Stable.{no_snapshot};
ghost use Rattle.qq_raft_core.specs.Undone.{keeps_within, log_before, term_before, vote_before};

use qq_base::{Index, NodeId, Term};
use qq_entry::{Entries, Entry, same_entry};
use qq_raft_msg::LogView;

/// What leads back from a change of a server to what its disk was to hold before.
#[derive(Drop)]
pub struct Undo {
    pub(crate) term: Term,
    pub(crate) vote: Option<NodeId>,
    /// How many entries the change kept.
    pub(crate) keep: u64,
    /// Those that it cut.
    pub(crate) cut: Entries,
}

impl Undo {
    /// The entry at a place of those that the change cut.
    fn at(&self, place: u64) -> Option<&Entry>
        ensures { option_copied result ≡ slice_get self.now.cut place }
    {
        self.cut.as_slice().get(place as usize)
    }
}

/// The item at a place of a list.
pub(crate) fn item_at<T>(items: &[T], place: usize) -> Option<&T>
    ensures { option_copied result ≡ slice_get items.now place }
{
    items.get(place)
}

/// Gives up the first so many.
pub(crate) fn drop_front(undos: &mut Vec<Undo>, count: usize)
    requires { count ≤ length undos.old.items }
    ensures { undos.new.items ≡ drop count undos.old.items }
{
    // A call that isn't of the log's disk, as that of a client's command, gives up none.
    if count == 0 {
        return;
    }
    undos.drain(..count);
}

/// The undos from a place on.
pub(crate) fn undos_from(undos: &[Undo], first: usize) -> &[Undo]
    requires { first ≤ length undos.now }
    ensures { result.now ≡ drop first undos.now }
{
    &undos[first..]
}

/// Whether two servers voted for the same node, or for none.
pub(crate) fn same_vote(a: Option<NodeId>, b: Option<NodeId>) -> bool
    ensures { Decides result (a ≡ b) }
{
    match (a, b) {
        (None, None) => true,
        (Some(a), Some(b)) => a.0 == b.0,
        _ => false,
    }
}

/// The term before some changes, the term after them being this.
pub(crate) fn term_before(undos: &[Undo], term: Term) -> Term
    ensures { result ≡ term_before undos.now term }
{
    match undos.first() {
        None => term,
        Some(undo) => undo.term,
    }
}

/// The vote before them.
pub(crate) fn vote_before(undos: &[Undo], vote: Option<NodeId>) -> Option<NodeId>
    ensures { result ≡ vote_before undos.now vote }
{
    match undos.first() {
        None => vote,
        Some(undo) => undo.vote,
    }
}

/// Whether a log had so many entries before some changes.
fn had_count<L: LogView>(undos: &[Undo], log: &L, count: u64) -> bool
    requires whole { (L.log log.now).base ≡ no_snapshot }
    requires within { keeps_within undos.now (L.log log.now).entries ≡ true }
    ensures { Decides result (length (log_before undos.now (L.log log.now).entries) ≡ count) }
{
    match undos.first() {
        None => log.last().0 == count,
        Some(undo) => {
            let short = count < undo.keep;
            if short {
                return false;
            }
            count - undo.keep == undo.cut.len() as u64
        }
    }
}

/// The entry at a place of a log, from 0, before some changes.
pub(crate) fn entry_before<'a, L: LogView>(
    undos: &'a [Undo],
    log: &'a L,
    at: u64,
) -> Option<&'a Entry>
    requires whole { (L.log log.now).base ≡ no_snapshot }
    requires within { keeps_within undos.now (L.log log.now).entries ≡ true }
    requires at { at < 2 ^ 63 }
    ensures { option_copied result ≡ slice_get (log_before undos.now (L.log log.now).entries) at }
{
    'undos: for place in 0..undos.len() {
        let Some(undo) = item_at(undos, place) else {
            return None;
        };
        if undo.keep <= at {
            return undo.at(at - undo.keep);
        }
    }
    match log.entry(Index(at + 1)) {
        None => None,
        Some(entry) => Some(entry),
    }
}

/// Whether a log had these entries behind an index before some changes.
pub(crate) fn ends_before<L: LogView>(undos: &[Undo], log: &L, keep: u64, entries: &[Entry]) -> bool
    requires whole { (L.log log.now).base ≡ no_snapshot }
    requires within { keeps_within undos.now (L.log log.now).entries ≡ true }
    requires keep { keep ≤ length (log_before undos.now (L.log log.now).entries) }
    requires end { keep + length entries.now ≤ 2 ^ 63 }
    ensures { Decides result
        (drop keep (log_before undos.now (L.log log.now).entries) ≡ entries.now) }
{
    let end = keep + entries.len() as u64;
    let same = had_count(undos, log, end);
    if !same {
        return false;
    }
    'entries: for place in 0..entries.len() {
        let Some(own) = entry_before(undos, log, keep + place as u64) else {
            return false;
        };
        let Some(other) = item_at(entries, place) else {
            return false;
        };
        if !same_entry(own, other) {
            return false;
        }
    }
    true
}

/// Whether another log has the entries that a log had before some changes.
pub(crate) fn same_before<L: LogView>(undos: &[Undo], log: &L, other: &L) -> bool
    requires whole { (L.log log.now).base ≡ no_snapshot }
    requires other { (L.log other.now).base ≡ no_snapshot }
    requires last { length (L.log other.now).entries ≤ 2 ^ 63 }
    requires within { keeps_within undos.now (L.log log.now).entries ≡ true }
    ensures { Decides result
        (log_before undos.now (L.log log.now).entries ≡ (L.log other.now).entries) }
{
    let last = other.last().0;
    let same = had_count(undos, log, last);
    if !same {
        return false;
    }
    'entries: for at in 0..last {
        let Some(own) = entry_before(undos, log, at) else {
            return false;
        };
        let Some(found) = other.entry(Index(at + 1)) else {
            return false;
        };
        if !same_entry(own, found) {
            return false;
        }
    }
    true
}
