//! Where a queue's entries lie in older log files.
ghost use Rattle.std.specs.Prelude.{◌≡◌, [], true, false, nat_lt, slice_get};
ghost use Rattle.std.specs.List.Sorted.{IsPartitionPoint};
ghost use Rattle.qq_log.specs.declared.head.Span.{Span};
ghost use Rattle.qq_wal.specs.Marks.{is_below, is_rising};
ghost use Rattle.qq_wal.specs.Spans.{files_in, find_file, range_at, range_in, span_to, spans_to};

use qq_base::Index;
use qq_log::Span;
use std::alloc::Global;
use std::marker::Model;

/// Indices of entries that follow one another: the first and the last.
pub(crate) type Range = (u64, u64);

/// Runs of entries in log files, the oldest file first. Where the files rise by their numbers, as a log's do,
/// a file's run is found by binary search, and else by a walk.
#[derive(Drop)]
pub(crate) struct Older {
    spans: Vec<Span>,
    /// Whether the files rise by their numbers.
    rising: bool,
}

impl Model for Older {
    ghost use Rattle.std.specs.Prelude.{◌≡◌, List};
    ghost use Rattle.qq_log.specs.declared.head.Span.{Span};
    ghost use Rattle.qq_wal.specs.Marks.{is_rising};
    ghost use Rattle.qq_wal.specs.Spans.{files_in};

    ghost Value = { List Span };

    ghost view = { λ o. o.spans.items };

    ghost invariant = { λ o. o.rising ≡ is_rising (files_in o.spans.items) };
}

/// What a cut leaves of a run.
pub(crate) fn span_to(cut: Option<u64>, span: Span) -> Option<Span>
    ensures { result ≡ span_to cut span }
{
    match cut {
        None => Some(span),
        Some(keep) => {
            if span.first.0 <= keep {
                return Some(Span {
                    last: Index(span.last.0.min(keep)),
                    ..span
                });
            }
            None
        }
    }
}

fn is_below(file: u64, after: &[Span]) -> bool
    ensures { result ≡ is_below file (files_in after.now) }
{
    match after {
        [] => true,
        [next, ..] => file < next.file,
    }
}

/// Whether each file's number is below the next one's.
fn files_rise(spans: &[Span]) -> bool
    ensures { result ≡ is_rising (files_in spans.now) }
{
    let mut rest = spans;
    'rest: while let [span, after @ ..] = rest {
        if !is_below(span.file, after) {
            return false;
        }
        rest = after;
    }
    true
}

/// The first place of which the file isn't below this one.
fn file_place(file: u64, spans: &[Span]) -> usize
    requires { is_rising (files_in spans.now) ≡ true }
    ensures { IsPartitionPoint (λ (s : Span). nat_lt s.file file ≡ true)
        (λ (s : Span). nat_lt s.file file ≡ false) spans.now result }
{
    spans.partition_point(|span| span.file < file)
}

fn range_in(span: Option<Span>) -> Option<Range>
    ensures { result ≡ range_in span }
{
    match span {
        None => None,
        Some(span) => Some((span.first.0, span.last.0)),
    }
}

/// The entries of the run at a place, where it is the file's.
fn range_at(cut: Option<u64>, file: u64, spans: &[Span], place: usize) -> Option<Range>
    ensures { result ≡ range_at cut file (slice_get spans.now place) }
{
    match spans.get(place) {
        None => None,
        Some(span) => {
            if span.file == file {
                return range_in(span_to(cut, *span));
            }
            None
        }
    }
}

/// The entries that lie in a file, where the log was cut.
fn find_cut(cut: Option<u64>, file: u64, spans: &[Span]) -> Option<Range>
    ensures { result ≡ find_file file (spans_to cut spans.now) }
{
    let mut rest = spans;
    'rest: while let [span, after @ ..] = rest {
        if let Some(left) = span_to(cut, *span) {
            if left.file == file {
                return Some((left.first.0, left.last.0));
            }
        }
        rest = after;
    }
    None
}

fn find_in(cut: Option<u64>, file: u64, spans: &[Span], rising: bool) -> Option<Range>
    requires { rising ≡ is_rising (files_in spans.now) }
    ensures { result ≡ find_file file (spans_to cut spans.now) }
{
    if !rising {
        return find_cut(cut, file, spans);
    }
    let place = file_place(file, spans);
    range_at(cut, file, spans, place)
}

impl Older {
    /// No runs. It takes no memory.
    pub(crate) fn new(alloc: Global) -> Self
        ensures { result ≡ [] }
    {
        Older {
            spans: Vec::new(alloc),
            rising: true,
        }
    }

    /// These runs. It takes no memory.
    pub(crate) fn from_vec(spans: Vec<Span>) -> Self
        ensures { result ≡ spans.items }
    {
        let rising = files_rise(spans.as_slice());
        Older { spans, rising }
    }

    pub(crate) fn as_slice(&self) -> &[Span]
        ensures { result.now ≡ self.now }
    {
        self.spans.as_slice()
    }

    /// The first and the last of the entries that lie in a file, where the log was cut behind an index.
    pub(crate) fn find(&self, cut: Option<u64>, file: u64) -> Option<Range>
        ensures { result ≡ find_file file (spans_to cut self.now) }
    {
        find_in(cut, file, self.spans.as_slice(), self.rising)
    }
}
