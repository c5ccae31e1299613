//! The numbers of files.
ghost use Rattle.std.specs.Prelude.{◌≡◌, ◌≤◌, ◌+◌, Err, IfOk, IfErr, OnErr};
ghost use Rattle.qq_base.specs.declared.memory.TheConstants.{NUMBER_END};
ghost use Rattle.qq_wal.specs.Numbers.{same_kind, greater, greatest_number, first_numbers, number_of, raise};

use qq_base::{Memory, NUMBER_END};
use qq_disk::{FileKind, FileName};
use qq_wal_record::Header;

/// The greatest number of each kind that was listed, given or begun.
#[derive(Clone, Copy, Debug)]
pub(crate) struct Numbers {
    pub(crate) log: u64,
    pub(crate) segment: u64,
    pub(crate) snapshot: u64,
}

fn same_kind(a: FileKind, b: FileKind) -> bool
    ensures { result ≡ same_kind a b }
{
    match a {
        FileKind::Log => matches!(b, FileKind::Log),
        FileKind::Segment => matches!(b, FileKind::Segment),
        FileKind::Snapshot => matches!(b, FileKind::Snapshot),
    }
}

fn greater(kind: FileKind, greatest: u64, name: &FileName) -> u64
    ensures { result ≡ greater kind greatest name.now }
{
    if same_kind(kind, name.kind) {
        return greatest.max(name.number);
    }
    greatest
}

/// The greatest number of a kind among names of files, 0 where none is of that kind.
pub fn greatest_number(names: &[FileName], kind: FileKind) -> u64
    ensures { result ≡ greatest_number kind names.now }
{
    let mut greatest = 0;
    'names: for name in names {
        greatest = greater(kind, greatest, name);
    }
    greatest
}

/// The numbers behind a new log file.
pub(crate) fn first_numbers(header: Header, names: &[FileName]) -> Numbers
    ensures { result ≡ first_numbers header names.now }
{
    Numbers {
        log: header.file,
        segment: greatest_number(names, FileKind::Segment),
        snapshot: greatest_number(names, FileKind::Snapshot),
    }
}

/// The number behind the greatest one. `Spent` comes exactly where that is at its end or above.
pub(crate) fn next_number(greatest: u64) -> Result<u64, Memory>
    ensures ok { IfOk result (λ number. number ≡ greatest + 1) }
    ensures within { IfOk result (λ number. number ≤ NUMBER_END) }
    ensures spent { NUMBER_END ≤ greatest → result ≡ Err (Memory.Spent greatest) }
    ensures err { IfErr result (λ e. (e ≡ Memory.Spent greatest) × (NUMBER_END ≤ greatest)) }
{
    if greatest >= NUMBER_END {
        return Err(Memory::Spent { number: greatest });
    }
    Ok(greatest + 1)
}

/// The numbers once the next of a kind is given, and that number.
pub(crate) fn raise(numbers: Numbers, kind: FileKind) -> Result<(Numbers, u64), Memory>
    ensures ok { IfOk result (λ next.
        (next.0 ≡ raise kind numbers) × (next.1 ≡ number_of kind numbers + 1)) }
    ensures spent { NUMBER_END ≤ number_of kind numbers →
        result ≡ Err (Memory.Spent (number_of kind numbers)) }
    ensures err { OnErr result (NUMBER_END ≤ number_of kind numbers) }
{
    let mut raised = numbers;
    match kind {
        FileKind::Log => {
            raised.log = next_number(numbers.log)?;
            Ok((raised, raised.log))
        }
        FileKind::Segment => {
            raised.segment = next_number(numbers.segment)?;
            Ok((raised, raised.segment))
        }
        FileKind::Snapshot => {
            raised.snapshot = next_number(numbers.snapshot)?;
            Ok((raised, raised.snapshot))
        }
    }
}
