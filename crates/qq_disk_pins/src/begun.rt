//! Laws of a log that was begun: the functions do nothing, and their contracts are the laws.
ghost use Rattle.std.specs.Prelude.{◌≡◌, ◌≤◌, ◌<◌, ◌+◌, ◌*◌, [], ℕ, All, Contains, List, length, nat_le, false};
ghost use Rattle.std.specs.Global.{Vec};
ghost use Rattle.qq_base.specs.declared.ids.QueueId.{QueueId};
ghost use Rattle.qq_disk.specs.declared.name.FileKind.TheVariants.{Log};
ghost use Rattle.qq_disk.specs.declared.name.FileName.{FileName};
ghost use Rattle.qq_disk.specs.Disk.{Disk, IsListed};
ghost use Rattle.qq_disk.specs.Image.{log_of};
ghost use Rattle.qq_log.specs.declared.lane.Carry.{Carry};
ghost use Rattle.qq_wal_record.specs.declared.header.Header.{Header};
ghost use Rattle.qq_wal_chain.specs.Chain.{good_length};
ghost use Rattle.qq_wal_chain.specs.Wal.{wal};
ghost use Rattle.qq_wal.specs.declared.wal.Wal.{Wal};
ghost use Rattle.qq_wal.specs.Marks.{IsCarry, carries_in};
ghost use Rattle.qq_wal.specs.Numbers.{greatest_number, number_of};
ghost use Rattle.qq_wal.specs.Ranges.{AllRanges};
ghost use Rattle.qq_wal.specs.Wal.{IsBegun, IsSound, is_full};
ghost use Rattle.qq_recover.specs.declared.recovered.Recovered.{Recovered};
ghost use Rattle.qq_recover.specs.Reading.{newest_file, shown};
ghost use Rattle.qq_recover.specs.Recovered.{IsBegunBehind, IsNewLog, wal_of};

use qq_disk::NodeDisk;
use qq_wal_record::encodings_have_lengths;

/// What a log is once it was begun.
///
/// - `ready`: nothing waits, no call has failed, and nothing was appended that isn't synced. So ops may be
///   handed in, and a new file may follow at once.
/// - `size`: its file has 38 bytes of header, and 78 for each queue that has ops.
/// - `full`: as many bytes as were asked for make the file full.
/// - `fresh`: it isn't full, however many queues it restates, where any bytes were asked for.
/// - `numbers`: no file that was listed has a number above the greatest of its kind, so each number that is
///   given from then on is that of no file there.
pub fn a_new_log_is_ready<D: NodeDisk>()
    ensures ready { (queues : Vec QueueId) (header : Header) (carries : List Carry)
        (names : List FileName) (ranges : AllRanges) (log_bytes : ℕ) (w : Wal D) →
        IsBegun queues header carries names ranges log_bytes w →
        (w.waiting.items ≡ []) × (w.stopped ≡ false) × (w.dirty ≡ false) }
    ensures size { (queues : Vec QueueId) (header : Header) (carries : List Carry)
        (names : List FileName) (ranges : AllRanges) (log_bytes : ℕ) (w : Wal D) →
        All IsCarry carries → IsBegun queues header carries names ranges log_bytes w →
        w.size ≡ 38 + 78 * length (carries_in w.marks) }
    ensures full { (queues : Vec QueueId) (header : Header) (carries : List Carry)
        (names : List FileName) (ranges : AllRanges) (log_bytes bytes : ℕ) (w : Wal D) →
        IsBegun queues header carries names ranges log_bytes w →
        nat_le w.log_bytes bytes ≡ nat_le log_bytes bytes }
    ensures fresh { (queues : Vec QueueId) (header : Header) (carries : List Carry)
        (names : List FileName) (ranges : AllRanges) (log_bytes : ℕ) (w : Wal D) →
        IsBegun queues header carries names ranges log_bytes w → 0 < log_bytes →
        is_full w ≡ false }
    ensures numbers { (queues : Vec QueueId) (header : Header) (carries : List Carry)
        (names : List FileName) (ranges : AllRanges) (log_bytes : ℕ) (w : Wal D)
        (file : FileName) → greatest_number Log names < header.file →
        IsBegun queues header carries names ranges log_bytes w → Contains names file →
        file.number ≤ number_of file.kind w.numbers }
{
    encodings_have_lengths();
}

/// How a log goes on that was recovered.
///
/// - `newest`: its header names the newest file that has a whole header, and how far that is good.
/// - `above`: its file's number is above that of each log file on the disk.
/// - `numbers`: each number that is given from then on is that of no file on the disk.
/// - `ready`: it is of these queues. Nothing waits, no call has failed, and nothing was appended that isn't
///   synced.
/// - `full`: as many bytes as were asked for make the file full.
/// - `size`: its file has 38 bytes of header, and 78 for each queue that has ops.
pub fn a_recovered_log_goes_on_behind_what_was_read<D: NodeDisk>()
    ensures newest { (queues : List QueueId) (log_bytes : ℕ) (d : Disk) (r : Recovered D) →
        IsBegunBehind queues log_bytes d r → let file = newest_file queues (shown d) in
        ((wal_of r).header.previous ≡ file)
        × ((wal_of r).header.good ≡ good_length (wal queues) file (shown d file)) }
    ensures above { (queues : List QueueId) (log_bytes : ℕ) (d : Disk) (r : Recovered D)
        (number : ℕ) → IsBegunBehind queues log_bytes d r → IsListed d (log_of number) →
        number < (wal_of r).header.file }
    ensures numbers { (queues : List QueueId) (log_bytes : ℕ) (d : Disk) (r : Recovered D)
        (file : FileName) → IsBegunBehind queues log_bytes d r → IsListed d file →
        file.number ≤ number_of file.kind (wal_of r).numbers }
    ensures ready { (queues : List QueueId) (log_bytes : ℕ) (r : Recovered D) →
        IsNewLog queues log_bytes r → ((wal_of r).queues.items ≡ queues)
        × ((wal_of r).waiting.items ≡ []) × ((wal_of r).stopped ≡ false)
        × ((wal_of r).dirty ≡ false) }
    ensures full { (queues : List QueueId) (log_bytes bytes : ℕ) (r : Recovered D) →
        IsNewLog queues log_bytes r →
        nat_le (wal_of r).log_bytes bytes ≡ nat_le log_bytes bytes }
    ensures size { (queues : List QueueId) (log_bytes : ℕ) (r : Recovered D) →
        IsSound D.facts (wal_of r) → IsNewLog queues log_bytes r →
        (wal_of r).size ≡ 38 + 78 * length (carries_in (wal_of r).marks) }
{
    encodings_have_lengths();
}
