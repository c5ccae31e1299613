//! Laws of what stands in bytes and in segments: the functions do nothing, and their contracts are the laws.
ghost use Rattle.std.specs.Prelude.{◌≡◌, ◌≤◌, ◌<◌, ◌++◌, ◌^◌, ℕ, List, drop, length};
ghost use Rattle.qq_log.specs.declared.head.Span.{Span};
ghost use Rattle.qq_log.specs.Stable.{Stable, IsOfLog, last_index};
ghost use Rattle.qq_wal_record.specs.declared.header.Header.{Header};
ghost use Rattle.qq_wal_record.specs.declared.record.LogRecord.{LogRecord};
ghost use Rattle.qq_wal_record.specs.Encoding.{header_encoding, record_encoding};
ghost use Rattle.qq_wal_record.specs.Reading.{IsHeaderAt, IsRecordAt};
ghost use Rattle.qq_wal_record.specs.Record.{IsWritable};

/// What is read of bytes stands at their front.
///
/// - `header`: a header's encoding, of 38 bytes, and then all the others.
/// - `numbers`: its numbers have eight bytes each.
/// - `record`: a record's encoding, which takes as many bytes as are told, and then all the others. It may be
///   written.
pub fn what_is_read_stands_there()
    ensures header { (bytes : List ℕ) (h : Header) → IsHeaderAt bytes h →
        bytes ≡ header_encoding h ++ drop 38 bytes }
    ensures numbers { (bytes : List ℕ) (h : Header) → IsHeaderAt bytes h →
        (h.file < 2 ^ 64) × (h.previous < 2 ^ 64) × (h.good < 2 ^ 64) }
    ensures record { (file : ℕ) (bytes : List ℕ) (x : LogRecord × ℕ) → IsRecordAt file bytes x →
        (bytes ≡ record_encoding file x.0 ++ drop x.1 bytes)
        × (x.1 ≡ length (record_encoding file x.0)) × IsWritable x.0 }
{}

/// A segment that a queue's state names has an entry of its log: its last one is above the log's base and not
/// behind its end, and none comes before the first.
pub fn a_segment_has_an_entry_of_its_log()
    ensures { (state : Stable) (segment : Span) → IsOfLog state segment →
        (state.base.index.0 < segment.last.0) × (segment.first.0 ≤ segment.last.0)
        × (segment.last.0 ≤ last_index state) }
{}
