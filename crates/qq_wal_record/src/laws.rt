//! Laws of records and headers, on which the chain of log files stands.
ghost use Rattle.std.specs.Prelude.{◌≡◌, ◌++◌, ◌+◌, List, ℕ, length, Ok};
ghost use Rattle.qq_base.specs.Fields.{AreBytes};
ghost use Rattle.qq_wal_record.specs.declared.header.Header.{Header};
ghost use Rattle.qq_wal_record.specs.declared.record.LogRecord.{LogRecord};
ghost use Rattle.qq_wal_record.specs.Encoding.{record_encoding, header_encoding};
ghost use Rattle.qq_wal_record.specs.Reading.{record_at, header_at, IsRecordAt, IsHeader, IsHeaderAt};
ghost use Rattle.qq_wal_record.specs.Record.{payload_length, IsWritable};

/// A law: a record's encoding is read again whatever follows it, and what is read has that encoding and
/// no other.
pub fn records_read_back()
    ensures again { (file : ℕ) (r : LogRecord) (rest : List ℕ) → IsWritable r →
        record_at file (record_encoding file r ++ rest) ≡ Ok (r, length (record_encoding file r)) }
    ensures alone { (file : ℕ) (bytes : List ℕ) (x : LogRecord × ℕ) → AreBytes bytes →
        record_at file bytes ≡ Ok x → IsRecordAt file bytes x }
{}

/// A law: no record's encoding begins another's, so what was written is read again whatever follows it.
pub fn no_record_begins_another()
    ensures { (file : ℕ) (a b : LogRecord) (x y : List ℕ) → IsWritable a → IsWritable b →
        record_encoding file a ++ x ≡ record_encoding file b ++ y → (a ≡ b) × (x ≡ y) }
{}

/// A law: how long encodings are. A record's has 25 bytes beside its payload.
pub fn encodings_have_lengths()
    ensures records { (file : ℕ) (r : LogRecord) →
        length (record_encoding file r) ≡ 25 + payload_length r }
    ensures headers { (h : Header) → length (header_encoding h) ≡ 38 }
{}

/// A law: a header's encoding is read again whatever follows it, and what is read has that encoding and
/// no other.
pub fn headers_read_back()
    ensures again { (h : Header) (rest : List ℕ) → IsHeader h →
        header_at (header_encoding h ++ rest) ≡ Ok h }
    ensures alone { (bytes : List ℕ) (h : Header) → AreBytes bytes → header_at bytes ≡ Ok h →
        IsHeaderAt bytes h }
{}
