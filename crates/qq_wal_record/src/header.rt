ghost use Rattle.std.specs.Prelude.{◌≡◌, ◌++◌, ◌+◌, ◌≤◌, length, OnOk, OnErr, IsOkUnless};
ghost use Rattle.qq_base.specs.Fronts.{IsFront as IsPrefix};
ghost use Rattle.qq_wal_record.specs.Encoding.{header_body, header_encoding};
ghost use Rattle.qq_wal_record.specs.Reading.{long_at, header_at};

use crate::mark::{MARK_LEN, mark};
use qq_base::{Memory, put_u8, put_u64};
use thiserror::Error;

/// The bytes of a header.
pub const HEADER_LEN: usize = 38;

/// The bytes of a header before its mark.
const BODY_LEN: usize = 30;

/// What a log file begins with.
const MAGIC: [u8; 5] = *b"QQLOG";

/// The version of the format.
pub const VERSION: u8 = 1;

/// What a log file begins with.
#[derive(Clone, Copy, Debug, PartialEq, Eq)]
pub struct Header {
    /// The file's number.
    pub file: u64,
    /// The number of the file before it, 0 for none.
    pub previous: u64,
    /// How many bytes of that file count.
    pub good: u64,
}

/// Why no header stands at the front of bytes. The first that applies is answered.
#[derive(Clone, Copy, Debug, PartialEq, Eq, Error)]
pub enum NoHeader {
    /// There are fewer bytes than a header has.
    #[error("the bytes end too early")]
    Short,
    /// They don't begin as a log file does.
    #[error("this is no log file")]
    Magic,
    /// The mark isn't that of the bytes before it.
    #[error("the mark is another")]
    Mark,
    /// The format has another version.
    #[error("version {byte}")]
    Version {
        /// The version.
        byte: u8,
    },
}

#[tactic(auto, using(qq_fields::proofs::Appends::prefix_rules), unfolding(crate::specs::Encoding::header_body))]
fn put_body(out: &mut Vec<u8>, header: &Header) -> Result<(), Memory>
    ensures ok { OnOk result (out.new.items ≡ out.old.items ++ header_body header.now) }
    ensures err { OnErr result (IsPrefix out.old.items out.new.items) }
    ensures want { IsOkUnless result Memory.Want }
{
    out.extend_from_slice(&MAGIC)?;
    put_u8(out, VERSION)?;
    put_u64(out, header.file)?;
    put_u64(out, header.previous)?;
    put_u64(out, header.good)?;
    Ok(())
}

#[tactic(auto, using(qq_fields::proofs::Appends::prefix_rules), unfolding(crate::specs::Encoding::header_encoding))]
fn put_header(out: &mut Vec<u8>, header: &Header) -> Result<(), Memory>
    ensures ok { OnOk result (out.new.items ≡ out.old.items ++ header_encoding header.now) }
    ensures err { OnErr result (IsPrefix out.old.items out.new.items) }
    ensures want { IsOkUnless result Memory.Want }
{
    let place = out.len();
    put_body(out, header)?;
    let mark = mark(out.as_slice().split_at(place).1);
    out.extend_from_slice(&mark)?;
    Ok(())
}

/// Adds a header's encoding at the end of `out`. Out of memory, `out` is as before.
pub fn write_header(header: &Header, out: &mut Vec<u8>) -> Result<(), Memory>
    ensures ok { OnOk result (out.new.items ≡ out.old.items ++ header_encoding header.now) }
    ensures err { OnErr result (out.new.items ≡ out.old.items) }
    ensures want { IsOkUnless result Memory.Want }
{
    let len = out.len();
    let result = put_header(out, header);
    if result.is_err() {
        out.truncate(len);
    }
    result
}

fn long_at(bytes: &[u8], place: usize) -> u64
    requires { place + 8 ≤ length bytes.now }
    ensures { result ≡ long_at place bytes.now }
{
    let bytes = bytes.split_at(place).1;
    u64::from_be_bytes([
        bytes[0], bytes[1], bytes[2], bytes[3], bytes[4], bytes[5], bytes[6], bytes[7],
    ])
}

/// The header at the front of the bytes. What follows it isn't looked at.
///
/// `Short` is for fewer bytes than a header has, then `Magic` for other first bytes than a log file's, then
/// `Mark` for a mark that isn't that of the bytes before it, then `Version` for another version.
#[tactic(auto, unfolding(crate::specs::Reading::header_at))]
pub fn read_header(bytes: &[u8]) -> Result<Header, NoHeader>
    ensures exact { result ≡ header_at bytes.now }
{
    if bytes.len() < HEADER_LEN {
        return Err(NoHeader::Short);
    }
    if bytes.split_at(MAGIC.len()).0 != MAGIC.as_slice() {
        return Err(NoHeader::Magic);
    }
    let (body, rest) = bytes.split_at(BODY_LEN);
    if mark(body).as_slice() != rest.split_at(MARK_LEN).0 {
        return Err(NoHeader::Mark);
    }
    let version = bytes[MAGIC.len()];
    if version != VERSION {
        return Err(NoHeader::Version { byte: version });
    }
    Ok(Header {
        file: long_at(bytes, 6),
        previous: long_at(bytes, 14),
        good: long_at(bytes, 22),
    })
}
