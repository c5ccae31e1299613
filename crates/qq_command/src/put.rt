//! Putting the fields of a command at the end of bytes.
ghost use Rattle.std.specs.Prelude.{◌≡◌, ◌++◌, ◌≤◌, length, OnOk, OnErr, IsOkUnless, IfSome};
ghost use Rattle.qq_entry.specs.Range.{IsContent};
ghost use Rattle.qq_base.specs.Fronts.{IsFront as IsPrefix};
ghost use Rattle.qq_command.specs.Encoding.{session, stamp, origin, body, key, content, mode, consumer};

use crate::lengths::{CONTENT_LEN, DEATH_LEN};
use crate::lists::put_deaths;
use qq_base::{Memory, SessionId, put_u8, put_u16, put_u32, put_u64};
use qq_entry::{BODY_LIMIT, Content, KEY_LIMIT, Mode, Origin, Shared, Stamp};
use qq_fields::{put_bytes, put_flag};

#[tactic(auto, using(qq_fields::proofs::Appends::prefix_rules), unfolding(crate::specs::Encoding::session))]
pub fn put_session(out: &mut Vec<u8>, value: &SessionId) -> Result<(), Memory>
    ensures ok { OnOk result (out.new.items ≡ out.old.items ++ session value.now) }
    ensures err { OnErr result (IsPrefix out.old.items out.new.items) }
    ensures want { IsOkUnless result Memory.Want }
{
    put_u8(out, value.class)?;
    put_u32(out, value.owner)?;
    put_u64(out, value.number)
}

#[tactic(auto, using(qq_fields::proofs::Appends::prefix_rules), unfolding(crate::specs::Encoding::stamp))]
pub fn put_stamp(out: &mut Vec<u8>, value: &Stamp) -> Result<(), Memory>
    ensures ok { OnOk result (out.new.items ≡ out.old.items ++ stamp value.now) }
    ensures err { OnErr result (IsPrefix out.old.items out.new.items) }
    ensures want { IsOkUnless result Memory.Want }
{
    put_session(out, &value.session)?;
    put_u64(out, value.seq)?;
    put_u64(out, value.done)
}

#[tactic(auto, using(qq_fields::proofs::Appends::prefix_rules), unfolding(crate::specs::Encoding::origin))]
pub fn put_origin(out: &mut Vec<u8>, value: Option<Origin>) -> Result<(), Memory>
    ensures ok { OnOk result (out.new.items ≡ out.old.items ++ origin value) }
    ensures err { OnErr result (IsPrefix out.old.items out.new.items) }
    ensures want { IsOkUnless result Memory.Want }
{
    match value {
        None => put_flag(out, false),
        Some(origin) => {
            put_flag(out, true)?;
            put_u32(out, origin.source.0)?;
            put_u64(out, origin.number)
        }
    }
}

/// A stamp, and the tag of a consumer of its session.
#[tactic(auto, using(qq_fields::proofs::Appends::prefix_rules), unfolding(crate::specs::Encoding::consumer))]
pub fn put_consumer(out: &mut Vec<u8>, value: &Stamp, tag: u32) -> Result<(), Memory>
    ensures ok { OnOk result (out.new.items ≡ out.old.items ++ consumer value.now tag) }
    ensures err { OnErr result (IsPrefix out.old.items out.new.items) }
    ensures want { IsOkUnless result Memory.Want }
{
    put_stamp(out, value)?;
    put_u32(out, tag)
}

#[tactic(auto, using(qq_fields::proofs::Appends::prefix_rules), unfolding(crate::specs::Encoding::body))]
fn put_body(out: &mut Vec<u8>, bytes: &[u8]) -> Result<(), Memory>
    requires { length bytes.now ≤ BODY_LIMIT }
    ensures ok { OnOk result (out.new.items ≡ out.old.items ++ body bytes.now) }
    ensures err { OnErr result (IsPrefix out.old.items out.new.items) }
    ensures want { IsOkUnless result Memory.Want }
{
    put_u32(out, bytes.len() as u32)?;
    put_bytes(out, bytes)
}

#[tactic(auto, using(qq_fields::proofs::Appends::prefix_rules), unfolding(crate::specs::Encoding::key))]
fn put_key(out: &mut Vec<u8>, bytes: &[u8]) -> Result<(), Memory>
    requires { length bytes.now ≤ KEY_LIMIT }
    ensures ok { OnOk result (out.new.items ≡ out.old.items ++ key bytes.now) }
    ensures err { OnErr result (IsPrefix out.old.items out.new.items) }
    ensures want { IsOkUnless result Memory.Want }
{
    put_u8(out, bytes.len() as u8)?;
    put_bytes(out, bytes)
}

/// A content. One that was taken out has no bytes.
#[tactic(auto, using(qq_fields::proofs::Appends::prefix_rules), unfolding(crate::specs::Encoding::content))]
pub fn put_content(out: &mut Vec<u8>, value: &Option<Shared<Content>>) -> Result<(), Memory>
    requires { IfSome value.now IsContent }
    ensures ok { OnOk result (out.new.items ≡ out.old.items ++ content value.now) }
    ensures err { OnErr result (IsPrefix out.old.items out.new.items) }
    ensures want { IsOkUnless result Memory.Want }
{
    match value {
        None => Ok(()),
        Some(shared) => {
            let value = shared.get();
            let deaths_len = DEATH_LEN * value.deaths.len();
            out.reserve(CONTENT_LEN + value.body.len() + value.key.len() + deaths_len)?;
            put_body(out, value.body.as_slice())?;
            put_key(out, value.key.as_bytes())?;
            put_deaths(out, value.deaths.as_slice())
        }
    }
}

#[tactic(auto, using(qq_fields::proofs::Appends::prefix_rules), unfolding(crate::specs::Encoding::mode))]
pub fn put_mode(out: &mut Vec<u8>, value: Mode) -> Result<(), Memory>
    ensures ok { OnOk result (out.new.items ≡ out.old.items ++ mode value) }
    ensures err { OnErr result (IsPrefix out.old.items out.new.items) }
    ensures want { IsOkUnless result Memory.Want }
{
    match value {
        Mode::Prefetch(count) => {
            put_flag(out, false)?;
            put_u16(out, count)
        }
        Mode::Link => {
            put_flag(out, true)?;
            put_u16(out, 0)
        }
    }
}
