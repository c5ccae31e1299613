//! Writing an entry.
ghost use Rattle.std.specs.Prelude.{◌≡◌, ◌++◌, ◌+◌, length, OnOk, OnErr, IfOk, IfSome, IsOkUnless};
ghost use Rattle.qq_entry.specs.Range.{IsContent, AreIds, AreDeadDones, IsCommand, IsWritable};
ghost use Rattle.qq_base.specs.Fronts.{IsFront as IsPrefix};
ghost use Rattle.qq_fields.specs.Writing.{u32, u64, flag};
ghost use Rattle.qq_command.specs.Encoding.{kind, stamp, origin, content, mode, ids, dead_dones, consumer, fields, payload, encoding};

use crate::kinds;
use crate::lists::{put_dead_dones, put_ids};
use crate::put::{put_consumer, put_content, put_mode, put_origin, put_session, put_stamp};
use qq_base::{Memory, Term, put_u8, put_u32, put_u64};
use qq_entry::{Command, DeadDone, Entry, Message, Mode, Origin, Stamp};
use qq_fields::{put_flag, set_length};
use std::alloc::Global;

fn kind(command: &Command) -> u8
    ensures { result ≡ kind command.now }
{
    match command {
        Command::Noop { .. } => kinds::NOOP,
        Command::Enqueue { .. } => kinds::ENQUEUE,
        Command::Get { .. } => kinds::GET,
        Command::Subscribe { .. } => kinds::SUBSCRIBE,
        Command::Cancel { .. } => kinds::CANCEL,
        Command::Credit { .. } => kinds::CREDIT,
        Command::Settle { .. } => kinds::SETTLE,
        Command::Return { .. } => kinds::RETURN,
        Command::Discard { .. } => kinds::DISCARD,
        Command::Purge { .. } => kinds::PURGE,
        Command::Down { .. } => kinds::DOWN,
        Command::DeadAttach { .. } => kinds::DEAD_ATTACH,
        Command::DeadSettle { .. } => kinds::DEAD_SETTLE,
    }
}

#[tactic(auto, using(qq_fields::proofs::Appends::prefix_rules))]
fn put_enqueue(
    out: &mut Vec<u8>,
    by: &Stamp,
    from: Option<Origin>,
    message: &Message,
) -> Result<(), Memory>
    requires { IfSome message.now.content IsContent }
    ensures ok { OnOk result (out.new.items
        ≡ out.old.items ++ (stamp by.now ++ origin from ++ content message.now.content)) }
    ensures err { OnErr result (IsPrefix out.old.items out.new.items) }
    ensures want { IsOkUnless result Memory.Want }
{
    put_stamp(out, by)?;
    put_origin(out, from)?;
    put_content(out, &message.content)
}

#[tactic(auto, using(qq_fields::proofs::Appends::prefix_rules))]
fn put_subscribe(out: &mut Vec<u8>, stamp: &Stamp, tag: u32, by: Mode) -> Result<(), Memory>
    ensures ok { OnOk result (out.new.items
        ≡ out.old.items ++ (consumer stamp.now tag ++ mode by)) }
    ensures err { OnErr result (IsPrefix out.old.items out.new.items) }
    ensures want { IsOkUnless result Memory.Want }
{
    put_consumer(out, stamp, tag)?;
    put_mode(out, by)
}

#[tactic(auto, using(qq_fields::proofs::Appends::prefix_rules))]
fn put_credit(
    out: &mut Vec<u8>,
    stamp: &Stamp,
    tag: u32,
    count: u32,
    credit: u32,
    drain: bool,
) -> Result<(), Memory>
    ensures ok { OnOk result (out.new.items
        ≡ out.old.items ++ (consumer stamp.now tag ++ u32 count ++ u32 credit ++ flag drain)) }
    ensures err { OnErr result (IsPrefix out.old.items out.new.items) }
    ensures want { IsOkUnless result Memory.Want }
{
    put_consumer(out, stamp, tag)?;
    put_u32(out, count)?;
    put_u32(out, credit)?;
    put_flag(out, drain)
}

/// A stamp, a tag, and ids of deliveries.
#[tactic(auto, using(qq_fields::proofs::Appends::prefix_rules))]
fn put_verdict(out: &mut Vec<u8>, stamp: &Stamp, tag: u32, list: &[u64]) -> Result<(), Memory>
    requires { AreIds list.now }
    ensures ok { OnOk result (out.new.items
        ≡ out.old.items ++ (consumer stamp.now tag ++ ids list.now)) }
    ensures err { OnErr result (IsPrefix out.old.items out.new.items) }
    ensures want { IsOkUnless result Memory.Want }
{
    put_consumer(out, stamp, tag)?;
    put_ids(out, list)
}

#[tactic(auto, using(qq_fields::proofs::Appends::prefix_rules))]
fn put_dead_settle(out: &mut Vec<u8>, term: Term, done: &[DeadDone]) -> Result<(), Memory>
    requires { AreDeadDones done.now }
    ensures ok { OnOk result (out.new.items
        ≡ out.old.items ++ (u64 term.0 ++ dead_dones done.now)) }
    ensures err { OnErr result (IsPrefix out.old.items out.new.items) }
    ensures want { IsOkUnless result Memory.Want }
{
    put_u64(out, term.0)?;
    put_dead_dones(out, done)
}

#[tactic(auto, using(qq_fields::proofs::Appends::prefix_rules), unfolding(crate::specs::Encoding::fields))]
fn put_fields(out: &mut Vec<u8>, command: &Command) -> Result<(), Memory>
    requires { IsCommand command.now }
    ensures ok { OnOk result (out.new.items ≡ out.old.items ++ fields command.now) }
    ensures err { OnErr result (IsPrefix out.old.items out.new.items) }
    ensures want { IsOkUnless result Memory.Want }
{
    match command {
        Command::Noop { version } => put_u8(out, *version),
        Command::Enqueue {
            stamp,
            origin,
            message,
        } => put_enqueue(out, stamp, *origin, message),
        Command::Get { stamp } | Command::Purge { stamp } => put_stamp(out, stamp),
        Command::Subscribe { stamp, tag, mode } => put_subscribe(out, stamp, *tag, *mode),
        Command::Cancel { stamp, tag } => put_consumer(out, stamp, *tag),
        Command::Credit {
            stamp,
            tag,
            count,
            credit,
            drain,
        } => put_credit(out, stamp, *tag, *count, *credit, *drain),
        Command::Settle { stamp, tag, ids }
        | Command::Return { stamp, tag, ids }
        | Command::Discard { stamp, tag, ids } => put_verdict(out, stamp, *tag, ids.as_slice()),
        Command::Down { session } => put_session(out, session),
        Command::DeadAttach { term } => put_u64(out, term.0),
        Command::DeadSettle { term, done } => put_dead_settle(out, *term, done.as_slice()),
    }
}

/// What the length counts.
#[tactic(auto, using(qq_fields::proofs::Appends::prefix_rules), unfolding(crate::specs::Encoding::payload))]
fn put_payload(out: &mut Vec<u8>, entry: &Entry) -> Result<(), Memory>
    requires { IsCommand entry.now.command }
    ensures ok { OnOk result (out.new.items ≡ out.old.items ++ payload entry.now) }
    ensures err { OnErr result (IsPrefix out.old.items out.new.items) }
    ensures want { IsOkUnless result Memory.Want }
{
    put_u64(out, entry.time)?;
    put_u8(out, kind(entry.command.get()))?;
    put_fields(out, entry.command.get())
}

#[tactic(auto, using(qq_fields::proofs::Appends::prefix_rules), unfolding(crate::specs::Encoding::encoding))]
fn put_encoding(out: &mut Vec<u8>, entry: &Entry) -> Result<(), Memory>
    requires { IsWritable entry.now }
    ensures ok { OnOk result (out.new.items ≡ out.old.items ++ encoding entry.now) }
    ensures err { OnErr result (IsPrefix out.old.items out.new.items) }
    ensures want { IsOkUnless result Memory.Want }
{
    put_u64(out, entry.term.0)?;
    let place = out.len();
    put_u32(out, 0)?;
    let start = out.len();
    put_payload(out, entry)?;
    let length = (out.len() - start) as u32;
    set_length(out, place, length);
    Ok(())
}

/// Puts an entry's bytes at the end of others. Out of memory, `out` stays.
pub fn put_entry(out: &mut Vec<u8>, entry: &Entry) -> Result<(), Memory>
    requires { IsWritable entry.now }
    ensures ok { OnOk result (out.new.items ≡ out.old.items ++ encoding entry.now) }
    ensures err { OnErr result (out.new.items ≡ out.old.items) }
    ensures want { IsOkUnless result Memory.Want }
{
    let len = out.len();
    let result = put_encoding(out, entry);
    if result.is_err() {
        out.truncate(len);
    }
    result
}

/// An entry's bytes. The only error is `Memory::Want`, out of memory.
pub fn encode(alloc: Global, entry: &Entry) -> Result<Vec<u8>, Memory>
    requires { IsWritable entry.now }
    ensures ok { IfOk result (λ v. v.items ≡ encoding entry.now) }
    ensures want { IsOkUnless result Memory.Want }
{
    let mut out = Vec::new(alloc);
    put_entry(&mut out, entry)?;
    Ok(out)
}
