//! Writing a message.
ghost use Rattle.std.specs.Prelude.{◌≡◌, ◌++◌, ◌<◌, ◌^◌, length, OnOk, OnErr, IfOk, IsOkUnless};
ghost use Rattle.qq_fields.specs.Writing.{u64};
ghost use Rattle.qq_base.specs.Fronts.{IsFront as IsPrefix};
ghost use Rattle.qq_command.specs.Encoding.{entries};
ghost use Rattle.qq_raft_msg.specs.Encoding.{way, shadow, fields, encoding};
ghost use Rattle.qq_raft_msg.specs.Rpc.{HasFields, IsWritable};
ghost use Rattle.qq_raft_msg.specs.declared.rpc.Rpc.TheVariants.{Vote, Append, Install};

use crate::envelope::Envelope;
use crate::rpc::{AppendMsg, InstallMsg, Rpc, VoteMsg};
use qq_base::{Memory, put_u8, put_u32, put_u64};
use qq_command::put_entries;
use qq_fields::{put_bytes, put_flag};
use std::alloc::Global;

#[tactic(auto, using(qq_fields::proofs::Appends::prefix_rules), unfolding(crate::specs::Encoding::way))]
fn put_envelope(out: &mut Vec<u8>, envelope: Envelope) -> Result<(), Memory>
    ensures ok { OnOk result (out.new.items ≡ out.old.items ++ way envelope) }
    ensures err { OnErr result (IsPrefix out.old.items out.new.items) }
    ensures want { IsOkUnless result Memory.Want }
{
    put_u8(out, envelope.from.0)?;
    put_u8(out, envelope.to.0)?;
    put_u64(out, envelope.term.0)
}

#[tactic(auto, using(qq_fields::proofs::Appends::prefix_rules), unfolding(crate::specs::Encoding::shadow))]
fn put_shadow(out: &mut Vec<u8>, bytes: &[u8]) -> Result<(), Memory>
    requires { length bytes.now < 2 ^ 32 }
    ensures ok { OnOk result (out.new.items ≡ out.old.items ++ shadow bytes.now) }
    ensures err { OnErr result (IsPrefix out.old.items out.new.items) }
    ensures want { IsOkUnless result Memory.Want }
{
    put_u32(out, bytes.len() as u32)?;
    put_bytes(out, bytes)
}

#[tactic(auto, using(qq_fields::proofs::Appends::prefix_rules))]
fn put_numbers(out: &mut Vec<u8>, first: u64, second: u64, third: u64) -> Result<(), Memory>
    ensures ok { OnOk result (out.new.items
        ≡ out.old.items ++ (u64 first ++ u64 second ++ u64 third)) }
    ensures err { OnErr result (IsPrefix out.old.items out.new.items) }
    ensures want { IsOkUnless result Memory.Want }
{
    put_u64(out, first)?;
    put_u64(out, second)?;
    put_u64(out, third)
}

#[tactic(auto, using(qq_fields::proofs::Appends::prefix_rules), unfolding(crate::specs::Encoding::fields))]
fn put_vote(out: &mut Vec<u8>, m: &VoteMsg) -> Result<(), Memory>
    ensures ok { OnOk result (out.new.items ≡ out.old.items ++ fields (Vote m.now)) }
    ensures err { OnErr result (IsPrefix out.old.items out.new.items) }
    ensures want { IsOkUnless result Memory.Want }
{
    put_u64(out, m.last_index.0)?;
    put_u64(out, m.last_term.0)
}

#[tactic(auto, using(qq_fields::proofs::Appends::prefix_rules), unfolding(crate::specs::Encoding::fields))]
fn put_append(out: &mut Vec<u8>, m: &AppendMsg) -> Result<(), Memory>
    requires { HasFields (Append m.now) }
    ensures ok { OnOk result (out.new.items ≡ out.old.items ++ fields (Append m.now)) }
    ensures err { OnErr result (IsPrefix out.old.items out.new.items) }
    ensures want { IsOkUnless result Memory.Want }
{
    put_numbers(out, m.prev_index.0, m.prev_term.0, m.commit.0)?;
    put_entries(out, m.entries.as_slice())
}

#[tactic(auto, using(qq_fields::proofs::Appends::prefix_rules), unfolding(crate::specs::Encoding::fields))]
fn put_install(out: &mut Vec<u8>, m: &InstallMsg) -> Result<(), Memory>
    requires { HasFields (Install m.now) }
    ensures ok { OnOk result (out.new.items ≡ out.old.items ++ fields (Install m.now)) }
    ensures err { OnErr result (IsPrefix out.old.items out.new.items) }
    ensures want { IsOkUnless result Memory.Want }
{
    put_numbers(out, m.index.0, m.last_term.0, m.through.0)?;
    put_shadow(out, m.shadow.as_slice())
}

#[tactic(auto, using(qq_fields::proofs::Appends::prefix_rules), unfolding(crate::specs::Encoding::fields))]
fn put_fields(out: &mut Vec<u8>, rpc: &Rpc) -> Result<(), Memory>
    requires { HasFields rpc.now }
    ensures ok { OnOk result (out.new.items ≡ out.old.items ++ fields rpc.now) }
    ensures err { OnErr result (IsPrefix out.old.items out.new.items) }
    ensures want { IsOkUnless result Memory.Want }
{
    match rpc {
        Rpc::Vote(m) => put_vote(out, m),
        Rpc::Voted(m) => put_flag(out, m.granted),
        Rpc::Append(m) => put_append(out, m),
        Rpc::Appended(m) => {
            put_flag(out, m.ok)?;
            put_u64(out, m.index.0)
        }
        Rpc::Install(m) => put_install(out, m),
        Rpc::Installed(m) => put_u64(out, m.index.0),
    }
}

#[tactic(auto, using(qq_fields::proofs::Appends::prefix_rules), unfolding(crate::specs::Encoding::encoding))]
fn put_rpc(out: &mut Vec<u8>, rpc: &Rpc) -> Result<(), Memory>
    requires { IsWritable rpc.now }
    ensures ok { OnOk result (out.new.items ≡ out.old.items ++ encoding rpc.now) }
    ensures err { OnErr result (IsPrefix out.old.items out.new.items) }
    ensures want { IsOkUnless result Memory.Want }
{
    put_u8(out, rpc.kind())?;
    put_envelope(out, rpc.envelope())?;
    put_fields(out, rpc)
}

/// A message's bytes. The only error is `Memory::Want`, out of memory.
pub fn encode(alloc: Global, rpc: &Rpc) -> Result<Vec<u8>, Memory>
    requires { IsWritable rpc.now }
    ensures ok { IfOk result (λ v. v.items ≡ encoding rpc.now) }
    ensures want { IsOkUnless result Memory.Want }
{
    let mut out = Vec::new(alloc);
    put_rpc(&mut out, rpc)?;
    Ok(out)
}
