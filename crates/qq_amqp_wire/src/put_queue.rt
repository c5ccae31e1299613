//! Putting the methods of classes channel, queue and confirm at the end of bytes.
ghost use Rattle.std.specs.Prelude.{◌≡◌, ◌++◌, OnOk, OnErr, IsOkUnless};
ghost use Rattle.qq_base.specs.Fronts.{IsFront as IsPrefix};
ghost use Rattle.qq_amqp_wire.specs.Writing.{HasLengths, method_bytes};
ghost use Rattle.qq_amqp_wire.specs.declared.method.Method.TheVariants.{ChannelOpen, ChannelOpenOk, ChannelClose, ChannelCloseOk, QueueDeclare, QueueDeclareOk, QueuePurge, QueuePurgeOk, ConfirmSelect, ConfirmSelectOk};

use crate::put::{five_bits, one_bit, put_long_str, put_numbers, put_short_str};
use qq_base::{Bytes, Memory, Text, put_u8, put_u16, put_u32};

#[tactic(auto, using(qq_fields::proofs::Appends::prefix_rules), unfolding(crate::specs::Writing::method_bytes, crate::specs::Arguments::short_str))]
pub fn put_channel_open(out: &mut Vec<u8>) -> Result<(), Memory>
    ensures ok { OnOk result (out.new.items ≡ out.old.items ++ method_bytes ChannelOpen) }
    ensures err { OnErr result (IsPrefix out.old.items out.new.items) }
    ensures want { IsOkUnless result Memory.Want }
{
    put_numbers(out, 20, 10)?;
    put_u8(out, 0)
}

#[tactic(auto, using(qq_fields::proofs::Appends::prefix_rules), unfolding(crate::specs::Writing::method_bytes, crate::specs::Arguments::long_str))]
pub fn put_channel_open_ok(out: &mut Vec<u8>) -> Result<(), Memory>
    ensures ok { OnOk result (out.new.items ≡ out.old.items ++ method_bytes ChannelOpenOk) }
    ensures err { OnErr result (IsPrefix out.old.items out.new.items) }
    ensures want { IsOkUnless result Memory.Want }
{
    put_numbers(out, 20, 11)?;
    put_u32(out, 0)
}

#[tactic(auto, using(qq_fields::proofs::Appends::prefix_rules), unfolding(crate::specs::Writing::method_bytes))]
pub fn put_channel_close(
    out: &mut Vec<u8>,
    code: u16,
    text: &Text,
    class: u16,
    method: u16,
) -> Result<(), Memory>
    requires { HasLengths (ChannelClose code text.now class method) }
    ensures ok { OnOk result (out.new.items ≡ out.old.items
        ++ method_bytes (ChannelClose code text.now class method)) }
    ensures err { OnErr result (IsPrefix out.old.items out.new.items) }
    ensures want { IsOkUnless result Memory.Want }
{
    put_numbers(out, 20, 40)?;
    put_u16(out, code)?;
    put_short_str(out, text)?;
    put_u16(out, class)?;
    put_u16(out, method)
}

#[tactic(auto, using(qq_fields::proofs::Appends::prefix_rules), unfolding(crate::specs::Writing::method_bytes))]
pub fn put_channel_close_ok(out: &mut Vec<u8>) -> Result<(), Memory>
    ensures ok { OnOk result (out.new.items ≡ out.old.items ++ method_bytes ChannelCloseOk) }
    ensures err { OnErr result (IsPrefix out.old.items out.new.items) }
    ensures want { IsOkUnless result Memory.Want }
{
    put_numbers(out, 20, 41)
}

#[tactic(auto, using(qq_fields::proofs::Appends::prefix_rules), unfolding(crate::specs::Writing::method_bytes))]
pub fn put_queue_declare(
    out: &mut Vec<u8>,
    queue: &Text,
    passive: bool,
    durable: bool,
    exclusive: bool,
    auto_delete: bool,
    no_wait: bool,
    arguments: &Bytes,
) -> Result<(), Memory>
    requires { HasLengths (QueueDeclare queue.now passive durable exclusive
        auto_delete no_wait arguments.now) }
    ensures ok { OnOk result (out.new.items ≡ out.old.items
        ++ method_bytes (QueueDeclare queue.now passive durable exclusive
        auto_delete no_wait arguments.now)) }
    ensures err { OnErr result (IsPrefix out.old.items out.new.items) }
    ensures want { IsOkUnless result Memory.Want }
{
    put_numbers(out, 50, 10)?;
    put_u16(out, 0)?;
    put_short_str(out, queue)?;
    put_u8(
        out,
        five_bits(passive, durable, exclusive, auto_delete, no_wait),
    )?;
    put_long_str(out, arguments)
}

#[tactic(auto, using(qq_fields::proofs::Appends::prefix_rules), unfolding(crate::specs::Writing::method_bytes))]
pub fn put_queue_declare_ok(
    out: &mut Vec<u8>,
    queue: &Text,
    messages: u32,
    consumers: u32,
) -> Result<(), Memory>
    requires { HasLengths (QueueDeclareOk queue.now messages consumers) }
    ensures ok { OnOk result (out.new.items ≡ out.old.items
        ++ method_bytes (QueueDeclareOk queue.now messages consumers)) }
    ensures err { OnErr result (IsPrefix out.old.items out.new.items) }
    ensures want { IsOkUnless result Memory.Want }
{
    put_numbers(out, 50, 11)?;
    put_short_str(out, queue)?;
    put_u32(out, messages)?;
    put_u32(out, consumers)
}

#[tactic(auto, using(qq_fields::proofs::Appends::prefix_rules), unfolding(crate::specs::Writing::method_bytes))]
pub fn put_queue_purge(out: &mut Vec<u8>, queue: &Text, no_wait: bool) -> Result<(), Memory>
    requires { HasLengths (QueuePurge queue.now no_wait) }
    ensures ok { OnOk result (out.new.items ≡ out.old.items
        ++ method_bytes (QueuePurge queue.now no_wait)) }
    ensures err { OnErr result (IsPrefix out.old.items out.new.items) }
    ensures want { IsOkUnless result Memory.Want }
{
    put_numbers(out, 50, 30)?;
    put_u16(out, 0)?;
    put_short_str(out, queue)?;
    put_u8(out, one_bit(no_wait))
}

#[tactic(auto, using(qq_fields::proofs::Appends::prefix_rules), unfolding(crate::specs::Writing::method_bytes))]
pub fn put_queue_purge_ok(out: &mut Vec<u8>, messages: u32) -> Result<(), Memory>
    ensures ok { OnOk result (out.new.items ≡ out.old.items
        ++ method_bytes (QueuePurgeOk messages)) }
    ensures err { OnErr result (IsPrefix out.old.items out.new.items) }
    ensures want { IsOkUnless result Memory.Want }
{
    put_numbers(out, 50, 31)?;
    put_u32(out, messages)
}

#[tactic(auto, using(qq_fields::proofs::Appends::prefix_rules), unfolding(crate::specs::Writing::method_bytes))]
pub fn put_confirm_select(out: &mut Vec<u8>, no_wait: bool) -> Result<(), Memory>
    ensures ok { OnOk result (out.new.items ≡ out.old.items
        ++ method_bytes (ConfirmSelect no_wait)) }
    ensures err { OnErr result (IsPrefix out.old.items out.new.items) }
    ensures want { IsOkUnless result Memory.Want }
{
    put_numbers(out, 85, 10)?;
    put_u8(out, one_bit(no_wait))
}

#[tactic(auto, using(qq_fields::proofs::Appends::prefix_rules), unfolding(crate::specs::Writing::method_bytes))]
pub fn put_confirm_select_ok(out: &mut Vec<u8>) -> Result<(), Memory>
    ensures ok { OnOk result (out.new.items ≡ out.old.items ++ method_bytes ConfirmSelectOk) }
    ensures err { OnErr result (IsPrefix out.old.items out.new.items) }
    ensures want { IsOkUnless result Memory.Want }
{
    put_numbers(out, 85, 11)
}
