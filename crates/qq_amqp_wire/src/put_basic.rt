//! Putting the methods of class basic at the end of bytes.
ghost use Rattle.std.specs.Prelude.{◌≡◌, ◌++◌, ◌<◌, ◌^◌, length, OnOk, OnErr, IsOkUnless};
ghost use Rattle.qq_base.specs.Fronts.{IsFront as IsPrefix};
ghost use Rattle.qq_fields.specs.Writing.{u8, u64};
ghost use Rattle.qq_amqp_wire.specs.Arguments.{short_str, byte_of};
ghost use Rattle.qq_amqp_wire.specs.Writing.{HasLengths, method_bytes};
ghost use Rattle.qq_amqp_wire.specs.declared.method.Method.TheVariants.{BasicQos, BasicQosOk, BasicConsume, BasicConsumeOk, BasicCancel, BasicCancelOk, BasicPublish, BasicDeliver, BasicGet, BasicGetOk, BasicGetEmpty, BasicAck, BasicReject, BasicNack};

use crate::put::{four_bits, one_bit, put_long_str, put_numbers, put_short_str, two_bits};
use qq_base::{Bytes, Memory, Text, put_u8, put_u16, put_u32, put_u64};

/// An exchange and a routing key.
#[tactic(auto, using(qq_fields::proofs::Appends::prefix_rules))]
fn put_route(out: &mut Vec<u8>, exchange: &Text, key: &Text) -> Result<(), Memory>
    requires exchange { length exchange.now < 2 ^ 8 }
    requires key { length key.now < 2 ^ 8 }
    ensures ok { OnOk result (out.new.items
        ≡ out.old.items ++ (short_str exchange.now ++ short_str key.now)) }
    ensures err { OnErr result (IsPrefix out.old.items out.new.items) }
    ensures want { IsOkUnless result Memory.Want }
{
    put_short_str(out, exchange)?;
    put_short_str(out, key)
}

#[tactic(auto, using(qq_fields::proofs::Appends::prefix_rules), unfolding(crate::specs::Writing::method_bytes))]
pub fn put_qos(out: &mut Vec<u8>, size: u32, count: u16, global: bool) -> Result<(), Memory>
    ensures ok { OnOk result (out.new.items ≡ out.old.items
        ++ method_bytes (BasicQos size count global)) }
    ensures err { OnErr result (IsPrefix out.old.items out.new.items) }
    ensures want { IsOkUnless result Memory.Want }
{
    put_numbers(out, 60, 10)?;
    put_u32(out, size)?;
    put_u16(out, count)?;
    put_u8(out, one_bit(global))
}

#[tactic(auto, using(qq_fields::proofs::Appends::prefix_rules), unfolding(crate::specs::Writing::method_bytes))]
pub fn put_qos_ok(out: &mut Vec<u8>) -> Result<(), Memory>
    ensures ok { OnOk result (out.new.items ≡ out.old.items ++ method_bytes BasicQosOk) }
    ensures err { OnErr result (IsPrefix out.old.items out.new.items) }
    ensures want { IsOkUnless result Memory.Want }
{
    put_numbers(out, 60, 11)
}

#[tactic(auto, using(qq_fields::proofs::Appends::prefix_rules), unfolding(crate::specs::Writing::method_bytes))]
pub fn put_consume(
    out: &mut Vec<u8>,
    queue: &Text,
    tag: &Text,
    no_local: bool,
    no_ack: bool,
    exclusive: bool,
    no_wait: bool,
    arguments: &Bytes,
) -> Result<(), Memory>
    requires { HasLengths (BasicConsume queue.now tag.now no_local no_ack
        exclusive no_wait arguments.now) }
    ensures ok { OnOk result (out.new.items ≡ out.old.items
        ++ method_bytes (BasicConsume queue.now tag.now no_local no_ack
        exclusive no_wait arguments.now)) }
    ensures err { OnErr result (IsPrefix out.old.items out.new.items) }
    ensures want { IsOkUnless result Memory.Want }
{
    put_numbers(out, 60, 20)?;
    put_u16(out, 0)?;
    put_short_str(out, queue)?;
    put_short_str(out, tag)?;
    put_u8(out, four_bits(no_local, no_ack, exclusive, no_wait))?;
    put_long_str(out, arguments)
}

#[tactic(auto, using(qq_fields::proofs::Appends::prefix_rules), unfolding(crate::specs::Writing::method_bytes))]
pub fn put_consume_ok(out: &mut Vec<u8>, tag: &Text) -> Result<(), Memory>
    requires { HasLengths (BasicConsumeOk tag.now) }
    ensures ok { OnOk result (out.new.items ≡ out.old.items
        ++ method_bytes (BasicConsumeOk tag.now)) }
    ensures err { OnErr result (IsPrefix out.old.items out.new.items) }
    ensures want { IsOkUnless result Memory.Want }
{
    put_numbers(out, 60, 21)?;
    put_short_str(out, tag)
}

#[tactic(auto, using(qq_fields::proofs::Appends::prefix_rules), unfolding(crate::specs::Writing::method_bytes))]
pub fn put_cancel(out: &mut Vec<u8>, tag: &Text, no_wait: bool) -> Result<(), Memory>
    requires { HasLengths (BasicCancel tag.now no_wait) }
    ensures ok { OnOk result (out.new.items ≡ out.old.items
        ++ method_bytes (BasicCancel tag.now no_wait)) }
    ensures err { OnErr result (IsPrefix out.old.items out.new.items) }
    ensures want { IsOkUnless result Memory.Want }
{
    put_numbers(out, 60, 30)?;
    put_short_str(out, tag)?;
    put_u8(out, one_bit(no_wait))
}

#[tactic(auto, using(qq_fields::proofs::Appends::prefix_rules), unfolding(crate::specs::Writing::method_bytes))]
pub fn put_cancel_ok(out: &mut Vec<u8>, tag: &Text) -> Result<(), Memory>
    requires { HasLengths (BasicCancelOk tag.now) }
    ensures ok { OnOk result (out.new.items ≡ out.old.items
        ++ method_bytes (BasicCancelOk tag.now)) }
    ensures err { OnErr result (IsPrefix out.old.items out.new.items) }
    ensures want { IsOkUnless result Memory.Want }
{
    put_numbers(out, 60, 31)?;
    put_short_str(out, tag)
}

#[tactic(auto, using(qq_fields::proofs::Appends::prefix_rules), unfolding(crate::specs::Writing::method_bytes))]
pub fn put_publish(
    out: &mut Vec<u8>,
    exchange: &Text,
    key: &Text,
    mandatory: bool,
    immediate: bool,
) -> Result<(), Memory>
    requires { HasLengths (BasicPublish exchange.now key.now mandatory immediate) }
    ensures ok { OnOk result (out.new.items ≡ out.old.items
        ++ method_bytes (BasicPublish exchange.now key.now mandatory immediate)) }
    ensures err { OnErr result (IsPrefix out.old.items out.new.items) }
    ensures want { IsOkUnless result Memory.Want }
{
    put_numbers(out, 60, 40)?;
    put_u16(out, 0)?;
    put_route(out, exchange, key)?;
    put_u8(out, two_bits(mandatory, immediate))
}

/// The number of a delivery, whether it was delivered before, and where it was published.
#[tactic(auto, using(qq_fields::proofs::Appends::prefix_rules))]
fn put_delivery(
    out: &mut Vec<u8>,
    tag: u64,
    redelivered: bool,
    exchange: &Text,
    key: &Text,
) -> Result<(), Memory>
    requires exchange { length exchange.now < 2 ^ 8 }
    requires key { length key.now < 2 ^ 8 }
    ensures ok { OnOk result (out.new.items ≡ out.old.items ++ (u64 tag
        ++ (u8 (byte_of 1 (redelivered, tt)) ++ (short_str exchange.now ++ short_str key.now)))) }
    ensures err { OnErr result (IsPrefix out.old.items out.new.items) }
    ensures want { IsOkUnless result Memory.Want }
{
    put_u64(out, tag)?;
    put_u8(out, one_bit(redelivered))?;
    put_route(out, exchange, key)
}

#[tactic(auto, using(qq_fields::proofs::Appends::prefix_rules), unfolding(crate::specs::Writing::method_bytes))]
pub fn put_deliver(
    out: &mut Vec<u8>,
    consumer: &Text,
    tag: u64,
    redelivered: bool,
    exchange: &Text,
    key: &Text,
) -> Result<(), Memory>
    requires { HasLengths (BasicDeliver consumer.now tag redelivered exchange.now key.now) }
    ensures ok { OnOk result (out.new.items ≡ out.old.items
        ++ method_bytes (BasicDeliver consumer.now tag redelivered exchange.now key.now)) }
    ensures err { OnErr result (IsPrefix out.old.items out.new.items) }
    ensures want { IsOkUnless result Memory.Want }
{
    put_numbers(out, 60, 60)?;
    put_short_str(out, consumer)?;
    put_delivery(out, tag, redelivered, exchange, key)
}

#[tactic(auto, using(qq_fields::proofs::Appends::prefix_rules), unfolding(crate::specs::Writing::method_bytes))]
pub fn put_get(out: &mut Vec<u8>, queue: &Text, no_ack: bool) -> Result<(), Memory>
    requires { HasLengths (BasicGet queue.now no_ack) }
    ensures ok { OnOk result (out.new.items ≡ out.old.items
        ++ method_bytes (BasicGet queue.now no_ack)) }
    ensures err { OnErr result (IsPrefix out.old.items out.new.items) }
    ensures want { IsOkUnless result Memory.Want }
{
    put_numbers(out, 60, 70)?;
    put_u16(out, 0)?;
    put_short_str(out, queue)?;
    put_u8(out, one_bit(no_ack))
}

#[tactic(auto, using(qq_fields::proofs::Appends::prefix_rules), unfolding(crate::specs::Writing::method_bytes))]
pub fn put_get_ok(
    out: &mut Vec<u8>,
    tag: u64,
    redelivered: bool,
    exchange: &Text,
    key: &Text,
    messages: u32,
) -> Result<(), Memory>
    requires { HasLengths (BasicGetOk tag redelivered exchange.now key.now messages) }
    ensures ok { OnOk result (out.new.items ≡ out.old.items
        ++ method_bytes (BasicGetOk tag redelivered exchange.now key.now messages)) }
    ensures err { OnErr result (IsPrefix out.old.items out.new.items) }
    ensures want { IsOkUnless result Memory.Want }
{
    put_numbers(out, 60, 71)?;
    put_delivery(out, tag, redelivered, exchange, key)?;
    put_u32(out, messages)
}

#[tactic(auto, using(qq_fields::proofs::Appends::prefix_rules), unfolding(crate::specs::Writing::method_bytes, crate::specs::Arguments::short_str))]
pub fn put_get_empty(out: &mut Vec<u8>) -> Result<(), Memory>
    ensures ok { OnOk result (out.new.items ≡ out.old.items ++ method_bytes BasicGetEmpty) }
    ensures err { OnErr result (IsPrefix out.old.items out.new.items) }
    ensures want { IsOkUnless result Memory.Want }
{
    put_numbers(out, 60, 72)?;
    put_u8(out, 0)
}

#[tactic(auto, using(qq_fields::proofs::Appends::prefix_rules), unfolding(crate::specs::Writing::method_bytes))]
pub fn put_ack(out: &mut Vec<u8>, tag: u64, multiple: bool) -> Result<(), Memory>
    ensures ok { OnOk result (out.new.items ≡ out.old.items
        ++ method_bytes (BasicAck tag multiple)) }
    ensures err { OnErr result (IsPrefix out.old.items out.new.items) }
    ensures want { IsOkUnless result Memory.Want }
{
    put_numbers(out, 60, 80)?;
    put_u64(out, tag)?;
    put_u8(out, one_bit(multiple))
}

#[tactic(auto, using(qq_fields::proofs::Appends::prefix_rules), unfolding(crate::specs::Writing::method_bytes))]
pub fn put_reject(out: &mut Vec<u8>, tag: u64, requeue: bool) -> Result<(), Memory>
    ensures ok { OnOk result (out.new.items ≡ out.old.items
        ++ method_bytes (BasicReject tag requeue)) }
    ensures err { OnErr result (IsPrefix out.old.items out.new.items) }
    ensures want { IsOkUnless result Memory.Want }
{
    put_numbers(out, 60, 90)?;
    put_u64(out, tag)?;
    put_u8(out, one_bit(requeue))
}

#[tactic(auto, using(qq_fields::proofs::Appends::prefix_rules), unfolding(crate::specs::Writing::method_bytes))]
pub fn put_nack(out: &mut Vec<u8>, tag: u64, multiple: bool, requeue: bool) -> Result<(), Memory>
    ensures ok { OnOk result (out.new.items ≡ out.old.items
        ++ method_bytes (BasicNack tag multiple requeue)) }
    ensures err { OnErr result (IsPrefix out.old.items out.new.items) }
    ensures want { IsOkUnless result Memory.Want }
{
    put_numbers(out, 60, 120)?;
    put_u64(out, tag)?;
    put_u8(out, two_bits(multiple, requeue))
}
