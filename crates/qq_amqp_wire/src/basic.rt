//! Reading the methods of class basic.
ghost use Rattle.qq_fields.specs.Reading.{Gives};
ghost use Rattle.qq_amqp_wire.specs.Arguments.{memory_of};
ghost use Rattle.qq_amqp_wire.specs.Rows.{made_by, basic_qos, basic_consume, basic_consume_ok, basic_cancel, basic_cancel_ok, basic_publish, basic_deliver, basic_get, basic_get_ok, basic_get_empty, basic_ack, basic_reject, basic_nack, arguments_at};

use crate::fault::WireFault;
use crate::fields::{four_bits, long_str_at, short_str_at, text_at, two_bits};
use crate::method::Method;
use qq_fields::{u8_at, u16_at, u32_at, u64_at};
use std::alloc::Global;

fn qos_at(bytes: &[u8]) -> Result<(Method, &[u8]), WireFault>
    ensures { Gives memory_of (λ x. (x.0, x.1.now)) result (made_by basic_qos bytes.now) }
{
    let (size, rest) = u32_at(bytes, WireFault::BadField)?;
    let (count, rest) = u16_at(rest, WireFault::BadField)?;
    let (bits, rest) = u8_at(rest, WireFault::BadField)?;
    let global = bits % 2 == 1;
    Ok((
        Method::BasicQos {
            size,
            count,
            global,
        },
        rest,
    ))
}

fn consume_at(alloc: Global, bytes: &[u8]) -> Result<(Method, &[u8]), WireFault>
    ensures { Gives memory_of (λ x. (x.0, x.1.now)) result (made_by basic_consume bytes.now) }
{
    let (_, rest) = u16_at(bytes, WireFault::BadField)?;
    let (queue, rest) = short_str_at(alloc, rest)?;
    let (tag, rest) = short_str_at(alloc, rest)?;
    let (bits, rest) = u8_at(rest, WireFault::BadField)?;
    let (no_local, no_ack, exclusive, no_wait) = four_bits(bits);
    let (arguments, rest) = long_str_at(alloc, rest)?;
    Ok((
        Method::BasicConsume {
            queue,
            tag,
            no_local,
            no_ack,
            exclusive,
            no_wait,
            arguments,
        },
        rest,
    ))
}

fn consume_ok_at(alloc: Global, bytes: &[u8]) -> Result<(Method, &[u8]), WireFault>
    ensures { Gives memory_of (λ x. (x.0, x.1.now)) result (made_by basic_consume_ok bytes.now) }
{
    let (tag, rest) = short_str_at(alloc, bytes)?;
    Ok((Method::BasicConsumeOk { tag }, rest))
}

fn cancel_at(alloc: Global, bytes: &[u8]) -> Result<(Method, &[u8]), WireFault>
    ensures { Gives memory_of (λ x. (x.0, x.1.now)) result (made_by basic_cancel bytes.now) }
{
    let (tag, rest) = short_str_at(alloc, bytes)?;
    let (bits, rest) = u8_at(rest, WireFault::BadField)?;
    let no_wait = bits % 2 == 1;
    Ok((Method::BasicCancel { tag, no_wait }, rest))
}

fn cancel_ok_at(alloc: Global, bytes: &[u8]) -> Result<(Method, &[u8]), WireFault>
    ensures { Gives memory_of (λ x. (x.0, x.1.now)) result (made_by basic_cancel_ok bytes.now) }
{
    let (tag, rest) = short_str_at(alloc, bytes)?;
    Ok((Method::BasicCancelOk { tag }, rest))
}

fn publish_at(alloc: Global, bytes: &[u8]) -> Result<(Method, &[u8]), WireFault>
    ensures { Gives memory_of (λ x. (x.0, x.1.now)) result (made_by basic_publish bytes.now) }
{
    let (_, rest) = u16_at(bytes, WireFault::BadField)?;
    let (exchange, rest) = short_str_at(alloc, rest)?;
    let (key, rest) = short_str_at(alloc, rest)?;
    let (bits, rest) = u8_at(rest, WireFault::BadField)?;
    let (mandatory, immediate) = two_bits(bits);
    Ok((
        Method::BasicPublish {
            exchange,
            key,
            mandatory,
            immediate,
        },
        rest,
    ))
}

fn deliver_at(alloc: Global, bytes: &[u8]) -> Result<(Method, &[u8]), WireFault>
    ensures { Gives memory_of (λ x. (x.0, x.1.now)) result (made_by basic_deliver bytes.now) }
{
    let (consumer, rest) = short_str_at(alloc, bytes)?;
    let (tag, rest) = u64_at(rest, WireFault::BadField)?;
    let (bits, rest) = u8_at(rest, WireFault::BadField)?;
    let redelivered = bits % 2 == 1;
    let (exchange, rest) = short_str_at(alloc, rest)?;
    let (key, rest) = short_str_at(alloc, rest)?;
    Ok((
        Method::BasicDeliver {
            consumer,
            tag,
            redelivered,
            exchange,
            key,
        },
        rest,
    ))
}

fn get_at(alloc: Global, bytes: &[u8]) -> Result<(Method, &[u8]), WireFault>
    ensures { Gives memory_of (λ x. (x.0, x.1.now)) result (made_by basic_get bytes.now) }
{
    let (_, rest) = u16_at(bytes, WireFault::BadField)?;
    let (queue, rest) = short_str_at(alloc, rest)?;
    let (bits, rest) = u8_at(rest, WireFault::BadField)?;
    let no_ack = bits % 2 == 1;
    Ok((Method::BasicGet { queue, no_ack }, rest))
}

fn get_ok_at(alloc: Global, bytes: &[u8]) -> Result<(Method, &[u8]), WireFault>
    ensures { Gives memory_of (λ x. (x.0, x.1.now)) result (made_by basic_get_ok bytes.now) }
{
    let (tag, rest) = u64_at(bytes, WireFault::BadField)?;
    let (bits, rest) = u8_at(rest, WireFault::BadField)?;
    let redelivered = bits % 2 == 1;
    let (exchange, rest) = short_str_at(alloc, rest)?;
    let (key, rest) = short_str_at(alloc, rest)?;
    let (messages, rest) = u32_at(rest, WireFault::BadField)?;
    Ok((
        Method::BasicGetOk {
            tag,
            redelivered,
            exchange,
            key,
            messages,
        },
        rest,
    ))
}

fn get_empty_at(bytes: &[u8]) -> Result<(Method, &[u8]), WireFault>
    ensures { Gives memory_of (λ x. (x.0, x.1.now)) result (made_by basic_get_empty bytes.now) }
{
    let (_, rest) = text_at(bytes)?;
    Ok((Method::BasicGetEmpty, rest))
}

fn ack_at(bytes: &[u8]) -> Result<(Method, &[u8]), WireFault>
    ensures { Gives memory_of (λ x. (x.0, x.1.now)) result (made_by basic_ack bytes.now) }
{
    let (tag, rest) = u64_at(bytes, WireFault::BadField)?;
    let (bits, rest) = u8_at(rest, WireFault::BadField)?;
    let multiple = bits % 2 == 1;
    Ok((Method::BasicAck { tag, multiple }, rest))
}

fn reject_at(bytes: &[u8]) -> Result<(Method, &[u8]), WireFault>
    ensures { Gives memory_of (λ x. (x.0, x.1.now)) result (made_by basic_reject bytes.now) }
{
    let (tag, rest) = u64_at(bytes, WireFault::BadField)?;
    let (bits, rest) = u8_at(rest, WireFault::BadField)?;
    let requeue = bits % 2 == 1;
    Ok((Method::BasicReject { tag, requeue }, rest))
}

fn nack_at(bytes: &[u8]) -> Result<(Method, &[u8]), WireFault>
    ensures { Gives memory_of (λ x. (x.0, x.1.now)) result (made_by basic_nack bytes.now) }
{
    let (tag, rest) = u64_at(bytes, WireFault::BadField)?;
    let (bits, rest) = u8_at(rest, WireFault::BadField)?;
    let (multiple, requeue) = two_bits(bits);
    Ok((
        Method::BasicNack {
            tag,
            multiple,
            requeue,
        },
        rest,
    ))
}

/// The arguments of a method of class basic.
#[tactic(auto, unfolding(crate::specs::Rows::arguments_at))]
pub fn basic_at(alloc: Global, number: u16, bytes: &[u8]) -> Result<(Method, &[u8]), WireFault>
    ensures { Gives memory_of (λ x. (x.0, x.1.now)) result (arguments_at 60 number bytes.now) }
{
    match number {
        10 => qos_at(bytes),
        11 => Ok((Method::BasicQosOk, bytes)),
        20 => consume_at(alloc, bytes),
        21 => consume_ok_at(alloc, bytes),
        30 => cancel_at(alloc, bytes),
        31 => cancel_ok_at(alloc, bytes),
        40 => publish_at(alloc, bytes),
        60 => deliver_at(alloc, bytes),
        70 => get_at(alloc, bytes),
        71 => get_ok_at(alloc, bytes),
        72 => get_empty_at(bytes),
        80 => ack_at(bytes),
        90 => reject_at(bytes),
        120 => nack_at(bytes),
        _ => Err(WireFault::BadMethod {
            class: 60,
            method: number,
        }),
    }
}
