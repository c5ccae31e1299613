//! Reading the methods of classes queue and confirm.
ghost use Rattle.qq_fields.specs.Reading.{Gives};
ghost use Rattle.qq_amqp_wire.specs.Arguments.{memory_of};
ghost use Rattle.qq_amqp_wire.specs.Rows.{made_by, queue_declare, queue_declare_ok, queue_purge, queue_purge_ok, confirm_select, arguments_at};

use crate::fault::WireFault;
use crate::fields::{fifth_bit, four_bits, long_str_at, short_str_at};
use crate::method::Method;
use qq_fields::{u8_at, u16_at, u32_at};
use std::alloc::Global;

fn declare_at(alloc: Global, bytes: &[u8]) -> Result<(Method, &[u8]), WireFault>
    ensures { Gives memory_of (λ x. (x.0, x.1.now)) result (made_by queue_declare bytes.now) }
{
    let (_, rest) = u16_at(bytes, WireFault::BadField)?;
    let (queue, rest) = short_str_at(alloc, rest)?;
    let (bits, rest) = u8_at(rest, WireFault::BadField)?;
    let (passive, durable, exclusive, auto_delete) = four_bits(bits);
    let no_wait = fifth_bit(bits);
    let (arguments, rest) = long_str_at(alloc, rest)?;
    Ok((
        Method::QueueDeclare {
            queue,
            passive,
            durable,
            exclusive,
            auto_delete,
            no_wait,
            arguments,
        },
        rest,
    ))
}

fn declare_ok_at(alloc: Global, bytes: &[u8]) -> Result<(Method, &[u8]), WireFault>
    ensures { Gives memory_of (λ x. (x.0, x.1.now)) result (made_by queue_declare_ok bytes.now) }
{
    let (queue, rest) = short_str_at(alloc, bytes)?;
    let (messages, rest) = u32_at(rest, WireFault::BadField)?;
    let (consumers, rest) = u32_at(rest, WireFault::BadField)?;
    Ok((
        Method::QueueDeclareOk {
            queue,
            messages,
            consumers,
        },
        rest,
    ))
}

fn purge_at(alloc: Global, bytes: &[u8]) -> Result<(Method, &[u8]), WireFault>
    ensures { Gives memory_of (λ x. (x.0, x.1.now)) result (made_by queue_purge bytes.now) }
{
    let (_, rest) = u16_at(bytes, WireFault::BadField)?;
    let (queue, rest) = short_str_at(alloc, rest)?;
    let (bits, rest) = u8_at(rest, WireFault::BadField)?;
    let no_wait = bits % 2 == 1;
    Ok((Method::QueuePurge { queue, no_wait }, rest))
}

fn purge_ok_at(bytes: &[u8]) -> Result<(Method, &[u8]), WireFault>
    ensures { Gives memory_of (λ x. (x.0, x.1.now)) result (made_by queue_purge_ok bytes.now) }
{
    let (messages, rest) = u32_at(bytes, WireFault::BadField)?;
    Ok((Method::QueuePurgeOk { messages }, rest))
}

/// The arguments of a method of class queue.
#[tactic(auto, unfolding(crate::specs::Rows::arguments_at))]
pub fn queue_at(alloc: Global, number: u16, bytes: &[u8]) -> Result<(Method, &[u8]), WireFault>
    ensures { Gives memory_of (λ x. (x.0, x.1.now)) result (arguments_at 50 number bytes.now) }
{
    match number {
        10 => declare_at(alloc, bytes),
        11 => declare_ok_at(alloc, bytes),
        30 => purge_at(alloc, bytes),
        31 => purge_ok_at(bytes),
        _ => Err(WireFault::BadMethod {
            class: 50,
            method: number,
        }),
    }
}

fn select_at(bytes: &[u8]) -> Result<(Method, &[u8]), WireFault>
    ensures { Gives memory_of (λ x. (x.0, x.1.now)) result (made_by confirm_select bytes.now) }
{
    let (bits, rest) = u8_at(bytes, WireFault::BadField)?;
    let no_wait = bits % 2 == 1;
    Ok((Method::ConfirmSelect { no_wait }, rest))
}

/// The arguments of a method of class confirm.
#[tactic(auto, unfolding(crate::specs::Rows::arguments_at))]
pub fn confirm_at(number: u16, bytes: &[u8]) -> Result<(Method, &[u8]), WireFault>
    ensures { Gives memory_of (λ x. (x.0, x.1.now)) result (arguments_at 85 number bytes.now) }
{
    match number {
        10 => select_at(bytes),
        11 => Ok((Method::ConfirmSelectOk, bytes)),
        _ => Err(WireFault::BadMethod {
            class: 85,
            method: number,
        }),
    }
}
