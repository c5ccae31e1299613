//! Reading the methods of class channel.
ghost use Rattle.qq_fields.specs.Reading.{Gives};
ghost use Rattle.qq_amqp_wire.specs.Arguments.{memory_of};
ghost use Rattle.qq_amqp_wire.specs.Rows.{made_by, channel_open, channel_open_ok, channel_close, arguments_at};

use crate::fault::WireFault;
use crate::fields::{long_at, short_str_at, text_at};
use crate::method::Method;
use qq_fields::u16_at;
use std::alloc::Global;

fn open_at(bytes: &[u8]) -> Result<(Method, &[u8]), WireFault>
    ensures { Gives memory_of (λ x. (x.0, x.1.now)) result (made_by channel_open bytes.now) }
{
    let (_, rest) = text_at(bytes)?;
    Ok((Method::ChannelOpen, rest))
}

fn open_ok_at(bytes: &[u8]) -> Result<(Method, &[u8]), WireFault>
    ensures { Gives memory_of (λ x. (x.0, x.1.now)) result (made_by channel_open_ok bytes.now) }
{
    let (_, rest) = long_at(bytes)?;
    Ok((Method::ChannelOpenOk, rest))
}

fn close_at(alloc: Global, bytes: &[u8]) -> Result<(Method, &[u8]), WireFault>
    ensures { Gives memory_of (λ x. (x.0, x.1.now)) result (made_by channel_close bytes.now) }
{
    let (code, rest) = u16_at(bytes, WireFault::BadField)?;
    let (text, rest) = short_str_at(alloc, rest)?;
    let (class, rest) = u16_at(rest, WireFault::BadField)?;
    let (method, rest) = u16_at(rest, WireFault::BadField)?;
    Ok((
        Method::ChannelClose {
            code,
            text,
            class,
            method,
        },
        rest,
    ))
}

/// The arguments of a method of class channel.
#[tactic(auto, unfolding(crate::specs::Rows::arguments_at))]
pub fn channel_at(alloc: Global, number: u16, bytes: &[u8]) -> Result<(Method, &[u8]), WireFault>
    ensures { Gives memory_of (λ x. (x.0, x.1.now)) result (arguments_at 20 number bytes.now) }
{
    match number {
        10 => open_at(bytes),
        11 => open_ok_at(bytes),
        40 => close_at(alloc, bytes),
        41 => Ok((Method::ChannelCloseOk, bytes)),
        _ => Err(WireFault::BadMethod {
            class: 20,
            method: number,
        }),
    }
}
