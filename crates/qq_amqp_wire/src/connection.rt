//! Reading the methods of class connection.
ghost use Rattle.qq_fields.specs.Reading.{Gives};
ghost use Rattle.qq_amqp_wire.specs.Arguments.{memory_of};
ghost use Rattle.qq_amqp_wire.specs.Rows.{made_by, connection_start, connection_start_ok, connection_tune, connection_tune_ok, connection_open, connection_open_ok, connection_close, arguments_at};

use crate::fault::WireFault;
use crate::fields::{long_str_at, short_str_at, text_at};
use crate::method::Method;
use qq_fields::{u8_at, u16_at, u32_at};
use std::alloc::Global;

fn start_at(alloc: Global, bytes: &[u8]) -> Result<(Method, &[u8]), WireFault>
    ensures { Gives memory_of (λ x. (x.0, x.1.now)) result (made_by connection_start bytes.now) }
{
    let (major, rest) = u8_at(bytes, WireFault::BadField)?;
    let (minor, rest) = u8_at(rest, WireFault::BadField)?;
    let (properties, rest) = long_str_at(alloc, rest)?;
    let (mechanisms, rest) = long_str_at(alloc, rest)?;
    let (locales, rest) = long_str_at(alloc, rest)?;
    Ok((
        Method::ConnectionStart {
            major,
            minor,
            properties,
            mechanisms,
            locales,
        },
        rest,
    ))
}

fn start_ok_at(alloc: Global, bytes: &[u8]) -> Result<(Method, &[u8]), WireFault>
    ensures { Gives memory_of (λ x. (x.0, x.1.now)) result
        (made_by connection_start_ok bytes.now) }
{
    let (properties, rest) = long_str_at(alloc, bytes)?;
    let (mechanism, rest) = short_str_at(alloc, rest)?;
    let (response, rest) = long_str_at(alloc, rest)?;
    let (locale, rest) = short_str_at(alloc, rest)?;
    Ok((
        Method::ConnectionStartOk {
            properties,
            mechanism,
            response,
            locale,
        },
        rest,
    ))
}

fn tune_at(bytes: &[u8]) -> Result<(Method, &[u8]), WireFault>
    ensures { Gives memory_of (λ x. (x.0, x.1.now)) result (made_by connection_tune bytes.now) }
{
    let (channel_max, rest) = u16_at(bytes, WireFault::BadField)?;
    let (frame_max, rest) = u32_at(rest, WireFault::BadField)?;
    let (heartbeat, rest) = u16_at(rest, WireFault::BadField)?;
    Ok((
        Method::ConnectionTune {
            channel_max,
            frame_max,
            heartbeat,
        },
        rest,
    ))
}

fn tune_ok_at(bytes: &[u8]) -> Result<(Method, &[u8]), WireFault>
    ensures { Gives memory_of (λ x. (x.0, x.1.now)) result (made_by connection_tune_ok bytes.now) }
{
    let (channel_max, rest) = u16_at(bytes, WireFault::BadField)?;
    let (frame_max, rest) = u32_at(rest, WireFault::BadField)?;
    let (heartbeat, rest) = u16_at(rest, WireFault::BadField)?;
    Ok((
        Method::ConnectionTuneOk {
            channel_max,
            frame_max,
            heartbeat,
        },
        rest,
    ))
}

fn open_at(alloc: Global, bytes: &[u8]) -> Result<(Method, &[u8]), WireFault>
    ensures { Gives memory_of (λ x. (x.0, x.1.now)) result (made_by connection_open bytes.now) }
{
    let (virtual_host, rest) = short_str_at(alloc, bytes)?;
    let (_, rest) = text_at(rest)?;
    let (_, rest) = u8_at(rest, WireFault::BadField)?;
    Ok((Method::ConnectionOpen { virtual_host }, rest))
}

fn open_ok_at(bytes: &[u8]) -> Result<(Method, &[u8]), WireFault>
    ensures { Gives memory_of (λ x. (x.0, x.1.now)) result (made_by connection_open_ok bytes.now) }
{
    let (_, rest) = text_at(bytes)?;
    Ok((Method::ConnectionOpenOk, rest))
}

fn close_at(alloc: Global, bytes: &[u8]) -> Result<(Method, &[u8]), WireFault>
    ensures { Gives memory_of (λ x. (x.0, x.1.now)) result (made_by connection_close bytes.now) }
{
    let (code, rest) = u16_at(bytes, WireFault::BadField)?;
    let (text, rest) = short_str_at(alloc, rest)?;
    let (class, rest) = u16_at(rest, WireFault::BadField)?;
    let (method, rest) = u16_at(rest, WireFault::BadField)?;
    Ok((
        Method::ConnectionClose {
            code,
            text,
            class,
            method,
        },
        rest,
    ))
}

/// The arguments of a method of class connection.
#[tactic(auto, unfolding(crate::specs::Rows::arguments_at))]
pub fn connection_at(alloc: Global, number: u16, bytes: &[u8]) -> Result<(Method, &[u8]), WireFault>
    ensures { Gives memory_of (λ x. (x.0, x.1.now)) result (arguments_at 10 number bytes.now) }
{
    match number {
        10 => start_at(alloc, bytes),
        11 => start_ok_at(alloc, bytes),
        30 => tune_at(bytes),
        31 => tune_ok_at(bytes),
        40 => open_at(alloc, bytes),
        41 => open_ok_at(bytes),
        50 => close_at(alloc, bytes),
        51 => Ok((Method::ConnectionCloseOk, bytes)),
        _ => Err(WireFault::BadMethod {
            class: 10,
            method: number,
        }),
    }
}
