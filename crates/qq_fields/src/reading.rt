//! Reading numbers, bytes and flags from a prefix of bytes. Each call is told the fault that it answers.
ghost use Rattle.std.specs.Prelude.{◌≡◌, length, None, IfOk};
ghost use Rattle.std.specs.Int.{w8, w16, w32, w64};
ghost use Rattle.qq_fields.specs.Reading.{Gives, number_at, bytes_at, flag_at};

use crate::fault::Fault;
use qq_base::{take_u8, take_u16, take_u32, take_u64};

/// The number in the first byte, and the bytes behind it; `short` where there is none.
#[tactic(auto, unfolding(crate::specs::Reading::number_at))]
pub fn u8_at<E: Fault>(bytes: &[u8], short: E) -> Result<(u8, &[u8]), E>
    requires { E.memory short ≡ None }
    ensures { Gives E.memory (λ x. (x.0, x.1.now)) result (number_at short w8 bytes.now) }
{
    match take_u8(bytes) {
        None => Err(short),
        Some((number, taken)) => Ok((number, bytes.split_at(taken).1)),
    }
}

/// The number in the first two bytes, and the bytes behind them; `short` where there are fewer.
#[tactic(auto, unfolding(crate::specs::Reading::number_at))]
pub fn u16_at<E: Fault>(bytes: &[u8], short: E) -> Result<(u16, &[u8]), E>
    requires { E.memory short ≡ None }
    ensures { Gives E.memory (λ x. (x.0, x.1.now)) result (number_at short w16 bytes.now) }
{
    match take_u16(bytes) {
        None => Err(short),
        Some((number, taken)) => Ok((number, bytes.split_at(taken).1)),
    }
}

/// The number in the first four bytes, and the bytes behind them; `short` where there are fewer.
#[tactic(auto, unfolding(crate::specs::Reading::number_at))]
pub fn u32_at<E: Fault>(bytes: &[u8], short: E) -> Result<(u32, &[u8]), E>
    requires { E.memory short ≡ None }
    ensures { Gives E.memory (λ x. (x.0, x.1.now)) result (number_at short w32 bytes.now) }
{
    match take_u32(bytes) {
        None => Err(short),
        Some((number, taken)) => Ok((number, bytes.split_at(taken).1)),
    }
}

/// The number in the first eight bytes, and the bytes behind them; `short` where there are fewer.
#[tactic(auto, unfolding(crate::specs::Reading::number_at))]
pub fn u64_at<E: Fault>(bytes: &[u8], short: E) -> Result<(u64, &[u8]), E>
    requires { E.memory short ≡ None }
    ensures { Gives E.memory (λ x. (x.0, x.1.now)) result (number_at short w64 bytes.now) }
{
    match take_u64(bytes) {
        None => Err(short),
        Some((number, taken)) => Ok((number, bytes.split_at(taken).1)),
    }
}

/// So many bytes, and those behind them; `short` where there are fewer.
#[tactic(auto, unfolding(crate::specs::Reading::bytes_at))]
pub fn bytes_at<E: Fault>(count: usize, bytes: &[u8], short: E) -> Result<(&[u8], &[u8]), E>
    requires { E.memory short ≡ None }
    ensures exact { Gives E.memory (λ x. (x.0.now, x.1.now)) result
        (bytes_at short count bytes.now) }
    ensures len { IfOk result (λ x. length x.0.now ≡ count) }
{
    if bytes.len() < count {
        return Err(short);
    }
    Ok(bytes.split_at(count))
}

/// Whether the first byte is 1 and not 0; `short` where there is none, `other` where it is above 1.
#[tactic(auto, unfolding(crate::specs::Reading::checked, crate::specs::Reading::flag_at))]
pub fn flag_at<E: Fault>(bytes: &[u8], short: E, other: E) -> Result<(bool, &[u8]), E>
    requires short { E.memory short ≡ None }
    requires other { E.memory other ≡ None }
    ensures { Gives E.memory (λ x. (x.0, x.1.now)) result (flag_at short other bytes.now) }
{
    let (number, rest) = u8_at(bytes, short)?;
    if number > 1 {
        return Err(other);
    }
    Ok((number == 1, rest))
}
