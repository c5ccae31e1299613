//! The lists of a command: ids, deaths, and dead letters with their targets.
ghost use Rattle.std.specs.Prelude.{◌≡◌, ◌++◌, ◌≤◌, length, All, OnOk, OnErr, IsOkUnless};
ghost use Rattle.qq_entry.specs.Range.{IsDeath, AreIds, IsDeadDone, AreDeadDones};
ghost use Rattle.qq_base.specs.Fronts.{IsFront as IsPrefix};
ghost use Rattle.qq_command.specs.Encoding.{reason_number, death, deaths, ids, dead_done, dead_dones};
ghost use Rattle.qq_command.specs.Reading.{Gives, reason_of, death_at, deaths_at, ids_at, dead_done_at, dead_dones_at};

use crate::fields::{positive_u64_at, queue_at};
use crate::lengths::{DEAD_DONE_LEN, DEATH_LEN, ID_LEN, TARGET_LEN};
use crate::reasons;
use crate::refusal::Refusal;
use qq_base::{Ids, Memory, QueueId, QueueIds, put_u8, put_u16, put_u32, put_u64};
use qq_entry::{
    DEAD_DONE_LIMIT, DEATHS_LIMIT, DeadDone, DeadDones, Death, Deaths, IDS_LIMIT, Reason,
    TARGETS_LIMIT,
};
use qq_fields::{Item, many, put_each, u8_at, u16_at, u32_at};
use std::alloc::Global;

impl Item<Refusal> for u64 {
    ghost use Rattle.std.specs.Int.{w64};
    ghost use Rattle.qq_entry.specs.Range.{IsPositive};
    ghost use Rattle.qq_fields.specs.Writing.{u64};
    ghost use Rattle.qq_command.specs.Reading.{positive_at};

    ghost read = { positive_at w64 };

    ghost write = { u64 };

    ghost fits = { IsPositive 64 };

    fn item_at(_: Global, bytes: &[u8]) -> Result<(Self, &[u8]), Refusal> {
        positive_u64_at(bytes)
    }

    fn put_item(&self, out: &mut Vec<u8>) -> Result<(), Memory> {
        put_u64(out, *self)
    }
}

#[tactic(auto, unfolding(crate::specs::Reading::ids_at))]
pub fn ids_at(alloc: Global, bytes: &[u8]) -> Result<(Ids, &[u8]), Refusal>
    ensures { Gives (λ x. (x.0, x.1.now)) result (ids_at bytes.now) }
{
    let (count, rest) = u32_at(bytes, Refusal::BadField)?;
    let count = count as usize;
    if count > IDS_LIMIT {
        return Err(Refusal::TooLarge);
    }
    if count == 0 {
        return Err(Refusal::BadField);
    }
    let (ids, rest) = many(alloc, ID_LEN, count, rest)?;
    Ok((Ids::from_vec(ids), rest))
}

#[tactic(auto, using(qq_fields::proofs::Appends::prefix_rules), unfolding(crate::specs::Encoding::ids))]
pub fn put_ids(out: &mut Vec<u8>, list: &[u64]) -> Result<(), Memory>
    requires { AreIds list.now }
    ensures ok { OnOk result (out.new.items ≡ out.old.items ++ ids list.now) }
    ensures err { OnErr result (IsPrefix out.old.items out.new.items) }
    ensures want { IsOkUnless result Memory.Want }
{
    put_u32(out, list.len() as u32)?;
    put_each::<Refusal, _>(out, list)
}

fn reason_of(number: u8) -> Option<Reason>
    ensures { result ≡ reason_of number }
{
    match number {
        reasons::REJECTED => Some(Reason::Rejected),
        reasons::EXPIRED => Some(Reason::Expired),
        reasons::MAX_LEN => Some(Reason::MaxLen),
        reasons::DELIVERY_LIMIT => Some(Reason::DeliveryLimit),
        _ => None,
    }
}

fn reason_number(reason: Reason) -> u8
    ensures { result ≡ reason_number reason }
{
    match reason {
        Reason::Rejected => reasons::REJECTED,
        Reason::Expired => reasons::EXPIRED,
        Reason::MaxLen => reasons::MAX_LEN,
        Reason::DeliveryLimit => reasons::DELIVERY_LIMIT,
    }
}

#[tactic(auto, unfolding(crate::specs::Reading::death_at))]
fn death_at(bytes: &[u8]) -> Result<(Death, &[u8]), Refusal>
    ensures { Gives (λ x. (x.0, x.1.now)) result (death_at bytes.now) }
{
    let (queue, rest) = queue_at(bytes)?;
    let (number, rest) = u8_at(rest, Refusal::BadField)?;
    match reason_of(number) {
        Some(reason) => Ok((Death { queue, reason }, rest)),
        None => Err(Refusal::BadField),
    }
}

#[tactic(auto, using(qq_fields::proofs::Appends::prefix_rules), unfolding(crate::specs::Encoding::death))]
fn put_death(out: &mut Vec<u8>, value: &Death) -> Result<(), Memory>
    ensures ok { OnOk result (out.new.items ≡ out.old.items ++ death value.now) }
    ensures err { OnErr result (IsPrefix out.old.items out.new.items) }
    ensures want { IsOkUnless result Memory.Want }
{
    put_u32(out, value.queue.0)?;
    put_u8(out, reason_number(value.reason))
}

impl Item<Refusal> for Death {
    ghost use Rattle.qq_entry.specs.Range.{IsDeath};
    ghost use Rattle.qq_command.specs.Encoding.{death};
    ghost use Rattle.qq_command.specs.Reading.{death_at};

    ghost read = { death_at };

    ghost write = { death };

    ghost fits = { IsDeath };

    fn item_at(_: Global, bytes: &[u8]) -> Result<(Self, &[u8]), Refusal> {
        death_at(bytes)
    }

    fn put_item(&self, out: &mut Vec<u8>) -> Result<(), Memory> {
        put_death(out, self)
    }
}

#[tactic(auto, unfolding(crate::specs::Reading::deaths_at))]
pub fn deaths_at(alloc: Global, bytes: &[u8]) -> Result<(Deaths, &[u8]), Refusal>
    ensures { Gives (λ x. (x.0, x.1.now)) result (deaths_at bytes.now) }
{
    let (count, rest) = u16_at(bytes, Refusal::BadField)?;
    let count = count as usize;
    if count > DEATHS_LIMIT {
        return Err(Refusal::TooLarge);
    }
    let (deaths, rest) = many(alloc, DEATH_LEN, count, rest)?;
    Ok((Deaths::from_vec(deaths), rest))
}

#[tactic(auto, using(qq_fields::proofs::Appends::prefix_rules), unfolding(crate::specs::Encoding::deaths))]
pub fn put_deaths(out: &mut Vec<u8>, list: &[Death]) -> Result<(), Memory>
    requires most { length list.now ≤ DEATHS_LIMIT }
    requires each { All IsDeath list.now }
    ensures ok { OnOk result (out.new.items ≡ out.old.items ++ deaths list.now) }
    ensures err { OnErr result (IsPrefix out.old.items out.new.items) }
    ensures want { IsOkUnless result Memory.Want }
{
    put_u16(out, list.len() as u16)?;
    put_each::<Refusal, _>(out, list)
}

impl Item<Refusal> for QueueId {
    ghost use Rattle.qq_entry.specs.Range.{IsQueue};
    ghost use Rattle.qq_command.specs.Encoding.{queue};
    ghost use Rattle.qq_command.specs.Reading.{queue_at};

    ghost read = { queue_at };

    ghost write = { queue };

    ghost fits = { IsQueue };

    fn item_at(_: Global, bytes: &[u8]) -> Result<(Self, &[u8]), Refusal> {
        queue_at(bytes)
    }

    fn put_item(&self, out: &mut Vec<u8>) -> Result<(), Memory> {
        put_u32(out, self.0)
    }
}

#[tactic(auto, unfolding(qq_fields::specs::Reading::checked, crate::specs::Reading::dead_done_at))]
fn dead_done_at(alloc: Global, bytes: &[u8]) -> Result<(DeadDone, &[u8]), Refusal>
    ensures { Gives (λ x. (x.0, x.1.now)) result (dead_done_at bytes.now) }
{
    let (number, rest) = positive_u64_at(bytes)?;
    let (count, rest) = u16_at(rest, Refusal::BadField)?;
    let count = count as usize;
    if count > TARGETS_LIMIT {
        return Err(Refusal::BadField);
    }
    let (targets, rest) = many(alloc, TARGET_LEN, count, rest)?;
    let targets = QueueIds::from_vec(targets);
    Ok((DeadDone { number, targets }, rest))
}

#[tactic(auto, using(qq_fields::proofs::Appends::prefix_rules), unfolding(crate::specs::Encoding::dead_done))]
fn put_dead_done(out: &mut Vec<u8>, value: &DeadDone) -> Result<(), Memory>
    requires { IsDeadDone value.now }
    ensures ok { OnOk result (out.new.items ≡ out.old.items ++ dead_done value.now) }
    ensures err { OnErr result (IsPrefix out.old.items out.new.items) }
    ensures want { IsOkUnless result Memory.Want }
{
    let targets = value.targets.as_slice();
    put_u64(out, value.number)?;
    put_u16(out, targets.len() as u16)?;
    put_each::<Refusal, _>(out, targets)
}

impl Item<Refusal> for DeadDone {
    ghost use Rattle.qq_entry.specs.Range.{IsDeadDone};
    ghost use Rattle.qq_command.specs.Encoding.{dead_done};
    ghost use Rattle.qq_command.specs.Reading.{dead_done_at};

    ghost read = { dead_done_at };

    ghost write = { dead_done };

    ghost fits = { IsDeadDone };

    fn item_at(alloc: Global, bytes: &[u8]) -> Result<(Self, &[u8]), Refusal> {
        dead_done_at(alloc, bytes)
    }

    fn put_item(&self, out: &mut Vec<u8>) -> Result<(), Memory> {
        put_dead_done(out, self)
    }
}

#[tactic(auto, unfolding(qq_fields::specs::Reading::checked, crate::specs::Reading::dead_dones_at))]
pub fn dead_dones_at(alloc: Global, bytes: &[u8]) -> Result<(DeadDones, &[u8]), Refusal>
    ensures { Gives (λ x. (x.0, x.1.now)) result (dead_dones_at bytes.now) }
{
    let (count, rest) = u16_at(bytes, Refusal::BadField)?;
    let count = count as usize;
    if count == 0 || count > DEAD_DONE_LIMIT {
        return Err(Refusal::BadField);
    }
    let (done, rest) = many(alloc, DEAD_DONE_LEN, count, rest)?;
    Ok((DeadDones::from_vec(done), rest))
}

#[tactic(auto, using(qq_fields::proofs::Appends::prefix_rules), unfolding(crate::specs::Encoding::dead_dones))]
pub fn put_dead_dones(out: &mut Vec<u8>, list: &[DeadDone]) -> Result<(), Memory>
    requires { AreDeadDones list.now }
    ensures ok { OnOk result (out.new.items ≡ out.old.items ++ dead_dones list.now) }
    ensures err { OnErr result (IsPrefix out.old.items out.new.items) }
    ensures want { IsOkUnless result Memory.Want }
{
    put_u16(out, list.len() as u16)?;
    put_each::<Refusal, _>(out, list)
}
