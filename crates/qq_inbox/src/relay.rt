//! A list of ops from one thread to another.
ghost use Rattle.std.specs.Prelude.{◌≡◌, ◌+◌, ◌<◌, ◌≤◌, true, [], length, IfOk, IsOkUnless};
ghost use Rattle.std.specs.VecDeque.{deque_len, deque_capacity};
ghost use Rattle.qq_base.specs.declared.memory.Memory.TheVariants.{Want};
ghost use Rattle.qq_inbox.specs.HandOver.{InOrder, MayCome, pass_view, with_offered, with_taken};
ghost use Rattle.qq_inbox.specs.Inbox.{view, IsPassOf, capacity_of};
ghost use Rattle.qq_inbox.specs.Threads.{HasOffered, HasTaken, HasRoom};

use crate::inbox::{Inbox, InboxPass};
use crate::pass::Start;
use qq_base::Memory;
use qq_log::Op;
use std::alloc::Global;
use std::collections::VecDeque;
use std::sync::Wait;
use std::thread;
use std::thread::Threads;

/// Ops that went from one thread to another, and what they went through.
#[derive(Drop)]
pub struct Relay<S: Start> {
    /// The ops as they were taken.
    pub taken: VecDeque<Op>,
    /// The inbox.
    pub inbox: Inbox<S>,
    /// Its pass, which may offer and take again.
    pub pass: InboxPass,
}

/// Hands ops from one thread to another, through an inbox for so many ops: one offers them all, in order, and
/// the other takes as many. What was taken is what was offered: all, in order, each once. Both rights come
/// back in one pass. It takes its memory before the threads begin. Where no thread can be made and there are
/// more ops than the inbox may hold, it doesn't return.
pub fn hand_over<S: Start + Send + Sync, R: Threads + Wait + Sync>(
    rt: &R,
    alloc: Global,
    capacity: usize,
    ops: VecDeque<Op>,
) -> Result<Relay<S>, Memory>
    requires capacity { 0 < capacity }
    requires order { InOrder S.queues S.carries ops.items }
    ensures taken { IfOk result (λ relay. relay.taken.items ≡ ops.items) }
    ensures pass { IfOk result (λ relay. IsPassOf relay.inbox relay.pass) }
    ensures view { IfOk result (λ relay.
        view relay.pass ≡ pass_view true true ops.items ops.items) }
    ensures capacity { IfOk result (λ relay. capacity_of relay.inbox ≡ capacity) }
    ensures want { IsOkUnless result Want }
{
    let count = ops.len();
    let room = VecDeque::with_capacity(alloc, count)?;
    let (inbox, mut writer) = Inbox::<S>::new(alloc, capacity)?;
    let reader = inbox.split(&mut writer)?;
    let shared = &inbox;
    let (mut pass, (reader, taken)) = thread::join(
        rt,
        move || -> InboxPass
            requires { HasOffered shared.now writer [] × InOrder S.queues S.carries ops.items }
            ensures { HasOffered shared.entry.now result ops.items }
        { offer_all(rt, shared, writer, ops) },
        move || -> (InboxPass, VecDeque<Op>)
            requires { HasTaken shared.now reader [] × HasRoom room 0 count }
            ensures { HasTaken shared.entry.now result.0 result.1.items
                × (length result.1.items ≡ count) }
        { take_all(rt, shared, reader, room, count) },
    );
    shared.join(&mut pass, reader);
    Ok(Relay { taken, inbox, pass })
}

// Offers each op, until it is put.
fn offer_all<S: Start, W: Wait>(
    rt: &W,
    inbox: &Inbox<S>,
    mut pass: InboxPass,
    mut ops: VecDeque<Op>,
) -> InboxPass
    requires pass { HasOffered inbox.now pass [] }
    requires order { InOrder S.queues S.carries ops.items }
    ensures pass { HasOffered inbox.now result ops.items }
{
    'ops: while let Some(op) = ops.pop_front() {
        offer_until_put(rt, inbox, &mut pass, op);
    }
    pass
}

fn offer_until_put<S: Start, W: Wait>(rt: &W, inbox: &Inbox<S>, pass: &mut InboxPass, op: Op)
    requires pass { IsPassOf inbox.now pass.old }
    requires right { (view pass.old).offers ≡ true }
    requires order { MayCome S.queues S.carries (view pass.old).offered op }
    ensures pass { IsPassOf inbox.now pass.new }
    ensures view { view pass.new ≡ with_offered (view pass.old) op }
{
    let mut next = op;
    'tries: for _ in rt.forever() {
        match inbox.offer(rt, pass, next) {
            Ok(()) => return,
            Err(back) => next = back,
        }
        thread::yield_now();
    }
    unreachable!()
}

// Takes so many ops.
fn take_all<S: Start, W: Wait>(
    rt: &W,
    inbox: &Inbox<S>,
    mut pass: InboxPass,
    mut taken: VecDeque<Op>,
    count: usize,
) -> (InboxPass, VecDeque<Op>)
    requires pass { HasTaken inbox.now pass [] }
    requires room { HasRoom taken 0 count }
    ensures pass { HasTaken inbox.now result.0 result.1.items }
    ensures count { length result.1.items ≡ count }
{
    'ops: for done in 0..count {
        take_next(rt, inbox, &mut pass, &mut taken);
    }
    (pass, taken)
}

// Takes the next op to the end of a list that has room for it.
fn take_next<S: Start, W: Wait>(
    rt: &W,
    inbox: &Inbox<S>,
    pass: &mut InboxPass,
    taken: &mut VecDeque<Op>,
)
    requires pass { HasTaken inbox.now pass.old taken.old.items }
    requires room { deque_len taken.old < deque_capacity taken.old }
    ensures pass { HasTaken inbox.now pass.new taken.new.items }
    ensures items { length taken.new.items ≡ length taken.old.items + 1 }
    ensures len { deque_len taken.new ≡ deque_len taken.old + 1 }
    ensures capacity { deque_capacity taken.new ≡ deque_capacity taken.old }
{
    let op = take_until_found(rt, inbox, pass);
    taken.push_back_reserved(op);
}

fn take_until_found<S: Start, W: Wait>(rt: &W, inbox: &Inbox<S>, pass: &mut InboxPass) -> Op
    requires pass { IsPassOf inbox.now pass.old }
    requires right { (view pass.old).takes ≡ true }
    ensures pass { IsPassOf inbox.now pass.new }
    ensures view { view pass.new ≡ with_taken (view pass.old) result }
{
    'tries: for _ in rt.forever() {
        if let Some(op) = inbox.take(rt, pass) {
            return op;
        }
        thread::yield_now();
    }
    unreachable!()
}
