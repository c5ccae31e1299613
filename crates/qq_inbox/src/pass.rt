//! What a pass of the inbox knows, and what each step of it changes.
ghost use Rattle.std.specs.Prelude.{List};
ghost use Rattle.qq_base.specs.declared.ids.QueueId.{QueueId};
ghost use Rattle.qq_log.specs.Carries.{Carries};

use crossbeam_queue::protocol::{Join, Lesson, Outcome, Protocol, Split};
use qq_log::Op;
use std::collections::LinkedList;
use std::marker::{Brand, PhantomData};

/// What a pass may do, and what was done by it. Contracts speak of it alone: no value of it is made.
pub struct PassView {
    /// Whether it has the right to offer.
    pub offers: bool,
    /// Whether it has the right to take.
    pub takes: bool,
    /// With the right to offer, all that was offered.
    pub offered: LinkedList<Op>,
    /// With the right to take, all that was taken.
    pub taken: LinkedList<Op>,
}

/// Where a log stands to which an inbox brings ops. Contracts speak of it alone: no value of it is made.
pub trait Start {
    /// The log's queues.
    ghost queues: { List QueueId };

    /// The carry of each, after all that was handed to the log before.
    ghost carries: { Carries };
}

/// Where the log stands is said at a call, once it is known.
impl Start for Brand {
    ghost use Rattle.std.specs.Prelude.{[], None};

    ghost queues = { [] };

    ghost carries = { λ _. None };
}

/// The rule of an inbox that brings ops to a log which stood there.
pub struct HandOver<S> {
    start: PhantomData<S>,
}

impl<S: Start> Protocol<Op, PassView> for HandOver<S> {
    ghost use Rattle.qq_inbox.specs.HandOver.{HandedOver, first_view};

    ghost holds = { HandedOver S.queues S.carries };

    ghost first = { first_view };
}

/// An op is put at the back.
pub struct Offer;

impl Outcome<Op, PassView> for Offer {
    ghost use Rattle.std.specs.Prelude.{◌≡◌};
    ghost use Rattle.qq_inbox.specs.HandOver.{with_offered};

    ghost then = { λ v op w. w ≡ with_offered v op };
}

impl Lesson<Op, PassView> for Offer {
    ghost use Rattle.qq_inbox.specs.HandOver.{Tells};

    ghost fact = { Tells };
}

/// The op at the front is taken, and may come where it comes.
pub struct Take<S> {
    start: PhantomData<S>,
}

impl<S: Start> Outcome<Op, PassView> for Take<S> {
    ghost use Rattle.std.specs.Prelude.{◌≡◌};
    ghost use Rattle.qq_inbox.specs.HandOver.{with_taken, MayCome};

    ghost then = { λ v op w. (w ≡ with_taken v op) × MayCome S.queues S.carries v.taken op };
}

impl<S: Start> Lesson<Op, PassView> for Take<S> {
    ghost use Rattle.qq_inbox.specs.HandOver.{Tells};

    ghost fact = { Tells };
}

/// The right to take goes to a new pass, and rights come together again.
pub struct Roles;

impl Split<PassView> for Roles {
    ghost use Rattle.qq_inbox.specs.HandOver.{left_view, given_view};

    ghost left = { left_view };

    ghost right = { given_view };
}

impl Join<PassView> for Roles {
    ghost use Rattle.qq_inbox.specs.HandOver.{joined_view, spent_view};

    ghost both = { joined_view };

    ghost spent = { spent_view };
}
