//! The inbox of a node's log: ops come in order, none lost or doubled.
ghost use Rattle.std.specs.Prelude.{◌≡◌, ◌<◌, ◌∷◌, [], true, IfOk, IfErr, IfSome, IfNone, OnOk, OnErr, IsOk, IsOkUnless};
ghost use Rattle.qq_base.specs.declared.memory.Memory.TheVariants.{Want};
ghost use Rattle.qq_log.specs.Carries.{GoesOn, add_ops};
ghost use Rattle.qq_log.specs.Writable.{MayWrite};
ghost use Rattle.qq_inbox.specs.HandOver.{MayCome, first_view, with_offered, with_taken, left_view, given_view, joined_view, IsFull, IsEmpty, Begins};
ghost use Rattle.qq_inbox.specs.Inbox.{view, IsPassOf, IsSamePass, capacity_of};

use crate::pass::{HandOver, Offer, PassView, Roles, Start, Take};
use crossbeam_queue::{Pass, RuledArrayQueue};
use qq_base::Memory;
use qq_log::Op;
use std::alloc::Global;
use std::sync::Wait;

/// What the queues hand to the writer of a node's log, which stood there when the inbox was made. Threads
/// share it by reference.
#[derive(Drop)]
pub struct Inbox<S: Start> {
    queue: RuledArrayQueue<Op, PassView, HandOver<S>>,
}

/// A thread's rights to an inbox, and what it knows of it. It has no bytes.
pub type InboxPass = Pass<Op, PassView>;

impl<S: Start> Inbox<S> {
    /// An empty inbox for so many ops, and the pass that may offer and take.
    pub fn new(alloc: Global, capacity: usize) -> Result<(Inbox<S>, InboxPass), Memory>
        requires { 0 < capacity }
        ensures capacity { IfOk result (λ made. capacity_of made.0 ≡ capacity) }
        ensures pass { IfOk result (λ made. IsPassOf made.0 made.1) }
        ensures view { IfOk result (λ made. view made.1 ≡ first_view) }
        ensures want { IsOkUnless result Want }
    {
        let (queue, pass) = RuledArrayQueue::ruled(alloc, capacity)?;
        Ok((Inbox { queue }, pass))
    }

    /// Puts an op at the back. Where the inbox was full at a moment of the call the op comes back as it was.
    pub fn offer<W: Wait>(&self, rt: &W, pass: &mut InboxPass, op: Op) -> Result<(), Op>
        requires pass { IsPassOf self.now pass.old }
        requires right { (view pass.old).offers ≡ true }
        requires order { MayCome S.queues S.carries (view pass.old).offered op }
        ensures pass { IsSamePass pass.old pass.new }
        ensures ok { OnOk result (view pass.new ≡ with_offered (view pass.old) op) }
        ensures back { IfErr result (λ back. back ≡ op) }
        ensures err { OnErr result (view pass.new ≡ view pass.old) }
        ensures full { OnErr result (IsFull (capacity_of self.now) (view pass.old)) }
    {
        self.queue.push_as::<Offer, W>(rt, pass, op)
    }

    /// Takes the op at the front. None comes where the inbox was empty at a moment of the call. A log that was
    /// handed all that was taken before may be handed the op: it goes on where its queue stands there.
    pub fn take<W: Wait>(&self, rt: &W, pass: &mut InboxPass) -> Option<Op>
        requires pass { IsPassOf self.now pass.old }
        requires right { (view pass.old).takes ≡ true }
        ensures pass { IsSamePass pass.old pass.new }
        ensures some { IfSome result (λ op. view pass.new ≡ with_taken (view pass.old) op) }
        ensures goes_on { IfSome result (λ op.
            GoesOn S.queues (add_ops S.carries (view pass.old).taken) op) }
        ensures writes { IfSome result (λ op. MayWrite op) }
        ensures none { IfNone result (view pass.new ≡ view pass.old) }
        ensures empty { IfNone result (IsEmpty (view pass.old)) }
    {
        self.queue.pop_as::<Take<S>, W>(rt, pass)
    }

    /// A pass with the right to take, where the pass has it, and with what was taken. It is never refused.
    pub fn split(&self, pass: &mut InboxPass) -> Result<InboxPass, Memory>
        requires { IsPassOf self.now pass.old }
        ensures ok { IsOk result }
        ensures pass { IsSamePass pass.old pass.new }
        ensures other { IfOk result (λ other. IsPassOf self.now other) }
        ensures left { view pass.new ≡ left_view (view pass.old) }
        ensures given { IfOk result (λ other. view other ≡ given_view (view pass.old)) }
    {
        Ok(self.queue.another::<Roles>(pass))
    }

    /// Gives a pass the rights of another, and what belongs to them. With both rights it is known that what
    /// was taken begins what was offered.
    pub fn join(&self, pass: &mut InboxPass, other: InboxPass)
        requires pass { IsPassOf self.now pass.old }
        requires other { IsPassOf self.now other }
        ensures pass { IsSamePass pass.old pass.new }
        ensures view { view pass.new ≡ joined_view (view pass.old) (view other) }
        ensures begins { Begins (view pass.new) }
    {
        self.queue.absorb::<Roles>(pass, other);
        self.queue.learn_as::<Take<S>>(pass);
    }
}
