//! What happens to a queue, and what that shows.
ghost use Rattle.std.specs.Prelude.{IfErr, OnErr, OnOk};
ghost use Rattle.qq_base.specs.Fronts.{IsFront};
ghost use Rattle.qq_queue.specs.ClusterQueue.{Does, IsSameQueue};
ghost use Rattle.qq_queue.specs.Events.{IsRefused, LeavesAudit, MayHappen, event_of};
ghost use Rattle.qq_queue.specs.Members.{AreSound};
ghost use Rattle.qq_queue.specs.Sessions.{standings};

use crate::cluster_queue::ClusterQueue;
use crate::sessions::Sessions;
use qq_base::{Memory, NodeId};
use qq_entry::Unstamped;
use qq_session::Shown;
use qq_taker::Verdict;
use std::alloc::Global;

/// What may happen to a queue, but for what its nodes' logs do.
#[derive(Drop)]
pub enum QueueEvent {
    /// A client's session, numbered from 1, gives a command in range the next number and sends it to the leader.
    Submit { session: u64, body: Unstamped },
    /// A session that has ended is to give a command.
    TellEnded { session: u64 },
    /// A session is to give a command for a delivery of this id, which wasn't handed out.
    TellNotTaken { session: u64, id: u64 },
    /// The taker of this number is to be given to a session's consumer.
    Attach { session: u64, tag: u32, number: u32 },
    /// The taker of the first delivery that waits gives this verdict on it.
    Judge { verdict: Verdict },
    /// A client sends its open commands again.
    Resend { session: u64 },
    /// A client asks the leader for what is out with its consumers and hasn't come to them.
    Fetch { session: u64 },
    /// The queue is told that a session, numbered from 1, has ended.
    Down { session: u64 },
    /// Time passes at a member.
    Tick { node: NodeId },
    /// A member is told what of its log is synced.
    Notice { node: NodeId },
    /// The message at a place of the bag, from 1, is delivered.
    Deliver { place: u32 },
    /// It is lost.
    Lose { place: u32 },
    /// A copy of it goes to the end of the bag.
    Copy { place: u32 },
}

impl ClusterQueue {
    /// Something happens to the queue, and what that shows goes after what was shown before.
    ///
    /// - `ok`: whichever queue of the definition it was, it is what the event makes of that, and this is shown.
    /// - `front`, `left`: after an error what was shown is there, and nothing was added to the audit, or the event has
    ///   happened to the members; of commands that are sent again some may have reached the leader.
    /// - `cause`: there was no memory, or a number that the event raises stands at its end.
    #[inline(always)]
    pub fn happen(
        &mut self,
        alloc: Global,
        sessions: &Sessions,
        event: QueueEvent,
        shown: &mut Vec<Shown>,
    ) -> Result<(), Memory>
        requires sound { AreSound self.old.group }
        requires may { MayHappen event }

        ensures sound { AreSound self.new.group }
        ensures same { IsSameQueue self.old self.new }
        ensures ok { OnOk result (Does (event_of event) (standings sessions.now) self.old self.new
            shown.old.items shown.new.items) }
        ensures front { OnErr result (IsFront shown.old.items shown.new.items) }
        ensures left { OnErr result (LeavesAudit event self.old self.new) }
        ensures cause { IfErr result (IsRefused event self.old) }
    {
        match event {
            QueueEvent::Submit { session, body } => self.submit(alloc, session, body, shown),
            QueueEvent::TellEnded { session } => self.tell_ended(session, shown),
            QueueEvent::TellNotTaken { session, id } => self.tell_not_taken(session, id, shown),
            QueueEvent::Attach {
                session,
                tag,
                number,
            } => self.attach(session, tag, number, shown),
            QueueEvent::Judge { verdict } => self.judge(verdict, shown),
            QueueEvent::Resend { session } => self.resend(alloc, session, shown),
            QueueEvent::Fetch { session } => self.fetch(alloc, sessions, session, shown),
            QueueEvent::Down { session } => self.down(alloc, session, shown),
            QueueEvent::Tick { node } => self.tick(alloc, node),
            QueueEvent::Notice { node } => self.notice(alloc, sessions, node, shown),
            QueueEvent::Deliver { place } => self.deliver(alloc, sessions, place, shown),
            QueueEvent::Lose { place } => {
                self.lose(alloc, place);
                Ok(())
            }
            QueueEvent::Copy { place } => self.copy(alloc, place),
        }
    }
}
