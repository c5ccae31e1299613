//! What holds of a group, whatever has happened in it.
ghost use Rattle.std.specs.Prelude.{◌≡◌, ◌⊎◌, ◌≤◌, ◌<◌, ℕ, List, Some, length, take, true};
ghost use Rattle.qq_base.specs.Fronts.{IsFront};
ghost use Rattle.qq_base.specs.declared.ids.NodeId.{NodeId};
ghost use Rattle.qq_base.specs.declared.ids.QueueId.{QueueId};
ghost use Rattle.qq_entry.specs.declared.command.Command.{Command};
ghost use Rattle.qq_entry.specs.declared.command.Entry.{Entry};
ghost use Rattle.std.specs.List.{AllByRecursion};
ghost use Rattle.qq_raft_core.specs.Raft.{server_of};
ghost use Rattle.qq_raft_model.specs.Server.{is_ready};
ghost use Rattle.qq_raft_model.specs.State.{last};
ghost use Rattle.qq_raft_protocol.specs.Facts.{add, In};
ghost use Rattle.qq_raft_protocol.specs.Moves.{longer};
ghost use Rattle.qq_raft_protocol.specs.Safe.{IsSupported};
ghost use Rattle.qq_raft_protocol.specs.World.{Lane, no_lane};
ghost use Rattle.qq_raft_msg.specs.declared.state.Role.TheVariants.{Leader};
ghost use Rattle.qq_raft.specs.declared.server.Server.{Server};
ghost use Rattle.qq_raft_model.specs.Group.{Event, Group as GroupState, group_after, happens, new_group};
ghost use Rattle.qq_raft_model.specs.Promises.{AreDistinct, IsLeft, IsOpened, IsSubmitted, WasLeft, members_of};
ghost use Rattle.qq_raft_model.specs.Refines.{IsNoop};
ghost use Rattle.qq_group.specs.Group.{IsReached, Represents, server_at};
ghost use Rattle.qq_group.specs.Opening.{AreApart, AreFound, AreLanes, IsAllDown, MayBeFoundBy, OpensOver, Start};
ghost use Rattle.qq_group.specs.Reads.{is_idle, IsIdle};
ghost use Rattle.qq_group.specs.declared.group.Group.{Group};

use qq_raft_model::{
    a_log_was_handed_the_changes_of_its_server, a_term_does_not_fall, a_term_has_one_leader,
    an_answered_command_stays, each_row_was_submitted, groups_are_opened,
    the_disks_support_the_audit, what_a_group_committed_stays,
};
use qq_raft_msg::{LogView, Queue};

/// A law: a new group whose nodes differ is reached, and one that is opened over logs that support an audit,
/// and so is what any event makes of a reached one.
pub fn events_reach_groups()
    ensures first { (queue : QueueId) (nodes : List NodeId) → AreDistinct nodes →
        IsReached (new_group queue nodes) }
    ensures opened { (g : GroupState) (whole : List Entry) → AreDistinct g.nodes →
        IsOpened g whole → IsReached g }
    ensures next { (g : GroupState) (e : Event) → IsReached g → IsReached (happens e g) }
    ensures later { (g : GroupState) (events : List Event) → IsReached g →
        IsReached (group_after g events) }
{
    groups_are_opened();
}

/// A law: of the servers of a group, then and later, one leads a term at most (Ongaro's dissertation, section
/// 3.4).
pub fn one_server_leads_a_term<Q: Queue, L: LogView>()
    ensures { (g : GroupState) (events : List Event) (old new : Group Q L) (p q : ℕ)
        (s t : Server Q L) → IsReached g → Represents L.log g old →
        Represents L.log (group_after g events) new → server_at p old ≡ Some s →
        server_at q new ≡ Some t → s.raft.role ≡ Leader → t.raft.role ≡ Leader →
        s.raft.term.0 ≡ t.raft.term.0 → p ≡ q }
{
    a_term_has_one_leader();
}

/// A law: what a server knows to be committed begins the audit, which only grows (section 3.6.3).
pub fn what_is_committed_stays_in_the_audit<Q: Queue, L: LogView>()
    ensures known { (g : GroupState) (group : Group Q L) (k : ℕ) (s : Server Q L) → IsReached g →
        Represents L.log g group → server_at k group ≡ Some s →
        IsFront (take s.raft.commit (L.log s.raft.log).entries) group.audit.items }
    ensures grows { (g : GroupState) (events : List Event) (old new : Group Q L) → IsReached g →
        Represents L.log g old → Represents L.log (group_after g events) new →
        IsFront old.audit.items new.audit.items }
{
    what_a_group_committed_stays();
}

/// A law: whichever ops that weren't noticed a crash takes, the logs that are left support the audit, and
/// that of the start too (`the_disks_support_the_audit` of `qq_raft_model` says what that is). Both begin the
/// longer one.
pub fn the_logs_support_the_audit<Q: Queue, L: LogView>()
    ensures audit { (g : GroupState) (group : Group Q L) → IsReached g → Represents L.log g group →
        IsSupported (members_of g.nodes) (IsLeft g) group.audit.items }
    ensures supported { (g : GroupState) (group : Group Q L) (r : IsReached g) →
        Represents L.log g group → IsSupported (members_of g.nodes) (IsLeft g)
        (longer r.whole group.audit.items) }
    ensures whole { (g : GroupState) (group : Group Q L) (r : IsReached g) →
        Represents L.log g group → IsFront r.whole (longer r.whole group.audit.items) ×
        IsFront group.audit.items (longer r.whole group.audit.items) }
{
    the_disks_support_the_audit();
    what_a_group_committed_stays();
}

/// A law: each entry of the audit stood in a log at the start after the same entries, or is a leader's first
/// one, or is of a command that reached a ready leader whose log was these entries.
pub fn each_entry_was_submitted<Q: Queue, L: LogView>()
    ensures { (g : GroupState) (group : Group Q L) (r : IsReached g) (a : List Entry) (e : Entry) →
        Represents L.log g group → IsFront (add a e) group.audit.items →
        WasLeft r.start a e ⊎ (IsNoop e ⊎ IsSubmitted r.start r.events a e) }
{
    each_row_was_submitted();
    what_a_group_committed_stays();
}

/// A law: a group that was opened over logs that support an audit represents a reached state. The log of a
/// disk that failed is one of these too, and who isn't a member has none.
pub fn an_opened_group_is_reached<Q: Queue, L: LogView>()
    ensures { (queue : QueueId) (nodes : List NodeId) (audit whole : List Entry)
        (starts : List (Start Q L)) (lane : ℕ → Lane) (group : Group Q L) → AreDistinct nodes →
        AreLanes L.log lane starts → ((k : ℕ) → (lane k).op ≡ 0 → lane k ≡ no_lane) →
        ((k : ℕ) → (In k (members_of nodes) → ⊥) → lane k ≡ no_lane) →
        IsSupported (members_of nodes) (λ q l. l ≡ lane q) whole → IsFront audit whole →
        OpensOver L.log queue nodes audit starts group →
        (g : GroupState) × IsReached g × Represents L.log g group }
{}

/// A law: where a ready leader took a command, and a leader of its term, as it is mostly itself, later knows
/// so many entries to be committed, the command stands in the audit behind the log that it was added to.
pub fn an_answered_command_is_in_the_audit<Q: Queue, L: LogView>()
    ensures { (g : GroupState) (events : List Event) (old new : Group Q L) (k p time : ℕ)
        (command : Command) (s t : Server Q L) → IsReached g → Represents L.log g old →
        Represents L.log (group_after (happens (Event.Submit k time command) g) events) new →
        server_at k old ≡ Some s → is_ready (server_of L.log s.raft) ≡ true →
        server_at p new ≡ Some t → t.raft.role ≡ Leader → t.raft.term.0 ≡ s.raft.term.0 →
        last (server_of L.log s.raft) < t.raft.commit →
        IsFront (add (L.log s.raft.log).entries
        (record { term = s.raft.term; time = time; command = command })) new.audit.items }
{
    an_answered_command_stays();
}

/// A law: no event makes a server's term fall while it is up (section 3.3).
pub fn the_term_of_a_server_does_not_fall<Q: Queue, L: LogView>()
    ensures { (g : GroupState) (e : Event) (old new : Group Q L) (k : ℕ) (s t : Server Q L) →
        Represents L.log g old → Represents L.log (happens e g) new → server_at k old ≡ Some s →
        server_at k new ≡ Some t → s.raft.term.0 ≤ t.raft.term.0 }
{
    a_term_does_not_fall();
}

/// A law: a group is idle exactly where no message is on its way, and each change of a server that is up was
/// handed to its log and noticed to be durable.
pub fn an_idle_group_has_nothing_open<Q: Queue, L: LogView>()
    ensures idle { (g : GroupState) (group : Group Q L) → IsReached g → Represents L.log g group →
        is_idle L.log group ≡ true → IsIdle g }
    ensures settled { (g : GroupState) (group : Group Q L) → IsReached g →
        Represents L.log g group → IsIdle g → is_idle L.log group ≡ true }
{
    a_log_was_handed_the_changes_of_its_server();
}

/// A law: whatever logs the members of a group start with, there are ops that come to them, so that a group
/// that is opened over them stands for a state.
pub fn logs_may_be_found<Q: Queue, L: LogView>()
    ensures { (queue : QueueId) (nodes : List NodeId) (audit : List Entry)
        (starts : List (Start Q L)) → AreApart starts →
        AllByRecursion (λ (s : Start Q L). MayBeFoundBy L.log s.1) starts →
        (g : GroupState) × IsAllDown queue nodes audit g × AreFound L.log g starts }
{}
