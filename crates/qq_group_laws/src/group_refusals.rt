//! Laws of what is refused, and of what a refusal tells: the functions do nothing, and their contracts are the laws.
ghost use Rattle.std.specs.Prelude.{◌≡◌, ◌⊎◌, ◌-◌, ◌^◌, ℕ, None, Some, length};
ghost use Rattle.qq_base.specs.declared.ids.NodeId.{NodeId};
ghost use Rattle.qq_base.specs.declared.memory.Memory.{Memory};
ghost use Rattle.qq_base.specs.declared.memory.Memory.TheVariants.{Spent, Want};
ghost use Rattle.qq_entry.specs.declared.command.Command.{Command};
ghost use Rattle.qq_raft_msg.specs.Bag.{at_place};
ghost use Rattle.qq_raft_msg.specs.Rpc.{envelope};
ghost use Rattle.qq_raft_msg.specs.declared.rpc.Rpc.{Rpc};
ghost use Rattle.qq_group.specs.Group.{IsSound, server_at};
ghost use Rattle.qq_group.specs.Steps.{IsEventCaused};
ghost use Rattle.qq_group.specs.declared.event.Event.{Event};
ghost use Rattle.qq_group.specs.declared.event.Event.TheVariants.{Add, Copy, Crash, Deliver, Flush, Lose, Notice, Submit, Tick};
ghost use Rattle.qq_group.specs.declared.group.Group.{Group};

use qq_raft_msg::{LogView, Queue};

/// A law: neither the loss of a message nor the crash of a member is ever refused.
pub fn a_loss_is_never_refused<Q: Queue, L: LogView>()
    ensures loss { (place : ℕ) (old : Group Q L) (e : Memory) →
        IsEventCaused Q.stands Q.step Q.passes_end L.log (Lose place) old e → ⊥ }
    ensures crash { (node : NodeId) (old : Group Q L) (e : Memory) →
        IsEventCaused Q.stands Q.step Q.passes_end L.log (Crash node) old e → ⊥ }
{}

/// A law: an event that reaches no server is never refused.
///
/// - `tick`, `command`, `add`, `flush`, `notice`: its member is down.
/// - `message`: so is the member that the message is for.
/// - `nothing`: there is no such message.
pub fn an_event_of_a_member_that_is_down_is_never_refused<Q: Queue, L: LogView>()
    ensures tick { (node : NodeId) (old : Group Q L) (e : Memory) → server_at node.0 old ≡ None →
        IsEventCaused Q.stands Q.step Q.passes_end L.log (Tick node) old e → ⊥ }
    ensures command { (node : NodeId) (time : ℕ) (command : Command) (old : Group Q L)
        (e : Memory) → server_at node.0 old ≡ None → IsEventCaused Q.stands Q.step Q.passes_end
        L.log (Submit node time command) old e → ⊥ }
    ensures add { (node : NodeId) (time : ℕ) (command : Command) (old : Group Q L)
        (e : Memory) → server_at node.0 old ≡ None → IsEventCaused Q.stands Q.step Q.passes_end
        L.log (Add node time command) old e → ⊥ }
    ensures flush { (node : NodeId) (old : Group Q L) (e : Memory) → server_at node.0 old ≡ None →
        IsEventCaused Q.stands Q.step Q.passes_end L.log (Flush node) old e → ⊥ }
    ensures notice { (node : NodeId) (op : ℕ) (old : Group Q L) (e : Memory) →
        server_at node.0 old ≡ None →
        IsEventCaused Q.stands Q.step Q.passes_end L.log (Notice node op) old e → ⊥ }
    ensures message { (place : ℕ) (old : Group Q L) (rpc : Rpc) (e : Memory) →
        at_place place old.bag ≡ Some rpc → server_at (envelope rpc).to.0 old ≡ None →
        IsEventCaused Q.stands Q.step Q.passes_end L.log (Deliver place) old e → ⊥ }
    ensures nothing { (place : ℕ) (old : Group Q L) (e : Memory) →
        at_place place old.bag ≡ None →
        IsEventCaused Q.stands Q.step Q.passes_end L.log (Deliver place) old e → ⊥ }
{}

/// A law: a copy is refused for want of memory, or where there is such a message and the bag has as many as it may.
pub fn a_copy_is_refused_for_want_or_a_full_bag<Q: Queue, L: LogView>()
    ensures { (place : ℕ) (old : Group Q L) (e : Memory) →
        IsEventCaused Q.stands Q.step Q.passes_end L.log (Copy place) old e → (e ≡ Want)
        ⊎ ((e ≡ Spent (2 ^ 32 - 1)) × (length old.bag ≡ 2 ^ 32 - 1)
        × ((rpc : Rpc) × (at_place place old.bag ≡ Some rpc))) }
{}

/// A law: whatever event is refused, there was no memory, or the end of numbers is told, or the bag's limit.
pub fn a_refusal_tells_want_or_an_end<Q: Queue, L: LogView>()
    ensures { (event : Event) (old : Group Q L) (e : Memory) →
        IsSound Q.stands L.log Q.applied old →
        IsEventCaused Q.stands Q.step Q.passes_end L.log event old e →
        (e ≡ Want) ⊎ (e ≡ Spent (2 ^ 63)) ⊎ (e ≡ Spent (2 ^ 32 - 1)) }
{}
