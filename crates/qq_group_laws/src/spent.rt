//! Laws of the numbers that a refusal tells: the functions do nothing, and their contracts are the laws.
ghost use Rattle.std.specs.Prelude.{◌≡◌, ◌⊎◌, ◌+◌, ◌-◌, ◌^◌, ◌<◌, ◌++◌, ◌∷◌, ℕ, List, Some, length};
ghost use Rattle.qq_base.specs.declared.ids.NodeId.{NodeId};
ghost use Rattle.qq_base.specs.declared.memory.Memory.TheVariants.{Spent};
ghost use Rattle.qq_entry.specs.declared.command.Command.{Command};
ghost use Rattle.qq_entry.specs.declared.command.Entry.{Entry};
ghost use Rattle.qq_raft_core.specs.Raft.{server_of};
ghost use Rattle.qq_raft_msg.specs.Bag.{at_place, without};
ghost use Rattle.qq_raft_msg.specs.Rpc.{envelope};
ghost use Rattle.qq_raft_msg.specs.declared.rpc.Rpc.{Rpc};
ghost use Rattle.qq_raft_model.specs.Server.{Input, notice, receive, step};
ghost use Rattle.qq_raft.specs.Stands.{state_of};
ghost use Rattle.qq_raft.specs.Step.{ServerState, apply_all, next_index, unapplied, with_raft};
ghost use Rattle.qq_raft.specs.declared.server.Server.{Server};
ghost use Rattle.qq_group.specs.Group.{IsSound, server_at};
ghost use Rattle.qq_group.specs.Steps.{IsEventCaused};
ghost use Rattle.qq_group.specs.declared.event.Event.TheVariants.{Add, Deliver, Flush, Notice, Submit, Tick};
ghost use Rattle.qq_group.specs.declared.group.Group.{Group};

use qq_raft_msg::{LogView, Queue};

/// A law: where the end of numbers is told, the op, the term or the last index of the member's server stands at it,
/// or an entry that is then to be applied would raise a number of its queue past it.
///
/// - `tick`, `command`, `add`: the queue has no part in these.
/// - `flush`: no number rises.
/// - `message`, `notice`: `made` is the server once its Raft part has taken them.
pub fn an_end_is_told_where_a_number_stands_at_it<Q: Queue, L: LogView>()
    ensures tick { (node : NodeId) (old : Group Q L) (s : Server Q L) →
        server_at node.0 old ≡ Some s →
        IsEventCaused Q.stands Q.step Q.passes_end L.log (Tick node) old (Spent (2 ^ 63)) →
        (s.raft.op ≡ 2 ^ 63) ⊎ (s.raft.term.0 ≡ 2 ^ 63)
        ⊎ (length (L.log s.raft.log).entries ≡ 2 ^ 63) }
    ensures command { (node : NodeId) (time : ℕ) (command : Command) (old : Group Q L)
        (s : Server Q L) → server_at node.0 old ≡ Some s → IsEventCaused Q.stands Q.step
        Q.passes_end L.log (Submit node time command) old (Spent (2 ^ 63)) →
        (s.raft.op ≡ 2 ^ 63) ⊎ (s.raft.term.0 ≡ 2 ^ 63)
        ⊎ (length (L.log s.raft.log).entries ≡ 2 ^ 63) }
    ensures add { (node : NodeId) (time : ℕ) (command : Command) (old : Group Q L)
        (s : Server Q L) → server_at node.0 old ≡ Some s → IsEventCaused Q.stands Q.step
        Q.passes_end L.log (Add node time command) old (Spent (2 ^ 63)) →
        (s.raft.op ≡ 2 ^ 63) ⊎ (s.raft.term.0 ≡ 2 ^ 63)
        ⊎ (length (L.log s.raft.log).entries ≡ 2 ^ 63) }
    ensures flush { (node : NodeId) (old : Group Q L) (s : Server Q L) →
        server_at node.0 old ≡ Some s → IsEventCaused Q.stands Q.step Q.passes_end L.log
        (Flush node) old (Spent (2 ^ 63)) → ⊥ }
    ensures message { (place : ℕ) (old : Group Q L) (rpc : Rpc) (s : Server Q L)
        (plain : Q.Plain) (made : ServerState Q.Plain) → at_place place old.bag ≡ Some rpc →
        server_at (envelope rpc).to.0 old ≡ Some s → Q.stands plain s.machine →
        made ≡ with_raft (receive rpc (server_of L.log s.raft)) (state_of L.log plain s) →
        IsEventCaused Q.stands Q.step Q.passes_end L.log (Deliver place) old (Spent (2 ^ 63)) →
        (s.raft.op ≡ 2 ^ 63) ⊎ (s.raft.term.0 ≡ 2 ^ 63)
        ⊎ (length (L.log s.raft.log).entries ≡ 2 ^ 63)
        ⊎ ((before rest : List Entry) × (entry : Entry)
        × (unapplied made ≡ before ++ entry ∷ rest)
        × Q.passes_end (apply_all Q.step before made).queue
        (next_index (apply_all Q.step before made)) entry) }
    ensures notice { (node : NodeId) (op : ℕ) (old : Group Q L) (s : Server Q L)
        (plain : Q.Plain) (made : ServerState Q.Plain) → server_at node.0 old ≡ Some s →
        Q.stands plain s.machine →
        made ≡ with_raft (notice op (server_of L.log s.raft)) (state_of L.log plain s) →
        IsEventCaused Q.stands Q.step Q.passes_end L.log (Notice node op) old (Spent (2 ^ 63)) →
        (s.raft.op ≡ 2 ^ 63) ⊎ (s.raft.term.0 ≡ 2 ^ 63)
        ⊎ (length (L.log s.raft.log).entries ≡ 2 ^ 63)
        ⊎ ((before rest : List Entry) × (entry : Entry)
        × (unapplied made ≡ before ++ entry ∷ rest)
        × Q.passes_end (apply_all Q.step before made).queue
        (next_index (apply_all Q.step before made)) entry) }
{}

/// A law: where the bag's limit is told, the messages that are on their way and those that the member's server would
/// send are more than that.
pub fn a_full_bag_is_told_where_messages_pass_its_limit<Q: Queue, L: LogView>()
    ensures tick { (node : NodeId) (old : Group Q L) (s : Server Q L) →
        server_at node.0 old ≡ Some s →
        IsEventCaused Q.stands Q.step Q.passes_end L.log (Tick node) old (Spent (2 ^ 32 - 1)) →
        2 ^ 32 - 1 < length old.bag + length (step (server_of L.log s.raft) Input.Tick).out }
    ensures command { (node : NodeId) (time : ℕ) (command : Command) (old : Group Q L)
        (s : Server Q L) → server_at node.0 old ≡ Some s → IsEventCaused Q.stands Q.step
        Q.passes_end L.log (Submit node time command) old (Spent (2 ^ 32 - 1)) →
        2 ^ 32 - 1 < length old.bag
        + length (step (server_of L.log s.raft) (Input.Submit time command)).out }
    ensures add { (node : NodeId) (time : ℕ) (command : Command) (old : Group Q L)
        (s : Server Q L) → server_at node.0 old ≡ Some s → IsEventCaused Q.stands Q.step
        Q.passes_end L.log (Add node time command) old (Spent (2 ^ 32 - 1)) →
        2 ^ 32 - 1 < length old.bag
        + length (step (server_of L.log s.raft) (Input.Add time command)).out }
    ensures flush { (node : NodeId) (old : Group Q L) (s : Server Q L) →
        server_at node.0 old ≡ Some s → IsEventCaused Q.stands Q.step Q.passes_end L.log
        (Flush node) old (Spent (2 ^ 32 - 1)) →
        2 ^ 32 - 1 < length old.bag + length (step (server_of L.log s.raft) Input.Flush).out }
    ensures message { (place : ℕ) (old : Group Q L) (rpc : Rpc) (s : Server Q L) →
        IsSound Q.stands L.log Q.applied old → at_place place old.bag ≡ Some rpc →
        server_at (envelope rpc).to.0 old ≡ Some s → IsEventCaused Q.stands Q.step Q.passes_end
        L.log (Deliver place) old (Spent (2 ^ 32 - 1)) →
        2 ^ 32 - 1 < length (without place old.bag)
        + length (step (server_of L.log s.raft) (Input.Receive rpc)).out }
    ensures notice { (node : NodeId) (op : ℕ) (old : Group Q L) (s : Server Q L) →
        IsSound Q.stands L.log Q.applied old → server_at node.0 old ≡ Some s →
        IsEventCaused Q.stands Q.step Q.passes_end
        L.log (Notice node op) old (Spent (2 ^ 32 - 1)) →
        2 ^ 32 - 1 < length old.bag
        + length (step (server_of L.log s.raft) (Input.Notice op)).out }
{}
