//! Laws of why a call of a server gives up, and of what stands then: the functions do nothing, and their contracts
//! are the laws.
ghost use Rattle.std.specs.Prelude.{◌≡◌, ◌⊎◌, ◌<◌, ◌^◌, [], ℕ, Option, true, false, length};
ghost use Rattle.qq_base.specs.declared.ids.NodeId.{NodeId};
ghost use Rattle.qq_base.specs.declared.memory.Memory.{Memory as Cause};
ghost use Rattle.qq_base.specs.declared.memory.Memory.TheVariants.{Want, Spent};
ghost use Rattle.qq_raft_core.specs.Raft.{IsCaused, HandsNothingOut as HandsNoMessage};
ghost use Rattle.qq_raft_model.specs.Server.{is_ready};
ghost use Rattle.qq_raft_model.specs.State.{Server as Raft};
ghost use Rattle.qq_raft.specs.declared.fault.SubmitFault.{SubmitFault};
ghost use Rattle.qq_raft.specs.declared.fault.SubmitFault.TheVariants.{NotLeader, Memory};
ghost use Rattle.qq_raft.specs.declared.server.Server.{Server};
ghost use Rattle.qq_raft.specs.Stands.{HandsNothingOut, IsLeftBy, IsRefused};

use qq_raft_msg::{LogView, Queue};

/// A law: why a call of the Raft part gives up.
///
/// - `spent`: the number that a refusal names is 2^63, and the changes, the term or the entries count as many.
/// - `want`: while all three are below, there is no memory.
pub fn a_number_is_told_at_its_end()
    ensures spent { (s : Raft) (number : ℕ) → IsCaused s (Spent number) → (number ≡ 2 ^ 63)
        × ((s.op ≡ 2 ^ 63) ⊎ (s.term.0 ≡ 2 ^ 63) ⊎ (length s.log ≡ 2 ^ 63)) }
    ensures want { (s : Raft) (e : Cause) → s.op < 2 ^ 63 → s.term.0 < 2 ^ 63 →
        length s.log < 2 ^ 63 → IsCaused s e → e ≡ Want }
{}

/// A law: after a call failed there is nothing to be taken.
///
/// - `ops`, `out`: the Raft part has no change for the disk, and no message that may leave.
/// - `waiting`: no message waits there either, for a change to be durable.
/// - `raft`, `rows`: the same holds of a server's Raft part, and the server has no row.
pub fn a_failed_call_hands_nothing_out<Q: Queue, L: LogView>()
    ensures ops { (s : Raft) → HandsNoMessage s → s.ops ≡ [] }
    ensures out { (s : Raft) → HandsNoMessage s → s.out ≡ [] }
    ensures waiting { (s : Raft) → HandsNoMessage s → s.waiting ≡ [] }
    ensures raft { (s : Server Q L) → HandsNothingOut L.log s → (s.raft.ops.items ≡ [])
        × (s.raft.out.items ≡ []) × (s.raft.waiting.items ≡ []) }
    ensures rows { (s : Server Q L) → HandsNothingOut L.log s → s.rows.items ≡ [] }
{}

/// A law: why a command isn't taken, and what stands then.
///
/// - `leader`: who isn't ready names the leader that it knows.
/// - `want`: who is ready, its changes, its term and its entries being below 2^63, had no memory.
/// - `spent`: else it may tell that one of these is 2^63.
/// - `stays`: who names a leader stays as it is.
/// - `empty`: who had no memory, or a number at its end, has nothing to be taken.
pub fn a_command_is_refused_with_its_cause<Q: Queue, L: LogView>()
    ensures leader { (s : Raft) (fault : SubmitFault) → is_ready s ≡ false → IsRefused s fault →
        fault ≡ NotLeader s.leader }
    ensures want { (s : Raft) (fault : SubmitFault) → is_ready s ≡ true → s.op < 2 ^ 63 →
        s.term.0 < 2 ^ 63 → length s.log < 2 ^ 63 → IsRefused s fault → fault ≡ Memory Want }
    ensures spent { (s : Raft) (number : ℕ) → IsRefused s (Memory (Spent number)) →
        (is_ready s ≡ true) × (number ≡ 2 ^ 63)
        × ((s.op ≡ 2 ^ 63) ⊎ (s.term.0 ≡ 2 ^ 63) ⊎ (length s.log ≡ 2 ^ 63)) }
    ensures stays { (old new : Server Q L) (hint : Option NodeId) →
        IsLeftBy L.log old new (NotLeader hint) → new ≡ old }
    ensures empty { (old new : Server Q L) (e : Cause) → IsLeftBy L.log old new (Memory e) →
        (new.rows.items ≡ []) × (new.raft.ops.items ≡ []) × (new.raft.out.items ≡ [])
        × (new.raft.waiting.items ≡ []) }
{}
