//! Laws of messages: the functions do nothing, and their contracts are the laws.
ghost use Rattle.std.specs.Prelude.{◌≡◌, ◌<◌, ◌≤◌, ◌++◌, ◌^◌, ℕ, List, Ok, length};
ghost use Rattle.qq_base.specs.Fields.{AreBytes};
ghost use Rattle.qq_raft_protocol.specs.World.{World};
ghost use Rattle.qq_raft_msg.specs.declared.rpc.AppendMsg.{AppendMsg};
ghost use Rattle.qq_raft_msg.specs.declared.rpc.Rpc.{Rpc};
ghost use Rattle.qq_raft_msg.specs.declared.rpc.Rpc.TheVariants.{Append};
ghost use Rattle.qq_raft_msg.specs.declared.state.Role.TheVariants.{Leader};
ghost use Rattle.qq_raft_msg.specs.Encoding.{encoding};
ghost use Rattle.qq_raft_msg.specs.Reading.{message_at};
ghost use Rattle.qq_raft_msg.specs.Rpc.{envelope};
ghost use Rattle.qq_raft_model.specs.Refines.{IsOnItsWay, IsReached, Stands};
ghost use Rattle.qq_raft_model.specs.State.{Server};

use qq_raft_msg::messages_read_back;

/// A law: of entries on their way, in each world that the protocol can come to (Ongaro's dissertation, section 3.4).
///
/// - `one`: those of one term have one sender.
/// - `leader`: that is the server that leads the term, where one does.
pub fn entries_of_a_term_have_one_sender()
    ensures one { (members : List ℕ) (w : World) (first second : AppendMsg) →
        IsReached members w → IsOnItsWay w (Append first) → IsOnItsWay w (Append second) →
        first.term.0 ≡ second.term.0 → first.from.0 ≡ second.from.0 }
    ensures leader { (members : List ℕ) (w : World) (k : ℕ) (s : Server) (m : AppendMsg) →
        IsReached members w → Stands w k s → s.role ≡ Leader → IsOnItsWay w (Append m) →
        m.term.0 ≡ s.term.0 → m.from.0 ≡ k }
{}

/// A law: of a message that was read of bytes.
///
/// - `again`: written, it is read as the same again, whatever follows it.
/// - `sender`, `receiver`: it is from a node, and for a node, that has a number from 1 to 7.
/// - `term`: the sender's term has eight bytes.
pub fn a_message_that_was_read_is_read_again()
    ensures again { (bytes rest : List ℕ) (x : Rpc × ℕ) → AreBytes bytes →
        message_at bytes ≡ Ok x →
        message_at (encoding x.0 ++ rest) ≡ Ok (x.0, length (encoding x.0)) }
    ensures sender { (bytes : List ℕ) (x : Rpc × ℕ) → AreBytes bytes → message_at bytes ≡ Ok x →
        (1 ≤ (envelope x.0).from.0) × ((envelope x.0).from.0 ≤ 7) }
    ensures receiver { (bytes : List ℕ) (x : Rpc × ℕ) → AreBytes bytes → message_at bytes ≡ Ok x →
        (1 ≤ (envelope x.0).to.0) × ((envelope x.0).to.0 ≤ 7) }
    ensures term { (bytes : List ℕ) (x : Rpc × ℕ) → AreBytes bytes → message_at bytes ≡ Ok x →
        (envelope x.0).term.0 < 2 ^ 64 }
{
    messages_read_back();
}
