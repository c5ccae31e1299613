//! Laws of messages and their bytes.
ghost use Rattle.std.specs.Prelude.{◌≡◌, ◌++◌, List, ℕ, length, Ok};
ghost use Rattle.qq_base.specs.Fields.{AreBytes};
ghost use Rattle.qq_raft_msg.specs.Encoding.{encoding};
ghost use Rattle.qq_raft_msg.specs.Reading.{message_at, IsRpcPrefix};
ghost use Rattle.qq_raft_msg.specs.Rpc.{IsWritable};
ghost use Rattle.qq_raft_msg.specs.declared.rpc.Rpc.{Rpc};

/// A law: a message's encoding is read again whatever follows it, and what is read has that encoding and
/// no other.
pub fn messages_read_back()
    ensures again { (r : Rpc) (rest : List ℕ) → IsWritable r →
        message_at (encoding r ++ rest) ≡ Ok (r, length (encoding r)) }
    ensures alone { (bytes : List ℕ) (x : Rpc × ℕ) → AreBytes bytes → message_at bytes ≡ Ok x →
        IsRpcPrefix bytes x }
{}

/// A law: no message's encoding begins another's, so what was written is read again whatever follows it.
pub fn no_message_begins_another()
    ensures { (a b : Rpc) (x y : List ℕ) → IsWritable a → IsWritable b →
        encoding a ++ x ≡ encoding b ++ y → (a ≡ b) × (x ≡ y) }
{}
