//! A law of ops that leave a group: the function does nothing, and its contract is the law.
ghost use Rattle.std.specs.Prelude.{◌≡◌, ℕ, Some, slice_get};
ghost use Rattle.qq_log.specs.declared.op.Op.{Op};
ghost use Rattle.qq_raft.specs.declared.server.Server.{Server};
ghost use Rattle.qq_group.specs.Group.{server_at};
ghost use Rattle.qq_group.specs.Handing.{KeepsReturned, next_at};
ghost use Rattle.qq_group.specs.declared.group.Group.{Group};
ghost use Rattle.qq_group.specs.declared.seat.Seat.{Seat};

use qq_raft_msg::{LogView, Queue};

/// A law: an op that a member was given back is its next one, whatever events happen, while it is up.
pub fn an_op_that_was_given_back_is_next<Q: Queue, L: LogView>()
    ensures { (k : ℕ) (op : Op) (old new : Group Q L) (seat : Seat Q L) (s : Server Q L) →
        KeepsReturned old new → slice_get old.seats.items k ≡ Some seat →
        seat.returned ≡ Some op → server_at k new ≡ Some s →
        next_at L.log (slice_get new.seats.items k) ≡ Some op }
{}
