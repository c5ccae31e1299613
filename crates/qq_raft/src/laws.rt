//! Laws of what a server applies.
ghost use Rattle.std.specs.Prelude.{◌≤◌, ℕ};
ghost use Rattle.qq_raft_msg.specs.declared.rpc.Rpc.{Rpc};
ghost use Rattle.qq_raft.specs.Step.{ServerState, receive, notice};

use qq_raft_msg::Queue;

/// A law: a server applies only what it knows to be committed, and what it knows to be committed only rises.
pub fn what_is_applied_is_committed<Q: Queue>()
    ensures receive { (s : ServerState Q.Plain) (rpc : Rpc) → s.applied ≤ s.raft.commit →
        (receive Q.step rpc s).applied ≤ (receive Q.step rpc s).raft.commit }
    ensures notice { (s : ServerState Q.Plain) (op : ℕ) → s.applied ≤ s.raft.commit →
        (notice Q.step op s).applied ≤ (notice Q.step op s).raft.commit }
    ensures rises { (s : ServerState Q.Plain) (rpc : Rpc) →
        s.raft.commit ≤ (receive Q.step rpc s).raft.commit }
{}
