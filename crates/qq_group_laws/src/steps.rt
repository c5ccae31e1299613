//! A law of what a step leaves of a server: the function does nothing, and its contract is the law.
ghost use Rattle.std.specs.Prelude.{◌≡◌, ◌⊎◌, ◌≤◌, ◌+◌, ◌++◌, ◌∷◌, [], map};
ghost use Rattle.qq_log.specs.declared.op.Op.{Op};
ghost use Rattle.qq_raft_model.specs.declared.peer.Peer.{Peer};
ghost use Rattle.qq_raft_model.specs.Server.{Input, step};
ghost use Rattle.qq_raft_model.specs.State.{Server};

use qq_raft_model::a_server_works_on_what_it_handed_out;

/// A law: what a step keeps of a server.
///
/// - `node`, `peers`: it is the same node, with the same peers in their order.
/// - `term`: its term doesn't fall.
/// - `changes`: it hands out no change, or one, with the next number.
pub fn a_step_keeps_the_node()
    ensures node { (s : Server) (input : Input) → (step s input).node ≡ s.node }
    ensures peers { (s : Server) (input : Input) →
        map (λ (p : Peer). p.node.0) (step s input).peers ≡ map (λ (p : Peer). p.node.0) s.peers }
    ensures term { (s : Server) (input : Input) → s.term.0 ≤ (step s input).term.0 }
    ensures changes { (s : Server) (input : Input) → ((step s input).ops ≡ s.ops)
        ⊎ ((op : Op) × ((step s input).op ≡ s.op + 1) × ((step s input).ops ≡ s.ops ++ op ∷ [])) }
{
    a_server_works_on_what_it_handed_out();
}
