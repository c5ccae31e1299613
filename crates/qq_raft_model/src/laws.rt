//! Laws: what a server does is the protocol's.
ghost use Rattle.std.specs.Prelude.{◌≡◌, ◌≤◌, ◌<◌, List, ◌++◌, ℕ, Some, take, true, false};
ghost use Rattle.qq_base.specs.declared.ids.NodeId.{NodeId};
ghost use Rattle.qq_entry.specs.declared.command.Command.{Command};
ghost use Rattle.qq_log.specs.declared.lane.Lane.{Lane};
ghost use Rattle.qq_log.specs.declared.op.Op.{Op};
ghost use Rattle.qq_log.specs.Stable.{stable};
ghost use Rattle.qq_raft_protocol.specs.Facts.{In};
ghost use Rattle.qq_raft_protocol.specs.Moves.Move.{Restart};
ghost use Rattle.qq_raft_protocol.specs.Moves.{after, run};
ghost use Rattle.qq_raft_protocol.specs.World.{Ack, World};
ghost use Rattle.qq_raft_msg.specs.declared.rpc.AppendMsg.{AppendMsg};
ghost use Rattle.qq_raft_msg.specs.declared.rpc.AppendedMsg.{AppendedMsg};
ghost use Rattle.qq_raft_msg.specs.declared.rpc.Rpc.{Rpc};
ghost use Rattle.qq_raft_msg.specs.declared.rpc.Rpc.TheVariants.{Vote, Voted, Append, Appended};
ghost use Rattle.qq_raft_msg.specs.declared.rpc.VoteMsg.{VoteMsg};
ghost use Rattle.qq_raft_msg.specs.declared.rpc.VotedMsg.{VotedMsg};
ghost use Rattle.qq_raft_msg.specs.declared.state.Role.TheVariants.{Leader};
ghost use Rattle.qq_raft_model.specs.declared.peer.Peer.{Peer};
ghost use Rattle.qq_raft_model.specs.Leading.{flush};
ghost use Rattle.qq_raft_model.specs.Handing.{Continues, lane_in, plain_state, state_of};
ghost use Rattle.qq_raft_model.specs.Refines.{IsOnItsWay, IsReached, IsGroup, IsWithinLog, AcksItself, MayCome, Stands, OnlyMoves, Refines, RefinesBy, disk_lane, lane_of};
ghost use Rattle.qq_raft_model.specs.Server.{Input, receive, tick, notice, step, restart};
ghost use Rattle.qq_raft_model.specs.Server.Input.{Add, Submit};
ghost use Rattle.qq_raft_model.specs.State.{Server, is_leader, last};

/// A law: what a server does with a request for its vote is moves of the protocol, which allows them.
pub fn a_request_for_a_vote_is_answered_by_moves()
    ensures { (members : List ℕ) (w : World) (k : ℕ) (s : Server) (m : VoteMsg) → Stands w k s →
        IsOnItsWay w (Vote m) → Refines members w k (receive (Vote m) s) }
{}

/// A law: what a server of a group does with a vote is moves of the protocol, which allows them, in each world
/// that the protocol can come to. It may be that it leads then, and sends its first entry.
pub fn a_vote_is_counted_by_moves()
    ensures { (members : List ℕ) (w : World) (k : ℕ) (s : Server) (m : VotedMsg) →
        IsReached members w → IsGroup members k s.peers → Stands w k s → m.to.0 ≡ k →
        IsOnItsWay w (Voted m) → Refines members w k (receive (Voted m) s) }
{}

/// A law: what a server does with entries that a leader sent, or doesn't do, is moves of the protocol, which
/// allows them, in each world that the protocol can come to.
pub fn sent_entries_are_taken_by_moves()
    ensures { (members : List ℕ) (w : World) (k : ℕ) (s : Server) (m : AppendMsg) →
        IsReached members w → Stands w k s → IsOnItsWay w (Append m) →
        Refines members w k (receive (Append m) s) }
{}

/// A law: a server that doesn't lead and is ticked stands for election by a move of the protocol.
pub fn standing_is_a_move()
    ensures { (members : List ℕ) (w : World) (k : ℕ) (s : Server) → Stands w k s →
        is_leader s.role ≡ false → Refines members w k (tick s) }
{}

/// A law: a leader that is ticked sends, and a server that gets a command adds it where it is ready, by moves
/// of the protocol.
pub fn a_leader_sends_and_adds_by_moves()
    ensures tick { (members : List ℕ) (w : World) (k : ℕ) (s : Server) → IsReached members w →
        Stands w k s → is_leader s.role ≡ true → Refines members w k (tick s) }
    ensures submit { (members : List ℕ) (w : World) (k : ℕ) (s : Server) (time : ℕ)
        (command : Command) → IsReached members w → Stands w k s →
        RefinesBy members w k s (Submit time command) }
    ensures add { (members : List ℕ) (w : World) (k : ℕ) (s : Server) (time : ℕ)
        (command : Command) → Stands w k s → RefinesBy members w k s (Add time command) }
    ensures flush { (members : List ℕ) (w : World) (k : ℕ) (s : Server) → IsReached members w →
        Stands w k s → Refines members w k (flush s) }
{}

/// A law: a server of a group takes an acknowledgement by moves of the protocol. A leader sends what is left
/// and commits what a majority has by them.
pub fn an_acknowledgement_is_counted_by_moves()
    ensures { (members : List ℕ) (w : World) (k : ℕ) (s : Server) (m : AppendedMsg) →
        IsReached members w → IsGroup members k s.peers → Stands w k s → IsOnItsWay w (Appended m) →
        Refines members w k (receive (Appended m) s) }
{}

/// A law: a server of a group that is told up to which change its disk is durable notices it by moves of the
/// protocol. By then a candidate may lead, and a leader commits what a majority has.
pub fn what_is_durable_is_noticed_by_moves()
    ensures { (members : List ℕ) (w : World) (k : ℕ) (s : Server) (op : ℕ) → IsReached members w →
        IsGroup members k s.peers → Stands w k s → op ≤ s.op → Refines members w k (notice op s) }
{}

/// A law: a leader keeps what it may send, and what it knows its peers to have, within its log; each entry of
/// its term is acknowledged by itself; and no acknowledgement of its term passes its log.
pub fn a_leader_keeps_to_its_log()
    ensures within { (w : World) (k : ℕ) (s : Server) → Stands w k s → s.role ≡ Leader
        → IsWithinLog s }
    ensures itself { (w : World) (k : ℕ) (s : Server) → Stands w k s → s.role ≡ Leader →
        AcksItself w.acks k s }
    ensures acks { (members : List ℕ) (w : World) (k : ℕ) (s : Server) (x : Ack) →
        IsReached members w → Stands w k s → s.role ≡ Leader → In x w.acks → x.term ≡ s.term.0 →
        x.upto ≤ last s }
{}

/// A law: once a leader has flushed, each peer was sent its last entry.
pub fn a_flush_leaves_nothing_to_send()
    ensures { (s : Server) (p : Peer) → is_leader s.role ≡ true →
        ((q : Peer) → In q s.peers → 1 ≤ q.next) → In p (flush s).peers → last s < p.next }
{}

/// A law: whatever comes to a server of a group, what it does is moves of the protocol, which allows them, in
/// each world that the protocol can come to. The moves add no entry but a new leader's first one, and the
/// command that a ready leader was given.
pub fn each_step_is_moves()
    ensures { (members : List ℕ) (w : World) (k : ℕ) (s : Server) (input : Input) →
        IsReached members w → IsGroup members k s.peers → Stands w k s → MayCome w k s input →
        RefinesBy members w k s input }
{}

/// A law: a step keeps the node and its peers, its term doesn't fall, and it hands out one change at most. So
/// what a server works on is what all that it handed out comes to, from a restart on, and that is the lane by
/// which it stands for a member.
pub fn a_server_works_on_what_it_handed_out()
    ensures one { (s : Server) (input : Input) → Continues s (step s input) }
    ensures step { (ops : List Op) (s : Server) (input : Input) →
        stable (ops ++ s.ops) ≡ Some (state_of s) →
        stable (ops ++ (step s input).ops) ≡ Some (state_of (step s input)) }
    ensures restart { (ops : List Op) (node : NodeId) (nodes : List NodeId) (lane : Lane) →
        stable ops ≡ Some (plain_state lane.op lane.term lane.vote lane.entries) →
        stable (ops ++ (restart node nodes lane).ops) ≡ Some (state_of (restart node nodes lane)) }
    ensures lane { (s : Server) → lane_in (state_of s) ≡ lane_of s }
{}

/// A law: a server that restarts with a lane that isn't older than what was noticed stands for its member
/// after the protocol's move. The others stand as before, and what is on its way stays so.
pub fn a_restart_is_a_move()
    ensures stand { (w : World) (k : ℕ) (node : NodeId) (nodes : List NodeId) (lane : Lane) →
        node.0 ≡ k → Stands (after w (Restart k (disk_lane lane))) k (restart node nodes lane) }
    ensures others { (w : World) (k q : ℕ) (lane : Lane) (s : Server) →
        (w.member k).noticed ≤ lane.op → (q ≡ k → ⊥) → Stands w q s →
        Stands (after w (Restart k (disk_lane lane))) q s }
    ensures way { (w : World) (k : ℕ) (lane : Lane) (r : Rpc) →
        (w.member k).noticed ≤ lane.op → IsOnItsWay w r →
        IsOnItsWay (after w (Restart k (disk_lane lane))) r }
{}

/// A law: while one member moves, the servers of the others stand for their members as before, and the
/// messages on their way stay so.
pub fn a_step_of_one_leaves_the_others()
    ensures stand { (k q : ℕ) (w v : World) (s : Server) → OnlyMoves k w v → (q ≡ k → ⊥) →
        Stands w q s → Stands v q s }
    ensures way { (k : ℕ) (w v : World) (r : Rpc) → OnlyMoves k w v → IsOnItsWay w r →
        IsOnItsWay v r }
{}

/// A law: of servers that stand for members of a world that the protocol can come to, at most one leads a
/// term, and what two of them know to be committed is the same as far as both know it. What a server does is
/// moves to such a world again.
pub fn servers_that_stand_agree()
    ensures leader { (members : List ℕ) (w : World) (p q : ℕ) (s t : Server) →
        IsReached members w → Stands w p s → Stands w q t → s.role ≡ Leader → t.role ≡ Leader →
        s.term.0 ≡ t.term.0 → p ≡ q }
    ensures committed { (members : List ℕ) (w : World) (p q : ℕ) (s t : Server) →
        IsReached members w → Stands w p s → Stands w q t → s.commit ≤ t.commit →
        take s.commit s.log ≡ take s.commit t.log }
    ensures later { (members : List ℕ) (w : World) (k : ℕ) (s : Server) → IsReached members w →
        (r : Refines members w k s) → IsReached members (run w r.moves) }
{}
