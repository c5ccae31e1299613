//! Laws of what comes of an opening and of a line where nothing fails: the functions do nothing, and their contracts
//! are the laws.
ghost use Rattle.std.specs.Prelude.{◌≡◌, ◌≢◌, ◌≤◌, ◌+◌, ◌∷◌, [], ℕ, List, None, Some, true, false, length};
ghost use Rattle.qq_base.specs.declared.ids.NodeId.{NodeId};
ghost use Rattle.qq_base.specs.declared.ids.QueueId.{QueueId};
ghost use Rattle.qq_base.specs.declared.ids.SessionId.{SessionId};
ghost use Rattle.qq_entry.specs.Message.{new_message};
ghost use Rattle.qq_entry.specs.declared.command.Unstamped.{Unstamped};
ghost use Rattle.qq_entry.specs.declared.command.Unstamped.TheVariants.{Enqueue};
ghost use Rattle.qq_raft_model.specs.declared.peer.Peer.{Peer};
ghost use Rattle.qq_raft_model.specs.Group.{has_node};
ghost use Rattle.qq_raft_model.specs.Server.{is_ready};
ghost use Rattle.qq_raft_model.specs.State.{Server};
ghost use Rattle.qq_raft_protocol.specs.Facts.{In};
ghost use Rattle.qq_script_lines.specs.declared.line.ScriptLine.TheVariants.{Client, Publish, Send};
ghost use Rattle.qq_cluster_model.specs.Cluster.{ClusterEvent, Setup, cluster_after, new_cluster};
ghost use Rattle.qq_cluster_model.specs.ClusterLaws.{HasGroups, has_failure};
ghost use Rattle.qq_cluster_model.specs.Example.{setup_of};
ghost use Rattle.qq_cluster_model.specs.Queue.{leader};
ghost use Rattle.qq_cluster_model.specs.Rules.{IsOpening, is_idle};
ghost use Rattle.qq_cluster_progress_laws.specs.Opened.{AreNewGroups};
ghost use Rattle.qq_cluster_progress_laws.specs.Soon.{AreNodes, AreOnce, GivesOne};

use qq_cluster_progress_laws::an_opening_gives_each_queue_a_leader;

/// A law: after an opening over new disks on which no call fails each node is up and nothing is left to do. A queue's
/// first member leads and takes commands. Each member is up, its log is the leader's, and its term no later; the leader
/// sends each other member the entry after its last one next.
pub fn an_opening_leaves_one_log()
    ensures { (setup : Setup) (events : List ClusterEvent) (place : ℕ) → HasGroups setup →
        AreOnce setup.places → AreOnce setup.nodes → AreNodes setup → AreNewGroups setup →
        IsOpening setup (new_cluster setup) events → has_failure events ≡ false →
        In place setup.places → let c = cluster_after (new_cluster setup) events in
        let g = (c.queue place).group in
        (first : NodeId) × (others : List NodeId) × (s : Server)
        × (is_idle setup c ≡ true) × ((k : ℕ) → In k setup.nodes → c.up k ≡ true)
        × ((setup.group place).nodes ≡ first ∷ others)
        × (leader g ≡ Some first.0) × ((g.seat first.0).server ≡ Some s) × (is_ready s ≡ true)
        × ((j : ℕ) → has_node j (setup.group place).nodes ≡ true → (t : Server)
        × (c.up j ≡ true) × ((g.seat j).server ≡ Some t) × (t.log ≡ s.log)
        × (t.term.0 ≤ s.term.0) × ((x : Peer) → j ≢ first.0 → In x s.peers → x.node.0 ≡ j →
        x.next ≡ length s.log + 1)) }
{
    an_opening_gives_each_queue_a_leader();
}

/// A law: what progress rests on can be met.
///
/// - `publish`, `send`, `client`: a message of session 1, or of a named one, that is routed to one queue is one command
///   for that queue, and so is a client's command for it.
/// - `new`: four nodes with two queues, of three members each, are such a setup over new disks.
pub fn a_line_gives_one_command()
    ensures publish { (setup : Setup) (place : ℕ) (body : List ℕ) →
        setup.targets [] (setup.name setup.first) ≡ place ∷ [] →
        GivesOne setup (Publish body) 1 place (Enqueue None (new_message
        (record { body = body; key = setup.name setup.first; deaths = [] }))) }
    ensures send { (setup : Setup) (place : ℕ) (by : SessionId) (exchange key body : List ℕ) →
        setup.targets exchange key ≡ place ∷ [] →
        GivesOne setup (Send by exchange key body) by.number place
        (Enqueue None (new_message (record { body = body; key = key; deaths = [] }))) }
    ensures client { (setup : Setup) (by : SessionId) (at : QueueId) (body : Unstamped) →
        GivesOne setup (Client by at body) by.number at.0 body }
    ensures new { AreOnce (setup_of 4 2).places × AreOnce (setup_of 4 2).nodes
        × AreNodes (setup_of 4 2) × AreNewGroups (setup_of 4 2) }
{}
