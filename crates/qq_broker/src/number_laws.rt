//! What a number that stands at its end is of, as a law: the function does nothing, and its contract is the law.
ghost use Rattle.std.specs.Prelude.{◌≡◌, ◌≤◌, ◌<◌, ◌+◌, ◌-◌, ◌^◌, ◌⊎◌, ◌++◌, ℕ, false, List, None, Some, IsTrue, codes, drop, length, take};
ghost use Rattle.std.specs.Fmt.{decimal};
ghost use Rattle.std.specs.Io.KnownBytes.{Appends};
ghost use Rattle.qq_disk.specs.Disk.{Disk, IsListed, content, contents, now};
ghost use Rattle.qq_disk.specs.Image.{log_of};
ghost use Rattle.qq_entry.specs.declared.command.Command.{Command};
ghost use Rattle.qq_entry.specs.declared.command.Entry.{Entry};
ghost use Rattle.qq_model.specs.Audit.{state_after};
ghost use Rattle.qq_model.specs.State.{empty_queue, is_within_ends};
ghost use Rattle.qq_ports.specs.Streams.{Streams};
ghost use Rattle.qq_raft_model.specs.Group.{group_after};
ghost use Rattle.qq_raft_model.specs.Server.{Input, step};
ghost use Rattle.qq_raft_model.specs.State.{Server};
ghost use Rattle.qq_raft_protocol.specs.Facts.{In};
ghost use Rattle.qq_session.specs.Publishing.{open_commands};
ghost use Rattle.qq_route.specs.declared.setup.Setup.{Setup as ScriptSetup};
ghost use Rattle.qq_cluster_model.specs.Cluster.{ClusterEvent, Setup, cluster_after, new_cluster};
ghost use Rattle.qq_cluster_model.specs.Queue.{leader, submits};
ghost use Rattle.qq_cluster_laws.specs.Waiting.{all_waiting};
ghost use Rattle.qq_cluster_run.specs.Runs.{HasRun};
ghost use Rattle.qq_cluster_run.specs.Setup.{Logs, cluster_over};
ghost use Rattle.qq_cluster_run.specs.Troubles.{NumberEnds};
ghost use Rattle.qq_broker.specs.Lives.{Became, Giving};
ghost use Rattle.qq_broker.specs.Nodes.{Meets};
ghost use Rattle.qq_broker.specs.Takers.{RunClaims, RunMeets};
ghost use Rattle.qq_taker.specs.Takers.{Takers};
ghost use Rattle.qq_wal.specs.Batch.{encodings};
ghost use Rattle.qq_wal_chain.specs.Laws.{op_records};

use qq_disk::NodeDisk;

/// A law: what stands at its end where a run has met a number there, once some events have happened.
///
/// - `numbers`: a number of 2^63 or more is one of a queue, which is 2^63, or one of a node's files. In a queue the next
///   number of a session stands there; or the op, the term or the last index of a member that is up does; or on some
///   input such a member would commit entries that take a number of the queue past its end. A session's first open
///   commands may have been given again before. Of a node's disk, as the events have made it, the newest log file has
///   this number; or a log file has so many bytes with the first of the ops that wait at the node, and with a batch more
///   perhaps too many for 64 bits.
/// - `messages`: a smaller one is 2^32 - 1, and in some queue so many messages are on their way, or a member would send
///   more on some input.
/// - `run`: a run that ends with 20 has met a number at its end, which is 2^63 or more, or 2^32 - 1, and was printed last.
pub fn a_number_at_its_end_is_named<D: NodeDisk>()
    ensures numbers { (given : Giving D) (before after : ℕ) (setup : Setup)
        (events : List ClusterEvent) (n : ℕ) → 2 ^ 63 ≤ n →
        Meets given D.facts before after (NumberEnds setup events n) →
        ((place : ℕ) × In place setup.places × (n ≡ 2 ^ 63)
        × (let q = (cluster_after (new_cluster setup) events).queue place in (session : ℕ)
        × (((q.clients session).numbers.next ≡ 2 ^ 63)
        ⊎ ((again rest : List Command)
        × (open_commands (q.clients session).numbers ≡ again ++ rest)
        × (let g = group_after q.group (submits (leader q.group) again) in (k : ℕ)
        × ((s : Server) × ((g.seat k).server ≡ Some s)
        × ((s.op ≡ 2 ^ 63) ⊎ ((s.term.0 ≡ 2 ^ 63) ⊎ ((length s.log ≡ 2 ^ 63)
        ⊎ ((input : Input) × ((next more : List Entry)
        × (drop s.commit (take (step s input).commit (step s input).log) ≡ next ++ more)
        × (is_within_ends (state_after (empty_queue q.args)
        (take s.commit g.audit ++ next)) ≡ false))))))))))))
        ⊎ ((k : ℕ) × In k setup.nodes × ((last : D) × Became given D.facts setup events k last
        × ((IsTrue (D.facts.tells last) → IsListed (now (D.facts.past last)) (log_of n)
        × ((other : ℕ) → n < other → contents (now (D.facts.past last)) (log_of other) ≡ None))
        ⊎ (IsTrue (D.facts.tells last) → (file count : ℕ)
        × (n ≡ length (content (now (D.facts.past last)) (log_of file)) + length (encodings file
        (take count (op_records (all_waiting setup (cluster_after (new_cluster setup) events) k)))))
        × (2 ^ 64 - 1 < n + 4194304))))) }
    ensures messages { (given : Giving D) (before after : ℕ) (setup : Setup)
        (events : List ClusterEvent) (n : ℕ) → ((disk : D) → IsTrue (D.facts.tells disk)) →
        n < 2 ^ 63 → Meets given D.facts before after (NumberEnds setup events n) →
        ((place : ℕ) × In place setup.places × (n ≡ 2 ^ 32 - 1)
        × (let q = (cluster_after (new_cluster setup) events).queue place in (session : ℕ)
        × ((again rest : List Command)
        × (open_commands (q.clients session).numbers ≡ again ++ rest)
        × (let g = group_after q.group (submits (leader q.group) again) in
        (2 ^ 32 - 1 ≤ length g.bag) ⊎ ((k : ℕ) × ((s : Server) × ((g.seat k).server ≡ Some s)
        × ((input : Input) × (2 ^ 32 - 1 < length g.bag + length (step s input).out)))))))) }
    ensures run { (given : Giving D) (first last : Takers) (s : ScriptSetup)
        (begun ended : Streams) (bytes : List ℕ) (before after : ℕ) →
        begun.source.left ≡ Some bytes →
        HasRun 20 s begun ended (RunMeets given D.facts first before after)
        (RunClaims given D.facts first last) →
        (logs : Logs) × ((events : List ClusterEvent) × ((n : ℕ)
        × ((n ≡ 2 ^ 32 - 1) ⊎ (2 ^ 63 ≤ n))
        × Meets given D.facts before after (NumberEnds (cluster_over s logs) events n)
        × ((text : List ℕ) × Appends begun.sink.written ended.sink.written
        (text ++ (codes "spent " ++ decimal n ++ codes "\n"))))) }
{}
