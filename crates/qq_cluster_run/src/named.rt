//! What lines that are read say, as laws: the functions do nothing, and their contracts are the laws.
ghost use Rattle.std.specs.Prelude.{◌≡◌, [], ℕ, List, Ok, Err, codes, replicate};
ghost use Rattle.qq_base.specs.Ids.{client};
ghost use Rattle.qq_defs.specs.Runnable.{IsRunnable};
ghost use Rattle.qq_route.specs.Setup.{state_of};
ghost use Rattle.qq_route.specs.declared.setup.Setup.{Setup};
ghost use Rattle.qq_script_lines.specs.declared.fault.ScriptFault.TheVariants.{Words, Number, Body};
ghost use Rattle.qq_script_lines.specs.declared.line.ScriptLine.{ScriptLine};
ghost use Rattle.qq_script_lines.specs.declared.line.ScriptLine.TheVariants.{Send};
ghost use Rattle.qq_cluster_run.specs.Named.{AreRows, IsNamed};
ghost use Rattle.qq_cluster_run.specs.Reading.{read_line};
ghost use Rattle.qq_cluster_run.specs.Setup.{Logs, cluster_over};

/// A law: a line that is read names queues and nodes of the cluster, members of a queue's group where it is
/// about one, and clients' sessions from 1; and each command and body that it sends is in range. Premise: each
/// queue is found by its number, and the first one's name is a routing key, as in the setup of a run.
pub fn a_line_names_what_is_there()
    ensures named { (s : Setup) (logs : Logs) (number : ℕ) (line : List ℕ) (said : ScriptLine) →
        AreRows s.queues → read_line s number line ≡ Ok said →
        IsNamed (cluster_over s logs) said }
    ensures runnable { (s : Setup) → IsRunnable (state_of s) → AreRows s.queues }
{}

/// A law: a message to an exchange or a queue that isn't there is no fault of its line. Its words come first,
/// then its numbers, and last the length of its body.
pub fn a_message_may_go_nowhere()
    ensures exchange { (s : Setup) → read_line s 1 (codes "send 1 logs q1 a")
        ≡ Ok (Send (client 1) (codes "logs") (codes "q1") (codes "a")) }
    ensures queue { (s : Setup) → read_line s 1 (codes "send 1 - q9 a")
        ≡ Ok (Send (client 1) [] (codes "q9") (codes "a")) }
    ensures words { (s : Setup) → read_line s 1 (codes "send x logs q9") ≡ Err Words }
    ensures number { (s : Setup) → read_line s 1 (codes "send x logs q9 =65537") ≡ Err Number }
    ensures body { (s : Setup) →
        read_line s 1 (codes "send 1 logs q9 =65537") ≡ Err (Body 65537) }
    ensures longest { (s : Setup) → read_line s 1 (codes "send 1 - q2 =65536")
        ≡ Ok (Send (client 1) [] (codes "q2") (replicate 65536 120)) }
{}
