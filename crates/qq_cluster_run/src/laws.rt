//! Laws of runs: the functions do nothing, and their contracts are the laws.
ghost use Rattle.std.specs.Prelude.{◌≡◌, ◌⊎◌, ◌≤◌, ◌<◌, ◌+◌, ◌++◌, [], ℕ, List, false, codes, Contains};
ghost use Rattle.std.specs.Fmt.{decimal};
ghost use Rattle.qq_ports.specs.Streams.{ShelfState};
ghost use Rattle.qq_route.specs.declared.setup.Setup.{Setup};
ghost use Rattle.qq_words.specs.declared.options.Options.{Options};
ghost use Rattle.qq_cluster_model.specs.Cluster.{ClusterEvent, Setup as ClusterSetup};
ghost use Rattle.qq_cluster_model.specs.ClusterLaws.{PrintsWhatIsTrue, has_failure, findings, verdicts};
ghost use Rattle.qq_cluster_run.specs.Endings.{usage};
ghost use Rattle.qq_cluster_run.specs.Inputs.{Input, inputs_of};
ghost use Rattle.qq_cluster_run.specs.Printing.{HasNoFault};
ghost use Rattle.qq_cluster_run.specs.Reading.{Ends, read_input, says_by, says};
ghost use Rattle.qq_cluster_run.specs.Serving.{AnyDisks, Behind, audits_behind, setup_behind, text_behind};
ghost use Rattle.qq_cluster_run.specs.Statuses.{Had, Account, HasEnded, HasEndedAtWords, Told};
ghost use Rattle.qq_cluster_run.specs.Runs.{IsSetup};
ghost use Rattle.qq_cluster_run.specs.Troubles.{TakerIsGone};

use qq_cluster_model::{a_cluster_prints_what_is_true, lines_settle};

/// A law: what an exit status says of a run, where source and sink show their bytes.
///
/// - `told`: 0, all lines were served, and after their text stand the audits. 4, some lines were served,
///   and the next one is refused by its number and its fault, or since no taker is there that it is to give.
///   5, the source has failed, and all lines that end within what was read were served. 6, the sink has
///   failed, and what it has is a first part of what is printed. 7, the yard has failed at the opening or at
///   a crash, or each node's disk has at the opening. 8, nodes were recovered in order, at the opening or at
///   a restart, and the log files of the printed one break the rules at the printed place. 9, at the opening
///   what recovery reads of a queue supports no audit, or at a restart it finds of a queue what its member
///   may not take up. 11, the next line is behind the 10,000,000th, or its body is too long. 12, there was no
///   memory, and what was written is a first part of what is printed, and then `memory`. 20, in the midst of
///   a line or of the opening the printed number would rise, and stands at its end, 2^63 or more, or the most
///   messages that a bag holds. There is no other status.
/// - `usage`: nothing was read, and the usage was printed.
pub fn a_status_tells_what_was_done()
    ensures told { (status : ℕ) (options : Options) (s : Account) → HasEnded status options s
        → Told status options s }
    ensures usage { (first last : ShelfState) (s : Account) → HasEndedAtWords 2 first last s →
        (s.rest ≡ s.bytes) × (s.new ≡ s.old ++ usage.text) }
{}

/// A law: where each line asks for something, and neither the source nor the sink has failed,
///
/// - `served`: a script ends with status 0, unless a taker that is to be given isn't there, the yard, a disk or what
///   it holds stops it, there is no memory, or a number stands at its end;
/// - `fine`: and where none of these troubles was met either, with 0, or since there was no memory;
/// - `printed`: of a script that ends with 0 all lines were served, by events that the disks had and that are all that
///   happened, and their text and then the audits were printed.
pub fn scripts_are_served()
    ensures served { (status : ℕ) (options : Options) (s : Account) → HasEnded status options s
        → HasNoFault options s → (status ≡ 0) ⊎ (((status ≡ 4)
        × ((setup : ClusterSetup) × ((events : List ClusterEvent) × ((number : ℕ)
        × Contains s.troubles (TakerIsGone setup events number)))))
        ⊎ ((status ≡ 7) ⊎ ((status ≡ 8) ⊎ ((status ≡ 9) ⊎ ((status ≡ 12) ⊎ (status ≡ 20)))))) }
    ensures fine { (status : ℕ) (options : Options) (s : Account) → HasEnded status options s
        → HasNoFault options s → s.troubles ≡ [] → (status ≡ 0) ⊎ (status ≡ 12) }
    ensures printed { (options : Options) (s : Account) → HasEnded 0 options s →
        (setup : Setup) × IsSetup options setup
        × ((b : Behind (Had s) setup (inputs_of s.bytes) []) × (s.rest ≡ [])
        × Contains s.histories (setup_behind b, b.events)
        × Contains s.courses (setup_behind b, b.events)
        × (s.new ≡ s.old ++ (text_behind b ++ audits_behind b))) }
{}

/// A law: where a script ends with 0, with 4 or 11 by its next line, or with 5 since the source has failed, nothing has
/// happened but what served its first lines, and their text was printed.
pub fn ended_scripts_did_what_they_print()
    ensures { (status : ℕ) (options : Options) (s : Account) → HasEnded status options s →
        (status ≡ 0) ⊎ ((status ≡ 4) ⊎ ((status ≡ 5) ⊎ (status ≡ 11))) →
        (setup : Setup) × IsSetup options setup × ((left : List Input)
        × ((b : Behind (Had s) setup (inputs_of s.bytes) left)
        × Contains s.courses (setup_behind b, b.events)
        × ((said : List ℕ) × (s.new ≡ s.old ++ (text_behind b ++ said))))) }
{}

/// A law: each answer that was printed is that of a row of its queue's audit, and what was printed as `confirmed`
/// has exactly one publish of its session and number there.
pub fn what_was_printed_is_true()
    ensures { (s : Setup) (all left : List Input) (b : Behind AnyDisks s all left) →
        PrintsWhatIsTrue (setup_behind b) b.events }
{
    a_cluster_prints_what_is_true();
}

/// A law: what happens in a run over all its lines is a function of these, where the logs held the same at first
/// and no call of a disk fails, but for what restarts have found and what takers have answered.
pub fn runs_settle()
    ensures { (s : Setup) (all : List Input) (b c : Behind AnyDisks s all []) →
        b.logs ≡ c.logs → has_failure b.events ≡ false → has_failure c.events ≡ false →
        findings b.events ≡ findings c.events → verdicts b.events ≡ verdicts c.events →
        b.events ≡ c.events }
{
    lines_settle();
}

/// A law: a script may have 10,000,000 lines. Behind them each line ends it, whatever it says; before, each line is
/// served as it reads.
pub fn a_script_has_ten_million_lines()
    ensures past { (s : Setup) (before : ℕ) (input : Input) → 10000000 ≤ before
        → says s before input
        ≡ Ends (record {
          status = 11;
          text = codes "limit lines " ++ decimal 10000001 ++ codes "\n";
        }) }
    ensures within { (s : Setup) (before : ℕ) (input : Input) → before < 10000000 →
        says s before input ≡ says_by (before + 1) (read_input s (before + 1) input) }
{}
