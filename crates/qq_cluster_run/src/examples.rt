//! Worked scripts: what they print, letter by letter.
ghost use Rattle.std.specs.Prelude.{◌≡◌, ◌++◌, [], ℕ, List, None, codes};
ghost use Rattle.qq_base.specs.Fronts.{IsFront};
ghost use Rattle.qq_route.specs.declared.setup.Setup.{Setup};
ghost use Rattle.qq_words.specs.declared.options.Options.{Options};
ghost use Rattle.qq_cluster_run.specs.Printing.{IsQuiet};
ghost use Rattle.qq_cluster_run.specs.Runs.{BreaksOff, IsSetup};
ghost use Rattle.qq_cluster_run.specs.Statuses.{Had, Account, IsServed, IsRefused, IsReadFault, IsLimited, first_streams, last_streams};

use crate::setups::clusters_begin_with_new_logs;
use qq_cluster_model::{lines_settle, scripts_may_be_served};

/// A law: what scripts over one queue of one node print, over new logs, where no call of a disk fails and
/// nothing is restarted.
///
/// - `served`, `read`: all lines were served, so the answers stand there, and then the audit. Nothing is
///   unread.
/// - `refused`, `limited`: the second line ends the script, behind the first one's answer.
/// - `read_fault`, `read_whole`: the source fails behind a piece of the second line, or behind the first line's
///   line feed. The first one is answered.
/// - `cut`: of a run that breaks off, a first part of what it prints in all.
pub fn worked_scripts_print()
    ensures served { (options : Options) (s : Account) (done : IsServed options s) →
        options.definitions ≡ None → options.nodes ≡ 1 → options.group ≡ 3 → options.queues ≡ 1 →
        s.bytes ≡ codes "publish a\n" → IsQuiet done.over.served.behind →
        s.new ≡ s.old ++ (codes "confirmed 1\naudit q1 0 2\n1 1 noop 1 lead\n"
        ++ codes "2 1 enqueue 1 1 1 confirmed 1\n") }
    ensures read { (options : Options) (s : Account) → IsServed options s → s.rest ≡ [] }
    ensures refused { (options : Options) (s : Account) (so : IsRefused options s) →
        options.definitions ≡ None → options.nodes ≡ 1 → options.group ≡ 3 → options.queues ≡ 1 →
        s.bytes ≡ codes "publish a\npublish\n" →
        IsQuiet so.over.served.behind →
        s.new ≡ s.old ++ codes "confirmed 1\nline 2: words\n" }
    ensures limited { (options : Options) (s : Account) (so : IsLimited options s) →
        options.definitions ≡ None → options.nodes ≡ 1 → options.group ≡ 3 → options.queues ≡ 1 →
        s.bytes ≡ codes "publish a\npublish =65537\n" →
        IsQuiet so.over.served.behind →
        s.new ≡ s.old ++ codes "confirmed 1\nlimit body 65537\n" }
    ensures read_fault { (options : Options) (s : Account) (so : IsReadFault options s) →
        options.definitions ≡ None → options.nodes ≡ 1 → options.group ≡ 3 → options.queues ≡ 1 →
        s.bytes ≡ codes "publish a\npublish" → s.rest ≡ [] →
        IsQuiet so.over.served.behind → s.new ≡ s.old ++ codes "confirmed 1\nread fault\n" }
    ensures read_whole { (options : Options) (s : Account) (so : IsReadFault options s) →
        options.definitions ≡ None → options.nodes ≡ 1 → options.group ≡ 3 → options.queues ≡ 1 →
        s.bytes ≡ codes "publish a\n" → s.rest ≡ [] →
        IsQuiet so.over.served.behind → s.new ≡ s.old ++ codes "confirmed 1\nread fault\n" }
    ensures cut { (options : Options) (s : Account) (setup : Setup) → IsSetup options setup →
        (more : List ℕ)
        (so : BreaksOff (Had s) setup s.bytes (first_streams s) (last_streams s) more) →
        options.definitions ≡ None → options.nodes ≡ 1 → options.group ≡ 3 → options.queues ≡ 1 →
        s.bytes ≡ codes "publish a\n" → IsQuiet so.served.behind →
        (said : List ℕ) × (s.new ≡ s.old ++ (said ++ more))
        × IsFront said (codes "confirmed 1\naudit q1 0 2\n1 1 noop 1 lead\n"
        ++ codes "2 1 enqueue 1 1 1 confirmed 1\n") }
{
    clusters_begin_with_new_logs();
    lines_settle();
    scripts_may_be_served();
}
