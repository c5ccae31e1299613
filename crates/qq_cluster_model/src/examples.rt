//! Worked scripts: what they print, letter by letter.
ghost use Rattle.std.specs.Prelude.{◌≡◌, ◌++◌, codes};
ghost use Rattle.qq_cluster_model.specs.Example.{at_the_fault, at_the_taker, cut, cut_behind, first_given, in_order, kept_by_followers, missed, muted, opened, output, output_of, publish_and_get, replaced, settle_untaken, setup_of, subscribed_late, with_a_fault, with_a_taker};
ghost use Rattle.qq_cluster_model.specs.Cluster.{new_cluster};
ghost use Rattle.qq_cluster_model.specs.Lines.{IsRun};
ghost use Rattle.qq_cluster_model.specs.Serving.{all_given, all_synced};

use qq_raft_model::groups_are_opened;

/// A law: worked scripts of one node, of one with two queues, and of three nodes.
///
/// - `publish`: a message is published and got; then there is none.
/// - `kept`: a leader's message reaches both followers, and the leader crashes before it knows that.
///   One of them leads, and the message is there; to send it again is no second one.
/// - `replaced`: a leader's message reaches nobody else, and the leader crashes. Another one leads,
///   and the message is sent again; the first one restarts, and its own entry gives way.
/// - `muted`: a session publishes, and sends that twice again. Once it hears an answer, that is
///   printed once.
/// - `lost`, `first_kept`: a message to each of two queues is appended, the node crashes, and the
///   restart finds nothing of them, or the first one's. Sent again, each is confirmed.
/// - `fault`, `fault_run`: the disk fails at the sync of a message. The node stops, and a later command
///   finds no leader; the script asks for these events.
pub fn worked_scripts_print()
    ensures publish { output_of (setup_of 1 1) all_given publish_and_get
        ≡ codes "confirmed 1\nmessage 1 a\nempty\naudit q1 0 4\n1 1 noop 1 lead\n"
        ++ codes "2 1 enqueue 1 1 1 confirmed 1\n3 1 get 1 2 message 1\n4 1 get 1 3 empty\n" }
    ensures kept { output_of (setup_of 3 1) all_given kept_by_followers
        ≡ codes "confirmed 1\nmessage 1 b\naudit q1 0 5\n1 1 noop 1 lead\n"
        ++ codes "2 1 enqueue 1 1 1 confirmed 1\n3 2 noop 1 lead\n"
        ++ codes "4 2 enqueue 1 1 1 confirmed 1 again\n5 2 get 1 2 message 1\n" }
    ensures replaced { output_of (setup_of 3 1) all_given replaced
        ≡ codes "confirmed 1\nq1 1 follower term 2 last 3 commit 3\n"
        ++ codes "q1 2 leader term 2 last 3 commit 3\nq1 3 follower term 2 last 3 commit 3\n"
        ++ codes "audit q1 0 3\n1 1 noop 1 lead\n2 2 noop 1 lead\n"
        ++ codes "3 2 enqueue 1 1 1 confirmed 1\n" }
    ensures muted { output_of (setup_of 1 1) all_given muted
        ≡ codes "confirmed 1\naudit q1 0 4\n1 1 noop 1 lead\n2 1 enqueue 1 1 1 confirmed 1\n"
        ++ codes "3 1 enqueue 1 1 1 confirmed 1 again\n4 1 enqueue 1 1 1 confirmed 1 again\n" }
    ensures lost { output_of (setup_of 1 2) all_synced (cut_behind (cut 20))
        ≡ codes "confirmed 1\n1 q2: confirmed 1\naudit q1 0 3\n1 1 noop 1 lead\n2 2 noop 1 lead\n"
        ++ codes "3 2 enqueue 1 1 2 confirmed 1\naudit q2 0 3\n1 1 noop 1 lead\n2 2 noop 1 lead\n"
        ++ codes "3 2 enqueue 1 1 2 confirmed 1\n" }
    ensures first_kept { output_of (setup_of 1 2) first_given (cut_behind (cut 108))
        ≡ codes "confirmed 1\n1 q2: confirmed 1\naudit q1 0 4\n1 1 noop 1 lead\n"
        ++ codes "2 1 enqueue 1 1 2 confirmed 1\n3 2 noop 1 lead\n"
        ++ codes "4 2 enqueue 1 1 2 confirmed 1 again\naudit q2 0 3\n1 1 noop 1 lead\n"
        ++ codes "2 2 noop 1 lead\n3 2 enqueue 1 1 2 confirmed 1\n" }
    ensures fault { output (setup_of 1 1) (opened (setup_of 1 1) ++ at_the_fault)
        ≡ codes "node 1 stopped\nno leader q1\naudit q1 0 1\n1 1 noop 1 lead\n" }
    ensures fault_run { IsRun (setup_of 1 1) with_a_fault (new_cluster (setup_of 1 1))
        (opened (setup_of 1 1) ++ at_the_fault) }
{
    groups_are_opened();
}

/// A law: worked scripts of consumers.
///
/// - `missed`: a delivery that was lost on its way is fetched, and printed once.
/// - `untaken`: what wasn't handed out isn't settled.
/// - `in_order`: a delivery waits for the one before it, and may be settled once it was handed out.
/// - `late`: a consumer is handed a delivery before its session hears that it has subscribed.
pub fn worked_consumers_print()
    ensures missed { output_of (setup_of 1 1) all_given missed
        ≡ codes "2 q1: subscribed 1\nconfirmed 1\n2 q1: deliver 1 1 1 a\naudit q1 0 3\n"
        ++ codes "1 1 noop 1 lead\n2 1 subscribe 2 1 1 subscribed 1\n"
        ++ codes "3 1 enqueue 1 1 1 confirmed 1\n" }
    ensures untaken { output_of (setup_of 1 1) all_given settle_untaken
        ≡ codes "not taken 1\naudit q1 0 1\n1 1 noop 1 lead\n" }
    ensures in_order { output_of (setup_of 1 1) all_given in_order
        ≡ codes "2 q1: subscribed 1\nconfirmed 1\nconfirmed 2\n2 q1: not taken 2\n"
        ++ codes "2 q1: deliver 1 1 1 a\n2 q1: deliver 1 2 2 b\n2 q1: done\nconfirmed 3\n"
        ++ codes "2 q1: deliver 1 3 3 c\naudit q1 0 6\n1 1 noop 1 lead\n"
        ++ codes "2 1 subscribe 2 1 1 subscribed 1\n3 1 enqueue 1 1 1 confirmed 1\n"
        ++ codes "4 1 enqueue 1 2 1 confirmed 2\n5 1 settle 2 2 1 2 done\n"
        ++ codes "6 1 enqueue 1 3 1 confirmed 3\n" }
    ensures late { output_of (setup_of 1 1) all_given subscribed_late
        ≡ codes "confirmed 1\n2 q1: deliver 1 1 1 a\n2 q1: subscribed 1\naudit q1 0 4\n"
        ++ codes "1 1 noop 1 lead\n2 1 subscribe 2 1 1 subscribed 1\n"
        ++ codes "3 1 enqueue 1 1 1 confirmed 1\n4 1 subscribe 2 1 1 subscribed 1 again\n" }
{}

/// A law: a worked script of a taker. A consumer gets one, which settles its delivery as it comes; the consumer is
/// cancelled, and its taker dropped.
///
/// - `prints`: what that prints.
/// - `run`: the script asks for these events.
pub fn worked_takers_print()
    ensures prints { output (setup_of 1 1) (opened (setup_of 1 1) ++ at_the_taker)
        ≡ codes "subscribed 1\nconfirmed 2\ntaken 1 1 1 settle\ndone\ndone\ndropped 1\naudit q1 0 5\n"
        ++ codes "1 1 noop 1 lead\n2 1 subscribe 1 1 1 subscribed 1\n"
        ++ codes "3 1 enqueue 1 2 1 confirmed 2\n4 1 settle 1 3 1 1 done\n5 1 cancel 1 4 1 done\n" }
    ensures run { IsRun (setup_of 1 1) with_a_taker (new_cluster (setup_of 1 1))
        (opened (setup_of 1 1) ++ at_the_taker) }
{
    groups_are_opened();
}
