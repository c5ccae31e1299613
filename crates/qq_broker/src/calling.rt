//! A client's command at one queue, answered with data and not with text; and what a queue's leader
//! has.
ghost use Rattle.std.specs.Prelude.{◌≡◌, ◌<◌, ◌∷◌, [], List, Option, Some, IfErr, IfOk, IsOkUnless, OnOk};
ghost use Rattle.qq_cluster_model.specs.Counts.{counts};
ghost use Rattle.qq_cluster_model.specs.Rules.{IsGiven, IsPump, is_idle};
ghost use Rattle.qq_queue.specs.Range.{MayStamp};
ghost use Rattle.qq_cluster_run.specs.Named.{IsNamed, IsPlace};
ghost use Rattle.qq_cluster_run.specs.Serving.{Run, cluster_in, setup_in};
ghost use Rattle.qq_cluster.specs.Nodes.{CanServe, GaveUp, IsQueueAt};
ghost use Rattle.qq_script_lines.specs.declared.line.ScriptLine.TheVariants.{Client};
ghost use Rattle.qq_taker.specs.Takers.{take_heard};
ghost use Rattle.qq_broker.specs.Broker.{Runs};
ghost use Rattle.qq_broker.specs.Calling.{HasCalled, Hears, HearsCall, IsCallGivenUp, Sorts, StopsCall, handed_heard, outcome_heard, others_heard, rows_heard};
ghost use Rattle.qq_broker.specs.Lives.{Giving};
ghost use Rattle.qq_broker.specs.Nodes.{Meets};

use crate::broker::{Broker, Pumped, give_back, lend, pump_outcome};
use qq_base::{Memory, QueueId, SessionId};
use qq_cluster::{Nodes, Told};
use qq_cluster_model::who_listens_hears_what_is_told;
use qq_disk::NodeDisk;
use qq_entry::{AuditRow, Unstamped};
use qq_taker::{Desk, Handed, Heard, Refusal, Taker, What};
use std::alloc::Global;

/// What a call of a client's command came to.
#[derive(Drop)]
pub struct Called {
    /// Whether the command was given to the queue's leader.
    pub outcome: Result<(), Refusal>,
    /// The answers that this queue showed, each with its row.
    pub rows: Vec<AuditRow>,
    /// The deliveries that this queue handed out to consumers without a taker.
    pub effects: Vec<Handed>,
    /// What other queues showed in it, in order.
    pub others: Vec<Heard>,
    /// Whether work is left.
    pub pumped: Pumped,
}

impl Called {
    // What is heard is added where it belongs. A command that a queue refuses its takers is no
    // answer of the queue.
    fn add(&mut self, queue: QueueId, heard: Heard) -> Result<(), Memory>
        ensures ok { OnOk result (Sorts queue.0 (heard ∷ []) self.old self.new) }
        ensures want { IsOkUnless result Memory.Want }
    {
        if heard.queue.0 != queue.0 {
            self.others.push(heard)?;
            return Ok(());
        }
        match heard.what {
            What::Answer(row) => self.rows.push(row)?,
            What::Delivery(handed) => self.effects.push(handed)?,
            What::Refused { .. } => (),
        }
        Ok(())
    }

    // All that is heard is.
    fn add_all(&mut self, queue: QueueId, list: Vec<Heard>) -> Result<(), Memory>
        ensures ok { OnOk result (Sorts queue.0 list.items self.old self.new) }
        ensures want { IsOkUnless result Memory.Want }
    {
        'list: for heard in list {
            self.add(queue, heard)?;
        }
        Ok(())
    }
}

// Whether a command was given, by what is heard of it.
fn outcome_heard(list: &[Heard]) -> Result<(), Refusal>
    ensures { result ≡ outcome_heard list.now }
{
    'list: for heard in list {
        if let What::Refused { why, .. } = &heard.what {
            return Err(*why);
        }
    }
    Ok(())
}

// The answer of a call, by what was heard in its pump.
fn answer(
    alloc: Global,
    queue: QueueId,
    outcome: Result<(), Refusal>,
    pumped: Pumped,
    list: Vec<Heard>,
) -> Result<Called, Memory>
    ensures outcome { IfOk result (λ called. called.outcome ≡ outcome) }
    ensures rows { IfOk result (λ called. called.rows.items ≡ rows_heard queue.0 list.items) }
    ensures effects { IfOk result (λ called.
        called.effects.items ≡ handed_heard queue.0 list.items) }
    ensures others { IfOk result (λ called. called.others.items ≡ others_heard queue.0 list.items) }
    ensures pumped { IfOk result (λ called. called.pumped ≡ pumped) }
    ensures want { IsOkUnless result Memory.Want }
{
    let mut called = Called {
        outcome,
        rows: Vec::new(alloc),
        effects: Vec::new(alloc),
        others: Vec::new(alloc),
        pumped,
    };
    if let Err(memory) = called.add_all(queue, list) {
        drop(called);
        return Err(memory);
    }
    Ok(called)
}

// What was heard is taken out.
fn take_heard<T: Taker>(alloc: Global, told: &mut Told<T>) -> Vec<Heard>
    ensures heard { (list : List Heard) → told.old.takers.heard ≡ Some list → result.items ≡ list }
    ensures rest { told.new ≡ record told.old { takers = take_heard told.old.takers } }
{
    match told.take_heard(alloc) {
        Some(list) => list,
        None => Vec::new(alloc),
    }
}

// A command is given to its queue, and what is heard of it is taken out.
fn hand<D: NodeDisk, T: Taker>(
    alloc: Global,
    nodes: &mut Nodes<D>,
    queue: QueueId,
    session: u64,
    body: Unstamped,
    told: &mut Told<T>,
) -> Result<Vec<Heard>, Memory>
    requires serve { CanServe D.facts nodes.old }
    requires queue { IsQueueAt queue nodes.old }
    requires session { 0 < session }
    requires range { MayStamp body }
    ensures ok { IfOk result (λ list. Hears D.facts (λ setup. IsGiven session body queue.0)
        nodes.old nodes.new told.old told.new list.items) }
    ensures err { IfErr result (GaveUp D.facts (λ setup. IsGiven session body queue.0)
        nodes.old nodes.new) }
{
    match nodes.hand(alloc, queue, session, body, told) {
        Ok(()) => Ok(take_heard(alloc, told)),
        Err(memory) => Err(memory),
    }
}

// Nodes make rounds until nothing is left to do, and what is heard of that is taken out.
fn pump<D: NodeDisk, T: Taker>(
    alloc: Global,
    nodes: &mut Nodes<D>,
    told: &mut Told<T>,
) -> Result<Vec<Heard>, Memory>
    requires { CanServe D.facts nodes.old }
    ensures ok { IfOk result (λ list. Hears D.facts IsPump nodes.old nodes.new told.old
        told.new list.items) }
    ensures err { IfErr result (GaveUp D.facts IsPump nodes.old nodes.new) }
{
    match nodes.pump(alloc, told) {
        Ok(()) => Ok(take_heard(alloc, told)),
        Err(memory) => Err(memory),
    }
}

// A command is given to its queue, nodes make rounds, and what is heard of both is the answer.
fn hear_call<D: NodeDisk, T: Taker>(
    alloc: Global,
    nodes: &mut Nodes<D>,
    queue: QueueId,
    session: u64,
    body: Unstamped,
    told: &mut Told<T>,
) -> Result<Called, Memory>
    requires serve { CanServe D.facts nodes.old }
    requires queue { IsQueueAt queue nodes.old }
    requires session { 0 < session }
    requires range { MayStamp body }
    ensures ok { IfOk result (HearsCall D.facts session body queue.0 nodes.old nodes.new
        told.old told.new) }
    ensures err { IfErr result (StopsCall D.facts session body queue.0 nodes.old) }
{
    let asked = hand(alloc, nodes, queue, session, body, told)?;
    let outcome = outcome_heard(asked.as_slice());
    drop(asked);
    let list = pump(alloc, nodes, told)?;
    let idle = nodes.is_idle();
    match answer(alloc, queue, outcome, pump_outcome(idle), list) {
        Ok(called) => Ok(called),
        Err(memory) => Err(memory),
    }
}

impl<D: NodeDisk> Broker<D> {
    /// Gives a client's command to its queue, and makes rounds until nothing is left to do, 10,000
    /// at most, whatever the pace. The command gets the next number of its session at the queue.
    ///
    /// These takers see what is handed out to their consumers. Nothing of the call is printed, and
    /// who listened to the takers before hears nothing of it.
    ///
    /// - `ok`: what happened is that the command was given, and what the line `pump` allows; the
    ///   answer is what a listener hears of both.
    /// - `heard`, `text`: at an error too.
    /// - `cause`: there was no memory, or in the midst of it a number stands at its end.
    pub fn call<T: Taker>(
        &mut self,
        alloc: Global,
        session: SessionId,
        queue: QueueId,
        body: Unstamped,
        takers: &mut Desk<T>,
    ) -> Result<Called, Memory>
        requires { (given : Giving D) × ((run : Run)
            × Runs given D.facts self.old run
            × IsNamed (setup_in self.old.setup run) (Client session queue body)) }
        ensures ok { (given : Giving D) (run : Run) →
            Runs given D.facts self.old run →
            IfOk result (HasCalled given D.facts self.old self.new run session queue body
            takers.old takers.new) }
        ensures heard { takers.new.heard ≡ takers.old.heard }
        ensures text { self.new.text ≡ self.old.text }
        ensures setup { self.new.setup ≡ self.old.setup }
        ensures cause { (given : Giving D) (run : Run) →
            Runs given D.facts self.old run → IfErr result (IsCallGivenUp (Meets given D.facts 0 0)
            (setup_in self.old.setup run) run.events session.number body queue.0) }
    {
        who_listens_hears_what_is_told();
        let mut text = Vec::new(alloc);
        let before = takers.hear_on(Some(Vec::new(alloc)));
        let mut told = lend(alloc, &mut text, takers);
        let called = hear_call(
            alloc,
            &mut self.nodes,
            queue,
            session.number,
            body,
            &mut told,
        );
        give_back(told, &mut text, takers);
        drop(text);
        drop(takers.hear_on(before));
        called
    }

    /// How many messages are ready at a queue's leader, and how many of its consumers weren't
    /// cancelled. None exactly where no leader is ready.
    pub fn counts(&self, queue: QueueId) -> Option<(u64, u32)>
        requires { (given : Giving D) × ((run : Run)
            × Runs given D.facts self.now run × IsPlace (setup_in self.now.setup run) queue) }
        ensures { (given : Giving D) (run : Run) →
            Runs given D.facts self.now run →
            result ≡ counts ((cluster_in self.now.setup run).queue queue.0) }
    {
        self.nodes.counts(queue)
    }
}
