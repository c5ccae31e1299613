//! A drill, step by step.
ghost use Rattle.std.specs.Prelude.{◌≡◌, ◌<◌, ◌++◌, IfOk, OnErr, OnOk, IsOkUnless};
ghost use Rattle.qq_drill.specs.Drill.{after_by, after_step, crashed_by, hear, is_side_of, is_sixteenth, last_restart, lines_by, new_drill, step_lines};

use crate::draw::{Deed, Draw, draw_of, drawn, next_x};
use crate::lines;
pub use crate::side::Held;
use crate::side::{Side, end_at, held_at, hold_at, new_sides, subscribe_at, tags_at};
use qq_base::{ConsumerId, Memory, NodeId, SessionId};
use qq_script_lines::ScriptLine;
use std::alloc::Global;
use std::marker::Model;

/// A drill: what it has drawn, which node is down, and what it knows of its four queues.
///
/// Each queue has two sessions: those with the queue's number publish and get, and those with that and 10 consume.
#[derive(Drop)]
pub struct Drill {
    x: u64,
    nodes: u8,
    crashed: Option<NodeId>,
    sides: Vec<Side>,
}

impl Model for Drill {
    ghost use Rattle.qq_drill.specs.Drill.{Drill, drill_of};

    ghost Value = { Drill };

    ghost view = { λ d. drill_of d.x d.nodes d.crashed d.sides.items };
}

fn crashed_by(draw: Draw, crashed: Option<NodeId>) -> Option<NodeId>
    ensures { result ≡ crashed_by draw crashed }
{
    match crashed {
        Some(_) => None,
        None => Some(NodeId(draw.node)),
    }
}

fn is_side_of(consumer: ConsumerId, queue: u32) -> bool
    ensures { result ≡ is_side_of consumer queue }
{
    consumer.session == SessionId::client(10 + u64::from(queue))
}

/// Whether all sessions send again after the step of this number.
pub fn is_sixteenth(number: u32) -> bool
    ensures { result ≡ is_sixteenth number }
{
    number % 16 == 0
}

impl Drill {
    /// The drill of a number, over so many nodes.
    pub fn new(alloc: Global, number: u64, nodes: u8) -> Result<Self, Memory>
        ensures ok { IfOk result (λ drill. drill ≡ new_drill number nodes) }
        ensures want { IsOkUnless result Memory.Want }
    {
        let sides = new_sides(alloc)?;
        Ok(Drill {
            x: number,
            nodes,
            crashed: None,
            sides,
        })
    }

    fn lines_by(
        &self,
        alloc: Global,
        out: &mut Vec<ScriptLine>,
        number: u32,
        draw: Draw,
    ) -> Result<(), Memory>
        requires { 0 < self.now.nodes }
        ensures ok { OnOk result (out.new.items
            ≡ out.old.items ++ lines_by draw.deed number draw self.now) }
        ensures want { IsOkUnless result Memory.Want }
    {
        let queue = draw.queue;
        match draw.deed {
            Deed::Sends => lines::send(alloc, out, number, queue),
            Deed::Gets => lines::get(out, queue),
            Deed::Subscribes => lines::subscribe(out, queue, tags_at(&self.sides, queue)),
            Deed::Settles => lines::end_first(
                alloc,
                out,
                false,
                queue,
                held_at(&self.sides, queue),
            ),
            Deed::Returns => lines::end_first(alloc, out, true, queue, held_at(&self.sides, queue)),
            Deed::Crashes => lines::crash(alloc, out, number, draw, self.crashed),
            Deed::Ticks => lines::tick(alloc, out, draw, self.nodes, self.crashed),
        }
    }

    fn after_by(&mut self, draw: Draw)
        ensures after { self.new ≡ after_by draw.deed draw self.old }
        ensures nodes { self.new.nodes ≡ self.old.nodes }
    {
        match draw.deed {
            Deed::Sends => {}
            Deed::Gets => {}
            Deed::Subscribes => subscribe_at(&mut self.sides, draw.queue),
            Deed::Settles => end_at(&mut self.sides, draw.queue),
            Deed::Returns => end_at(&mut self.sides, draw.queue),
            Deed::Crashes => self.crashed = crashed_by(draw, self.crashed),
            Deed::Ticks => {}
        }
    }

    /// The lines of the next step, which is the one of this number, from 1.
    ///
    /// - `lines`, `after`: they are drawn from the number, and go by what was heard. Out of memory, the drill stays.
    pub fn step(&mut self, alloc: Global, number: u32) -> Result<Vec<ScriptLine>, Memory>
        requires { 0 < self.old.nodes }
        ensures lines { IfOk result (λ lines. lines.items ≡ step_lines number self.old) }
        ensures after { OnOk result (self.new ≡ after_step self.old) }
        ensures nodes { self.new.nodes ≡ self.old.nodes }
        ensures err { OnErr result (self.new ≡ self.old) }
        ensures want { IsOkUnless result Memory.Want }
    {
        let x = next_x(self.x);
        let draw = draw_of(self.nodes, drawn(x));
        let mut lines = Vec::new(alloc);
        self.lines_by(alloc, &mut lines, number, draw)?;
        self.x = x;
        self.after_by(draw);
        Ok(lines)
    }

    /// A delivery of this id was printed to a consumer. Out of memory, the drill stays.
    pub fn hear(&mut self, consumer: ConsumerId, id: u64) -> Result<(), Memory>
        ensures ok { OnOk result (self.new ≡ hear consumer id self.old) }
        ensures nodes { self.new.nodes ≡ self.old.nodes }
        ensures err { OnErr result (self.new ≡ self.old) }
        ensures want { IsOkUnless result Memory.Want }
    {
        if is_side_of(consumer, 1) {
            return hold_at(&mut self.sides, 1, consumer, id);
        }
        if is_side_of(consumer, 2) {
            return hold_at(&mut self.sides, 2, consumer, id);
        }
        if is_side_of(consumer, 3) {
            return hold_at(&mut self.sides, 3, consumer, id);
        }
        if is_side_of(consumer, 4) {
            return hold_at(&mut self.sides, 4, consumer, id);
        }
        Ok(())
    }

    /// What restarts the node that is down, if there is one.
    pub fn last_restart(&self, alloc: Global) -> Result<Vec<ScriptLine>, Memory>
        ensures ok { IfOk result (λ lines. lines.items ≡ last_restart self.now.crashed) }
        ensures want { IsOkUnless result Memory.Want }
    {
        lines::last_restart(alloc, self.crashed)
    }
}
