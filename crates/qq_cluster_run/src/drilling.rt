//! The parts of a drill, and the lines of each.
ghost use Rattle.std.specs.Prelude.{◌≡◌, ◌<◌, ◌++◌, ◌∷◌, [], map, IfOk, IsOkUnless, OnOk, if◌then◌else◌};
ghost use Rattle.std.specs.List.{range_with_len};
ghost use Rattle.qq_cluster_run.specs.Drilling.{after_part, elects, elects_once, part_lines, parts, step_and_resends, steps};
ghost use Rattle.qq_drill.specs.Drill.{after_step, is_sixteenth, resends};
ghost use Rattle.qq_script_lines.specs.declared.line.ScriptLine.TheVariants as script_lines;

use qq_base::{Memory, NodeId, QueueId};
use qq_drill::{Drill, is_sixteenth, resends};
use qq_route::members;
use qq_script_lines::ScriptLine;
use std::alloc::Global;

/// How many steps a drill has.
pub const STEPS: u32 = 4_000;

/// How many members a queue's group has at most.
const GROUP: u8 = 3;

/// A part of a drill.
#[derive(Clone, Copy)]
pub enum Part {
    /// The step of this number, from 1, and after each 16th one all sessions send again.
    Step(u32),
    /// The node that is down restarts.
    Restart,
    /// Time passes at a queue's member, and a pump follows, where the queue has no leader.
    Elect { queue: QueueId, node: NodeId },
    /// All sessions send again.
    Resend,
}

// ---- all parts

#[tactic(auto, unfolding(crate::specs::Drilling::steps))]
fn push_steps(out: &mut Vec<Part>) -> Result<(), Memory>
    ensures ok { OnOk result (out.new.items ≡ out.old.items ++ steps) }
    ensures want { IsOkUnless result Memory.Want }
{
    for before in 0..STEPS {
        out.push(Part::Step(before + 1))?;
    }
    Ok(())
}

fn push_part(out: &mut Vec<Part>, part: Part) -> Result<(), Memory>
    ensures ok { OnOk result (out.new.items ≡ out.old.items ++ part ∷ []) }
    ensures want { IsOkUnless result Memory.Want }
{
    out.push(part)?;
    Ok(())
}

fn push_elects(out: &mut Vec<Part>, queue: QueueId, nodes: &[NodeId]) -> Result<(), Memory>
    ensures ok { OnOk result (out.new.items ≡ out.old.items ++ elects_once queue nodes.now) }
    ensures want { IsOkUnless result Memory.Want }
{
    for node in nodes {
        out.push(Part::Elect { queue, node: *node })?;
    }
    Ok(())
}

fn push_elections(alloc: Global, out: &mut Vec<Part>, nodes: u8, queue: u32) -> Result<(), Memory>
    requires { 0 < nodes }
    ensures ok { OnOk result (out.new.items ≡ out.old.items ++ elects nodes queue) }
    ensures want { IsOkUnless result Memory.Want }
{
    let list = members(alloc, nodes, GROUP, queue.saturating_sub(1))?;
    push_elects(out, QueueId(queue), list.as_slice())?;
    push_elects(out, QueueId(queue), list.as_slice())
}

/// The parts of a drill over so many nodes.
#[tactic(auto, unfolding(crate::specs::Drilling::parts))]
pub fn parts(alloc: Global, nodes: u8) -> Result<Vec<Part>, Memory>
    requires { 0 < nodes }
    ensures ok { IfOk result (λ list. list.items ≡ parts nodes) }
    ensures want { IsOkUnless result Memory.Want }
{
    let mut out = Vec::new(alloc);
    push_steps(&mut out)?;
    push_part(&mut out, Part::Restart)?;
    push_elections(alloc, &mut out, nodes, 1)?;
    push_elections(alloc, &mut out, nodes, 2)?;
    push_elections(alloc, &mut out, nodes, 3)?;
    push_elections(alloc, &mut out, nodes, 4)?;
    push_part(&mut out, Part::Resend)?;
    Ok(out)
}

// ---- the lines of a part

fn add_resends(alloc: Global, lines: &mut Vec<ScriptLine>) -> Result<(), Memory>
    ensures ok { OnOk result (lines.new.items ≡ lines.old.items ++ resends) }
    ensures want { IsOkUnless result Memory.Want }
{
    let mut more = resends(alloc)?;
    lines.append(&mut more)?;
    Ok(())
}

fn step_and_resends(alloc: Global, drill: &mut Drill, step: u32) -> Result<Vec<ScriptLine>, Memory>
    requires { 0 < drill.old.nodes }
    ensures ok { IfOk result (λ lines. lines.items ≡ step_and_resends step drill.old) }
    ensures after { OnOk result (drill.new ≡ after_step drill.old) }
    ensures want { IsOkUnless result Memory.Want }
{
    let mut lines = drill.step(alloc, step)?;
    if is_sixteenth(step) {
        add_resends(alloc, &mut lines)?;
    }
    Ok(lines)
}

fn election(
    alloc: Global,
    queue: QueueId,
    node: NodeId,
    led: bool,
) -> Result<Vec<ScriptLine>, Memory>
    ensures ok { IfOk result (λ lines. lines.items ≡
        (if led then [] else script_lines.Tick node queue ∷ script_lines.Pump ∷ [])) }
    ensures want { IsOkUnless result Memory.Want }
{
    let mut lines = Vec::new(alloc);
    if !led {
        lines.push(ScriptLine::Tick { node, queue })?;
        lines.push(ScriptLine::Pump)?;
    }
    Ok(lines)
}

/// The lines of a part, which the drill has begun then. Whether the part's queue has a leader is handed in.
pub fn part_lines(
    alloc: Global,
    drill: &mut Drill,
    part: Part,
    led: bool,
) -> Result<Vec<ScriptLine>, Memory>
    requires { 0 < drill.old.nodes }
    ensures ok { IfOk result (λ lines. lines.items ≡ part_lines part led drill.old) }
    ensures after { OnOk result (drill.new ≡ after_part part drill.old) }
    ensures want { IsOkUnless result Memory.Want }
{
    match part {
        Part::Step(step) => step_and_resends(alloc, drill, step),
        Part::Restart => drill.last_restart(alloc),
        Part::Elect { queue, node } => election(alloc, queue, node, led),
        Part::Resend => resends(alloc),
    }
}
