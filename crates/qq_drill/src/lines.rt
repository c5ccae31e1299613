//! The lines of a drill's steps, each put at the end of those before it.
ghost use Rattle.std.specs.Prelude.{◌≡◌, ◌<◌, ◌++◌, ◌∷◌, [], codes, IfOk, OnOk, IsOkUnless, if◌then◌else◌};
ghost use Rattle.std.specs.Fmt.{decimal};
ghost use Rattle.qq_base.specs.Ids.{client};
ghost use Rattle.qq_drill.specs.Drill.{crash, end_first, get, has_member, is_down, last_restart, resends, resends_of, send, subscribe, taking, tick};
ghost use Rattle.qq_entry.specs.declared.command.Unstamped.TheVariants as commands;
ghost use Rattle.qq_script_lines.specs.Images.{newest_left};

use crate::draw::Draw;
use crate::side::{Held, TAGS_MOST};
use qq_base::{Bytes, Ids, Memory, NodeId, QueueId, SessionId, Text};
use qq_disk::{Image, Tail};
use qq_entry::{Mode, Unstamped};
use qq_route::members;
use qq_script_lines::{Nodes, ScriptLine};
use std::alloc::Global;

/// How many members a queue's group has at most.
const GROUP: u8 = 3;

/// How many deliveries each consumer gets ahead.
const PREFETCH: u16 = 4;

fn add(out: &mut Vec<ScriptLine>, line: ScriptLine) -> Result<(), Memory>
    ensures ok { OnOk result (out.new.items ≡ out.old.items ++ line ∷ []) }
    ensures want { IsOkUnless result Memory.Want }
{
    out.push(line)?;
    Ok(())
}

// ---- clients' lines

fn key_of(alloc: Global, queue: u32) -> Result<Text, Memory>
    ensures ok { IfOk result (λ key. key ≡ codes "q" ++ decimal queue) }
    ensures want { IsOkUnless result Memory.Want }
{
    Ok(Text::from_string(format!(in alloc; "q{queue}")?))
}

fn body_of(alloc: Global, step: u32) -> Result<Bytes, Memory>
    ensures ok { IfOk result (λ body. body ≡ codes "m" ++ decimal step) }
    ensures want { IsOkUnless result Memory.Want }
{
    Ok(Bytes::from_vec(format!(in alloc; "m{step}")?.into_bytes()))
}

/// The step's message to a queue.
pub(crate) fn send(
    alloc: Global,
    out: &mut Vec<ScriptLine>,
    step: u32,
    queue: u32,
) -> Result<(), Memory>
    ensures ok { OnOk result (out.new.items ≡ out.old.items ++ send step queue ∷ []) }
    ensures want { IsOkUnless result Memory.Want }
{
    let key = key_of(alloc, queue)?;
    let body = body_of(alloc, step)?;
    add(
        out,
        ScriptLine::Send {
            session: SessionId::client(u64::from(queue)),
            exchange: Text::new(alloc),
            key,
            body,
        },
    )
}

/// The next message is asked for.
pub(crate) fn get(out: &mut Vec<ScriptLine>, queue: u32) -> Result<(), Memory>
    ensures ok { OnOk result (out.new.items ≡ out.old.items ++ get queue ∷ []) }
    ensures want { IsOkUnless result Memory.Want }
{
    add(
        out,
        ScriptLine::Client {
            session: SessionId::client(u64::from(queue)),
            queue: QueueId(queue),
            body: Unstamped::Get,
        },
    )
}

// The session of a queue's consumers.
fn taking(queue: u32) -> SessionId
    ensures { result ≡ client (taking queue) }
{
    SessionId::client(10 + u64::from(queue))
}

/// One consumer more than there are, of at most eight.
pub(crate) fn subscribe(out: &mut Vec<ScriptLine>, queue: u32, tags: u32) -> Result<(), Memory>
    ensures ok { OnOk result (out.new.items ≡ out.old.items ++ subscribe queue tags) }
    ensures want { IsOkUnless result Memory.Want }
{
    if tags < TAGS_MOST {
        add(
            out,
            ScriptLine::Client {
                session: taking(queue),
                queue: QueueId(queue),
                body: Unstamped::Subscribe {
                    tag: tags + 1,
                    mode: Mode::Prefetch(PREFETCH),
                },
            },
        )?;
    }
    Ok(())
}

fn one_id(alloc: Global, id: u64) -> Result<Ids, Memory>
    ensures ok { IfOk result (λ ids. ids ≡ id ∷ []) }
    ensures want { IsOkUnless result Memory.Want }
{
    Ok(Ids::from_vec(vec![in alloc; id]?))
}

// How a delivery is ended.
fn ending(returns: bool, tag: u32, ids: Ids) -> Unstamped
    ensures { result ≡ (if returns then commands.Return else commands.Settle) tag ids }
{
    if returns {
        Unstamped::Return { tag, ids }
    } else {
        Unstamped::Settle { tag, ids }
    }
}

/// The oldest delivery is returned or settled, if there is one.
pub(crate) fn end_first(
    alloc: Global,
    out: &mut Vec<ScriptLine>,
    returns: bool,
    queue: u32,
    held: &[Held],
) -> Result<(), Memory>
    ensures ok { OnOk result (out.new.items ≡ out.old.items
        ++ end_first (if returns then commands.Return else commands.Settle) queue held.now) }
    ensures want { IsOkUnless result Memory.Want }
{
    let [one, ..] = held else {
        return Ok(());
    };
    let ids = one_id(alloc, one.id)?;
    let body = ending(returns, one.tag, ids);
    add(
        out,
        ScriptLine::Client {
            session: taking(queue),
            queue: QueueId(queue),
            body,
        },
    )?;
    Ok(())
}

// ---- faults

// This of the newest log file's pending bytes, and none of another file's.
fn newest_left(newest: Tail) -> Image
    ensures { result ≡ newest_left newest }
{
    Image {
        newest_log: newest,
        others: Tail::Cut(0),
        removed_back: false,
    }
}

// A message is written at a node, and the node crashes with the first bytes of it.
fn cut(alloc: Global, out: &mut Vec<ScriptLine>, step: u32, draw: Draw) -> Result<(), Memory>
    ensures ok { OnOk result (out.new.items ≡ out.old.items ++ crash step draw None) }
    ensures want { IsOkUnless result Memory.Want }
{
    let node = NodeId(draw.node);
    add(out, ScriptLine::Pace { auto: false })?;
    send(alloc, out, step, draw.queue)?;
    add(out, ScriptLine::Pace { auto: true })?;
    add(out, ScriptLine::Write { node })?;
    add(
        out,
        ScriptLine::Crash {
            nodes: Nodes::One(node),
            image: newest_left(Tail::Cut(draw.cut)),
        },
    )?;
    Ok(())
}

fn restart(out: &mut Vec<ScriptLine>, node: NodeId) -> Result<(), Memory>
    ensures ok { OnOk result (out.new.items ≡ out.old.items ++ last_restart (Some node)) }
    ensures want { IsOkUnless result Memory.Want }
{
    add(
        out,
        ScriptLine::Restart {
            nodes: Nodes::One(node),
        },
    )
}

/// A node crashes, or the one that is down restarts.
pub(crate) fn crash(
    alloc: Global,
    out: &mut Vec<ScriptLine>,
    step: u32,
    draw: Draw,
    crashed: Option<NodeId>,
) -> Result<(), Memory>
    ensures ok { OnOk result (out.new.items ≡ out.old.items ++ crash step draw crashed) }
    ensures want { IsOkUnless result Memory.Want }
{
    match crashed {
        Some(node) => restart(out, node),
        None => cut(alloc, out, step, draw),
    }
}

/// What restarts the node that is down, if there is one.
pub(crate) fn last_restart(
    alloc: Global,
    crashed: Option<NodeId>,
) -> Result<Vec<ScriptLine>, Memory>
    ensures ok { IfOk result (λ lines. lines.items ≡ last_restart crashed) }
    ensures want { IsOkUnless result Memory.Want }
{
    let mut lines = Vec::new(alloc);
    if let Some(node) = crashed {
        restart(&mut lines, node)?;
    }
    Ok(lines)
}

// ---- time

fn is_down(node: u8, crashed: Option<NodeId>) -> bool
    ensures { result ≡ is_down node crashed }
{
    match crashed {
        Some(down) => down.0 == node,
        None => false,
    }
}

fn has_member(alloc: Global, nodes: u8, queue: u32, node: u8) -> Result<bool, Memory>
    requires { 0 < nodes }
    ensures ok { IfOk result (λ has. has ≡ has_member nodes queue node) }
    ensures want { IsOkUnless result Memory.Want }
{
    let members = members(alloc, nodes, GROUP, queue.saturating_sub(1))?;
    Ok(members.as_slice().iter().any(|member| member.0 == node))
}

/// Time passes at a member that is up, and all that waits is done.
pub(crate) fn tick(
    alloc: Global,
    out: &mut Vec<ScriptLine>,
    draw: Draw,
    nodes: u8,
    crashed: Option<NodeId>,
) -> Result<(), Memory>
    requires { 0 < nodes }
    ensures ok { OnOk result (out.new.items ≡ out.old.items ++ tick draw nodes crashed) }
    ensures want { IsOkUnless result Memory.Want }
{
    let has = has_member(alloc, nodes, draw.queue, draw.node)?;
    if has && !is_down(draw.node, crashed) {
        add(
            out,
            ScriptLine::Tick {
                node: NodeId(draw.node),
                queue: QueueId(draw.queue),
            },
        )?;
    }
    add(out, ScriptLine::Pump)
}

// ---- what is sent again

fn resends_of(alloc: Global, sessions: &[u64]) -> Result<Vec<ScriptLine>, Memory>
    ensures ok { IfOk result (λ lines. lines.items ≡ resends_of sessions.now) }
    ensures want { IsOkUnless result Memory.Want }
{
    Ok(
        sessions
            .iter()
            .map(|session| ScriptLine::Resend {
                session: SessionId::client(*session),
            })
            .collect(alloc)?,
    )
}

/// All sessions send again what isn't answered.
pub fn resends(alloc: Global) -> Result<Vec<ScriptLine>, Memory>
    ensures ok { IfOk result (λ lines. lines.items ≡ resends) }
    ensures want { IsOkUnless result Memory.Want }
{
    resends_of(alloc, &[1, 2, 3, 4, 11, 12, 13, 14])
}
