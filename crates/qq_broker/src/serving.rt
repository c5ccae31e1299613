//! The nodes of a run serve lines.
ghost use Rattle.std.specs.Prelude.{◌≡◌, ◌≤◌, ◌++◌, ◌∷◌, [], ℕ, false, true, Contains, IfErr, OnOk};
ghost use Rattle.qq_base.specs.Causes.{HasCause};
ghost use Rattle.qq_ports.specs.Yard.{IsYardCaused};
ghost use Rattle.qq_script_lines.specs.declared.line.ScriptLine.TheVariants.{Crash, Restart};
ghost use Rattle.qq_route.specs.declared.setup.Setup.{Setup as SetupOf};
ghost use Rattle.qq_taker.specs.Takers.{Takers};
ghost use Rattle.qq_cluster_model.specs.Cluster.{Crashes};
ghost use Rattle.qq_cluster_model.specs.Outcome.{Outcome};
ghost use Rattle.qq_cluster_run.specs.Named.{AreNodes, IsNamed};
ghost use Rattle.qq_cluster_run.specs.Service.{HasServeCause};
ghost use Rattle.qq_cluster_run.specs.Serving.{Run, all_seen, setup_in};
ghost use Rattle.qq_broker.specs.Faults.{crash_fault, step_stop};
ghost use Rattle.qq_broker.specs.Lives.{Giving};
ghost use Rattle.qq_broker.specs.Nodes.{Holds, MayRun, Meets};
ghost use Rattle.qq_broker.specs.Serving.{IsServed, crashes, with_events};
ghost use Rattle.qq_broker.specs.Takers.{AsksFree, AsksGone, IsGoneCaused, RunMeets};
ghost use Rattle.qq_broker.specs.declared.faults.StepFault.TheVariants.{NoSuch};

use crate::asking::ask;
use crate::faults::StepFault;
use qq_base::NodeId;
use qq_cluster::{Nodes, Told, crash_node};
use qq_disk::{Image, NodeDisk};
use qq_opening::{RestartFault, restart as restart_node, restart_each};
use qq_ports::{Yard, YardFault};
use qq_route::Setup;
use qq_script_lines::{Nodes as Which, ScriptLine};
use qq_taker::{Desk, Taker};
use std::alloc::Global;

// What is told where the yard makes no crash.
fn crash_fault(fault: YardFault) -> StepFault
    ensures { result ≡ crash_fault fault }
{
    match fault {
        YardFault::Failed => StepFault::Yard,
        YardFault::Memory(memory) => StepFault::Nodes(RestartFault::Memory(memory)),
    }
}

// A node is crashed, and what is left of its disk goes on.
fn crash_one<Y: Yard>(
    alloc: Global,
    nodes: &mut Nodes<Y::Disk>,
    yard: &mut Y,
    node: NodeId,
    image: &Image,
) -> Result<(), YardFault>
    requires holds { (given : Giving Y.Disk) × ((s : SetupOf) × ((run : Run)
        × Holds given Y.Disk.facts s nodes.old run × Contains (setup_in s run).nodes node.0)) }
    ensures ok { (given : Giving Y.Disk) (s : SetupOf) (run : Run) →
        Holds given Y.Disk.facts s nodes.old run → OnOk result (Holds given Y.Disk.facts s nodes.new
        (with_events run (run.events ++ Crashes node.0 image.now ∷ []))) }
    ensures cause { HasCause IsYardCaused (Y.faults yard.old) (Y.faults yard.new) result }
{
    match crash_node(nodes, alloc, yard, node, image) {
        Ok(()) => Ok(()),
        Err(fault) => Err(fault),
    }
}

// The first nodes are crashed, in order.
fn crash_first<Y: Yard>(
    alloc: Global,
    nodes: &mut Nodes<Y::Disk>,
    yard: &mut Y,
    count: u8,
    image: &Image,
) -> Result<(), YardFault>
    requires holds { (given : Giving Y.Disk) × ((s : SetupOf) × ((run : Run)
        × Holds given Y.Disk.facts s nodes.old run × (count ≤ s.nodes))) }
    ensures ok { (given : Giving Y.Disk) (s : SetupOf) (run : Run) →
        Holds given Y.Disk.facts s nodes.old run → OnOk result (Holds given Y.Disk.facts s nodes.new
        (with_events run (run.events ++ crashes 1 count image.now))) }
    ensures cause { HasCause IsYardCaused (Y.faults yard.old) (Y.faults yard.new) result }
{
    'nodes: for before in 0..count {
        crash_one(alloc, nodes, yard, NodeId(before + 1), image)?;
    }
    Ok(())
}

// Nodes stop, and their disks are crashed.
fn crash<Y: Yard>(
    alloc: Global,
    setup: &Setup,
    nodes: &mut Nodes<Y::Disk>,
    yard: &mut Y,
    which: Which,
    image: &Image,
) -> Result<(), StepFault>
    requires { (given : Giving Y.Disk) × ((run : Run)
        × Holds given Y.Disk.facts setup.now nodes.old run
        × AreNodes (setup_in setup.now run) which) }
    ensures ok { (given : Giving Y.Disk) (run : Run) (told : Outcome) →
        Holds given Y.Disk.facts setup.now nodes.old run →
        OnOk result (IsServed given Y.Disk.facts setup.now run (Crash which image.now)
        nodes.new told told) }
    ensures cause { (given : Giving Y.Disk) (run : Run) (number : ℕ) →
        IfErr result (λ fault. HasServeCause
        (Meets given Y.Disk.facts (Y.faults yard.old) (Y.faults yard.new)) (setup_in setup.now run)
        run.events number (Crash which image.now)
        (step_stop setup.now number fault)) }
    ensures other { IfErr result (λ fault. fault ≡ NoSuch → ⊥) }
    ensures later { Y.faults yard.old ≤ Y.faults yard.new }
{
    match which {
        Which::One(node) => match crash_one(alloc, nodes, yard, node, image) {
            Ok(()) => Ok(()),
            Err(fault) => Err(crash_fault(fault)),
        },
        Which::All => match crash_first(alloc, nodes, yard, setup.nodes, image) {
            Ok(()) => Ok(()),
            Err(fault) => Err(crash_fault(fault)),
        },
    }
}

// Nodes that are down are restarted.
fn restart<D: NodeDisk, T: Taker>(
    alloc: Global,
    setup: &Setup,
    nodes: &mut Nodes<D>,
    which: Which,
    told: &mut Told<T>,
) -> Result<(), StepFault>
    requires { (given : Giving D) × ((run : Run)
        × Holds given D.facts setup.now nodes.old run × AreNodes (setup_in setup.now run) which) }
    ensures ok { (given : Giving D) (run : Run) →
        Holds given D.facts setup.now nodes.old run →
        OnOk result (IsServed given D.facts setup.now run (Restart which) nodes.new
        told.old told.new) }
    ensures cause { (given : Giving D) (run : Run) (number before after : ℕ) →
        Holds given D.facts setup.now nodes.old run →
        IfErr result (λ fault. HasServeCause (Meets given D.facts before after)
        (setup_in setup.now run) run.events number (Restart which)
        (step_stop setup.now number fault)) }
    ensures other { IfErr result (λ fault. fault ≡ NoSuch → ⊥) }
{
    match which {
        Which::One(node) => match restart_node(nodes, alloc, node, told) {
            Ok(()) => Ok(()),
            Err(fault) => Err(StepFault::Nodes(fault)),
        },
        Which::All => match restart_each(nodes, alloc, told) {
            Ok(()) => Ok(()),
            Err(fault) => Err(StepFault::Nodes(fault)),
        },
    }
}

// Nodes do what a line asks of them that neither crashes nor restarts one.
fn go_on<D: NodeDisk, T: Taker>(
    alloc: Global,
    setup: &Setup,
    nodes: &mut Nodes<D>,
    line: ScriptLine,
    told: &mut Told<T>,
) -> Result<(), StepFault>
    requires may { MayRun setup.now }
    requires holds { (given : Giving D) × ((run : Run)
        × Holds given D.facts setup.now nodes.old run × IsNamed (setup_in setup.now run) line) }
    ensures ok { (given : Giving D) (run : Run) →
        Holds given D.facts setup.now nodes.old run →
        OnOk result (IsServed given D.facts setup.now run line nodes.new told.old told.new) }
    ensures cause { (given : Giving D) (run : Run) (number before after : ℕ) →
        Holds given D.facts setup.now nodes.old run →
        IfErr result (λ fault. HasServeCause (Meets given D.facts before after)
        (setup_in setup.now run) run.events number line (step_stop setup.now number fault)) }
    ensures other { IfErr result (λ fault. fault ≡ NoSuch → ⊥) }
{
    match ask(alloc, setup, nodes, line, told) {
        Ok(()) => Ok(()),
        Err(memory) => Err(StepFault::Nodes(RestartFault::Memory(memory))),
    }
}

// Whether a taker that a line is to give to a consumer isn't there, or was given away.
fn asks_gone<T: Taker>(line: &ScriptLine, takers: &Desk<T>) -> bool
    ensures gone { result ≡ true → AsksGone line.now takers.now }
    ensures free { result ≡ false → AsksFree line.now takers.now }
{
    match line {
        ScriptLine::Attach { taker, .. } => !takers.is_free(*taker),
        _ => false,
    }
}

// Nodes serve a line whose taker, if it is to give one, is free.
pub(crate) fn serve_free<Y: Yard, T: Taker>(
    alloc: Global,
    setup: &Setup,
    nodes: &mut Nodes<Y::Disk>,
    yard: &mut Y,
    line: ScriptLine,
    told: &mut Told<T>,
) -> Result<(), StepFault>
    requires may { MayRun setup.now }
    requires holds { (given : Giving Y.Disk) × ((run : Run)
        × Holds given Y.Disk.facts setup.now nodes.old run
        × IsNamed (setup_in setup.now run) line) }
    ensures ok { (given : Giving Y.Disk) (run : Run) →
        Holds given Y.Disk.facts setup.now nodes.old run →
        OnOk result (IsServed given Y.Disk.facts setup.now run line nodes.new told.old told.new) }
    ensures cause { (given : Giving Y.Disk) (run : Run) (number : ℕ) →
        Holds given Y.Disk.facts setup.now nodes.old run → IfErr result (λ fault. HasServeCause
        (Meets given Y.Disk.facts (Y.faults yard.old) (Y.faults yard.new)) (setup_in setup.now run)
        run.events number line (step_stop setup.now number fault)) }
    ensures other { IfErr result (λ fault. fault ≡ NoSuch → ⊥) }
    ensures later { Y.faults yard.old ≤ Y.faults yard.new }
{
    match line {
        ScriptLine::Crash {
            nodes: which,
            image,
        } => { crash(alloc, setup, nodes, yard, which, &image) }
        ScriptLine::Restart { nodes: which } => restart(alloc, setup, nodes, which, told),
        line => go_on(alloc, setup, nodes, line, told),
    }
}

/// Nodes serve a line that names what is there, and tell what it prints.
///
/// - `ok`: what happened is what the line allows, and the nodes' disks had it.
/// - `free`: a taker that the line is to give to a consumer is free.
/// - `gone`: `NoSuch` comes exactly where it isn't.
/// - `same`: nothing has happened then.
/// - `cause`: the line ends a run so, or there was no memory.
pub fn serve<Y: Yard, T: Taker>(
    alloc: Global,
    setup: &Setup,
    nodes: &mut Nodes<Y::Disk>,
    yard: &mut Y,
    line: ScriptLine,
    told: &mut Told<T>,
) -> Result<(), StepFault>
    requires may { MayRun setup.now }
    requires holds { (given : Giving Y.Disk) × ((run : Run)
        × Holds given Y.Disk.facts setup.now nodes.old run
        × IsNamed (setup_in setup.now run) line) }
    ensures ok { (given : Giving Y.Disk) (run : Run) →
        Holds given Y.Disk.facts setup.now nodes.old run →
        OnOk result (IsServed given Y.Disk.facts setup.now run line nodes.new told.old told.new) }
    ensures free { OnOk result (AsksFree line told.old.takers) }
    ensures gone { IfErr result (λ fault. IsGoneCaused fault line told.old.takers) }
    ensures same { IfErr result (λ fault. fault ≡ NoSuch → told.new ≡ told.old) }
    ensures cause { (given : Giving Y.Disk) (first : Takers) (run : Run) (number : ℕ) →
        Holds given Y.Disk.facts setup.now nodes.old run →
        told.old.takers ≡ all_seen (setup_in setup.now run) run.events first →
        IfErr result (λ fault. HasServeCause (RunMeets given Y.Disk.facts first (Y.faults yard.old)
        (Y.faults yard.new))
        (setup_in setup.now run) run.events number line (step_stop setup.now number fault)) }
    ensures later { Y.faults yard.old ≤ Y.faults yard.new }
{
    let gone = asks_gone(&line, told.desk());
    if gone {
        drop(line);
        return Err(StepFault::NoSuch);
    }
    serve_free::<Y, T>(alloc, setup, nodes, yard, line, told)
}
