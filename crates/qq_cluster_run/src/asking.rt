ghost use Rattle.std.specs.Prelude.{◌≡◌, ◌<◌, Ok, Some, None, IfOk, IfErr};
ghost use Rattle.qq_route.specs.declared.setup.Setup.{Setup};
ghost use Rattle.qq_script_lines.specs.Lines.{HasScriptCause};
ghost use Rattle.qq_cluster_run.specs.Reading.{Asks, Ends, at_line, read_line, says};
ghost use Rattle.qq_cluster_run.specs.Asking.{stop_by, HasAskCause};

use crate::ending::{Ending, LINES_LIMIT};
use crate::stop::AskStop;
use qq_route::Setup;
use qq_script_lines::{Place, ScriptFault, ScriptLine, parse_line};
use std::alloc::Global;

// Why the line of a number isn't served.
fn stop_by(fault: ScriptFault, line: u64) -> AskStop
    ensures { result ≡ stop_by fault line }
{
    match fault {
        ScriptFault::Body { size } => AskStop::Ended(Ending::limit_body(size)),
        ScriptFault::Memory(_) => AskStop::NoMemory,
        ScriptFault::Unknown => AskStop::Ended(Ending::refusal(line, fault)),
        ScriptFault::Words => AskStop::Ended(Ending::refusal(line, fault)),
        ScriptFault::Number => AskStop::Ended(Ending::refusal(line, fault)),
        ScriptFault::NoSuch => AskStop::Ended(Ending::refusal(line, fault)),
        ScriptFault::TooLong => AskStop::Ended(Ending::refusal(line, fault)),
        ScriptFault::Session => AskStop::Ended(Ending::refusal(line, fault)),
    }
}

// The place of the line of a number, above all clients' sections.
fn at_line(number: u64) -> Place
    ensures { result ≡ at_line number }
{
    Place {
        number,
        run: false,
        section: None,
    }
}

/// Reads the line of this number, from 1, without its line feed.
///
/// - `ok`: it is what the line says.
/// - `cause`: the fault is the line's first one, or `Memory(Memory::Want)`, which may come at any time.
pub fn read_line(
    alloc: Global,
    setup: &Setup,
    number: u64,
    line: &[u8],
) -> Result<ScriptLine, ScriptFault>
    ensures ok { IfOk result (λ said. read_line setup.now number line.now ≡ Ok said) }
    ensures cause { IfErr result (λ e. HasScriptCause e (read_line setup.now number line.now)) }
{
    parse_line(alloc, line, setup, at_line(number))
}

/// The request of a line, with the number of lines before it.
///
/// - `ok`: it is what the line says, and the line is within the limit on a script's lines.
/// - `cause`: `Ended` comes only where the script ends at this line, and so; `NoMemory` at any time.
#[tactic(auto, using(crate::proofs::Says::says_past, crate::proofs::Says::asks_for, crate::proofs::Says::refused_by))]
pub fn ask(alloc: Global, setup: &Setup, before: u64, line: &[u8]) -> Result<ScriptLine, AskStop>
    ensures ok { IfOk result (λ said. says setup.now before (Some line.now) ≡ Asks said) }
    ensures within { IfOk result (λ _. before < LINES_LIMIT) }
    ensures cause { IfErr result (λ stop.
        HasAskCause stop (says setup.now before (Some line.now))) }
{
    if before >= LINES_LIMIT {
        return Err(AskStop::Ended(Ending::limit_lines()));
    }
    match read_line(alloc, setup, before + 1, line) {
        Ok(said) => Ok(said),
        Err(fault) => Err(stop_by(fault, before + 1)),
    }
}

/// How a script ends after `before` lines, where the next one is too long to be read.
#[tactic(auto, using(crate::proofs::Says::says_past, crate::proofs::Says::too_long))]
pub fn refuse_long_line(before: u64) -> Ending
    ensures { (s : Setup) → says s before None ≡ Ends result }
{
    if before >= LINES_LIMIT {
        return Ending::limit_lines();
    }
    Ending::refusal(before + 1, ScriptFault::TooLong)
}
