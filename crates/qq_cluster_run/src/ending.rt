ghost use Rattle.std.specs.Prelude.{◌≡◌, ◌++◌, codes, OnOk, OnErr};
ghost use Rattle.std.specs.Fmt.{decimal};
ghost use Rattle.std.specs.Option.{option_copied};
ghost use Rattle.std.specs.Io.KnownBytes.{Appends};
ghost use Rattle.qq_base.specs.Causes.{HasCause};
ghost use Rattle.qq_ports.specs.Faults.{AppendsPrefix, IsCaused};
ghost use Rattle.qq_cluster_run.specs.Endings.{number_text, name_text, usage, refusal, fault_text, read_fault, write_fault, yard_fault, damaged, other_version, lost, limit_body, limit_lines, no_memory, spent};
ghost use Rattle.qq_cluster_run.specs.Definitions.{refused_export};

use crate::status::{
    DAMAGED, DEFINITIONS, LIMIT, LOST, NO_MEMORY, READ_FAULT, REFUSED, SPENT, USAGE, WRITE_FAULT,
    YARD_FAULT,
};
use itoa::Buffer;
use qq_base::{NodeId, Text};
use qq_defs::DefsFault;
use qq_ports::{Failed, Sink, write_all};
use qq_script_lines::ScriptFault;
use std::marker::Model;

/// How many lines a script may have.
pub const LINES_LIMIT: u64 = 10_000_000;

/// How a run ends: the exit status, and the closing line.
///
/// The line is kept in parts, and not as a text of its own: it may have to say that there is no memory, so it
/// takes none.
#[derive(Drop)]
pub struct Ending {
    status: u8,
    start: &'static str,
    node: Option<u64>,
    gap: &'static str,
    name: Option<Text>,
    before: &'static str,
    first: Option<u64>,
    between: &'static str,
    second: Option<u64>,
    end: &'static str,
}

impl Model for Ending {
    ghost use Rattle.std.specs.Prelude.{◌++◌};
    ghost use Rattle.qq_cluster_run.specs.Endings.{name_text, number_text};
    ghost use Rattle.qq_cluster_run.specs.Endings as endings;

    ghost Value = { endings.Ending };

    ghost view = { λ e. record {
      status = e.status;
      text = ((e.start.now ++ number_text e.node) ++ (e.gap.now ++ name_text e.name))
          ++ ((e.before.now ++ number_text e.first)
          ++ ((e.between.now ++ number_text e.second) ++ e.end.now));
    } };
}

// The end of a closing line, after the number of the line that isn't served.
fn fault_end(fault: ScriptFault) -> &'static str
    ensures { result.now ≡ codes ": " ++ fault_text fault ++ codes "\n" }
{
    match fault {
        ScriptFault::Unknown => ": unknown\n",
        ScriptFault::Words => ": words\n",
        ScriptFault::Number => ": number\n",
        ScriptFault::NoSuch => ": no-such\n",
        ScriptFault::TooLong => ": too-long\n",
        ScriptFault::Session => ": session\n",
        ScriptFault::Body { .. } => ": unknown\n",
        ScriptFault::Memory(_) => ": unknown\n",
    }
}

impl Ending {
    fn plain(status: u8, text: &'static str) -> Self
        ensures { result ≡ record { status = status; text = text.now } }
    {
        Ending {
            status,
            start: text,
            node: None,
            gap: "",
            name: None,
            before: "",
            first: None,
            between: "",
            second: None,
            end: "",
        }
    }

    fn numbered(status: u8, before: &'static str, number: u64, end: &'static str) -> Self
        ensures { result ≡ record {
          status = status;
          text = before.now ++ decimal number ++ end.now;
        } }
    {
        Ending {
            status,
            start: "",
            node: None,
            gap: "",
            name: None,
            before,
            first: Some(number),
            between: "",
            second: None,
            end,
        }
    }

    fn named(status: u8, start: &'static str, name: Text) -> Self
        ensures { result ≡ record { status = status; text = start.now ++ name ++ codes "\n" } }
    {
        Ending {
            status,
            start,
            node: None,
            gap: "",
            name: Some(name),
            before: "",
            first: None,
            between: "",
            second: None,
            end: "\n",
        }
    }

    /// The words are no command.
    pub fn usage() -> Self
        ensures { result ≡ usage }
    {
        Ending::plain(USAGE, "usage: qq script|run|drill N|dump\n")
    }

    /// The export is refused by this fault of it, or has more queues than it may have.
    pub fn refused_export(fault: DefsFault) -> Self
        ensures { result ≡ refused_export fault }
    {
        match fault {
            DefsFault::Json => Ending::plain(DEFINITIONS, "definitions: json\n"),
            DefsFault::NotObject => Ending::plain(DEFINITIONS, "definitions: not-object\n"),
            DefsFault::Missing { path } => {
                Ending::named(DEFINITIONS, "definitions: missing ", path)
            }
            DefsFault::BadArgument { name } => {
                Ending::named(DEFINITIONS, "definitions: bad-argument ", name)
            }
            DefsFault::Unsupported { name } => {
                Ending::named(DEFINITIONS, "definitions: unsupported ", name)
            }
            DefsFault::Policies => Ending::plain(DEFINITIONS, "definitions: policies\n"),
            DefsFault::UnknownTarget { name } => {
                Ending::named(DEFINITIONS, "definitions: unknown-target ", name)
            }
            DefsFault::Limit { count } => Ending::numbered(LIMIT, "limit queues ", count, "\n"),
            DefsFault::Memory(_) => Ending::no_memory(),
        }
    }

    /// The line of this number isn't served, by this fault of it.
    pub fn refusal(line: u64, fault: ScriptFault) -> Self
        ensures { result ≡ refusal line fault }
    {
        Ending::numbered(REFUSED, "line ", line, fault_end(fault))
    }

    /// The source has failed.
    pub fn read_fault() -> Self
        ensures { result ≡ read_fault }
    {
        Ending::plain(READ_FAULT, "read fault\n")
    }

    /// The sink has failed, so nothing is written.
    pub fn write_fault() -> Self
        ensures { result ≡ write_fault }
    {
        Ending::plain(WRITE_FAULT, "")
    }

    /// The yard has failed, or each node's disk has as the cluster was opened.
    pub fn yard_fault() -> Self
        ensures { result ≡ yard_fault }
    {
        Ending::plain(YARD_FAULT, "yard fault\n")
    }

    /// A log file of a node breaks the rules, first at this place.
    pub fn damaged(node: NodeId, file: u64, place: u64) -> Self
        ensures { result ≡ damaged node.0 file place }
    {
        Ending {
            status: DAMAGED,
            start: "damaged node ",
            node: Some(u64::from(node.0)),
            gap: "",
            name: None,
            before: " log ",
            first: Some(file),
            between: " place ",
            second: Some(place),
            end: "\n",
        }
    }

    /// A log file of a node is of another version.
    pub fn other_version(node: NodeId, file: u64, byte: u8) -> Self
        ensures { result ≡ other_version node.0 file byte }
    {
        Ending {
            status: DAMAGED,
            start: "version node ",
            node: Some(u64::from(node.0)),
            gap: "",
            name: None,
            before: " log ",
            first: Some(file),
            between: " byte ",
            second: Some(u64::from(byte)),
            end: "\n",
        }
    }

    /// A queue's ops on a node aren't those that its member was noticed of.
    pub fn lost(node: NodeId, name: Text, noticed: u64, found: u64) -> Self
        ensures { result ≡ lost node.0 name noticed found }
    {
        Ending {
            status: LOST,
            start: "lost node ",
            node: Some(u64::from(node.0)),
            gap: " ",
            name: Some(name),
            before: " noticed ",
            first: Some(noticed),
            between: " found ",
            second: Some(found),
            end: "\n",
        }
    }

    /// A body has `size` bytes, more than a body may have.
    pub fn limit_body(size: u64) -> Self
        ensures { result ≡ limit_body size }
    {
        Ending::numbered(LIMIT, "limit body ", size, "\n")
    }

    /// The script has more lines than it may have.
    pub fn limit_lines() -> Self
        ensures { result ≡ limit_lines }
    {
        Ending::numbered(LIMIT, "limit lines ", LINES_LIMIT + 1, "\n")
    }

    /// There is no memory.
    pub fn no_memory() -> Self
        ensures { result ≡ no_memory }
    {
        Ending::plain(NO_MEMORY, "memory\n")
    }

    /// This number stands at its end.
    pub fn spent(number: u64) -> Self
        ensures { result ≡ spent number }
    {
        Ending::numbered(SPENT, "spent ", number, "\n")
    }

    /// The exit status.
    pub fn status(&self) -> u8
        ensures { result ≡ self.now.status }
    {
        self.status
    }

    /// Writes the closing line. Where the sink fails, a prefix of it was written.
    pub fn write<O: Sink>(&self, output: &mut O) -> Result<(), Failed>
        ensures ok { OnOk result
            (Appends (O.written output.old) (O.written output.new) self.now.text) }
        ensures err { OnErr result
            (AppendsPrefix (O.written output.old) (O.written output.new) self.now.text) }
        ensures cause { HasCause IsCaused (O.faults output.old) (O.faults output.new) result }
    {
        if let Err(failed) = write_front(output, self.start, self.node, self.gap, &self.name) {
            return Err(failed);
        }
        write_numbers(
            output,
            self.before,
            self.first,
            self.between,
            self.second,
            self.end,
        )
    }
}

// Each of these writes one part behind another. Where the sink fails, a prefix of both was written.

fn write_front<O: Sink>(
    output: &mut O,
    start: &str,
    node: Option<u64>,
    gap: &str,
    name: &Option<Text>,
) -> Result<(), Failed>
    ensures ok { OnOk result (Appends (O.written output.old) (O.written output.new)
        ((start.now ++ number_text node) ++ (gap.now ++ name_text name.now))) }
    ensures err { OnErr result (AppendsPrefix (O.written output.old) (O.written output.new)
        ((start.now ++ number_text node) ++ (gap.now ++ name_text name.now))) }
    ensures cause { HasCause IsCaused (O.faults output.old) (O.faults output.new) result }
{
    if let Err(failed) = write_number(output, start, node) {
        return Err(failed);
    }
    write_name(output, gap, name)
}

fn write_name<O: Sink>(output: &mut O, text: &str, name: &Option<Text>) -> Result<(), Failed>
    ensures ok { OnOk result (Appends (O.written output.old) (O.written output.new)
        (text.now ++ name_text name.now)) }
    ensures err { OnErr result (AppendsPrefix (O.written output.old) (O.written output.new)
        (text.now ++ name_text name.now)) }
    ensures cause { HasCause IsCaused (O.faults output.old) (O.faults output.new) result }
{
    if let Err(failed) = write_str(output, text) {
        return Err(failed);
    }
    write_text(output, name)
}

fn write_numbers<O: Sink>(
    output: &mut O,
    before: &str,
    first: Option<u64>,
    between: &str,
    second: Option<u64>,
    end: &str,
) -> Result<(), Failed>
    ensures ok { OnOk result (Appends (O.written output.old) (O.written output.new)
        ((before.now ++ number_text first) ++ ((between.now ++ number_text second) ++ end.now))) }
    ensures err { OnErr result (AppendsPrefix (O.written output.old) (O.written output.new)
        ((before.now ++ number_text first) ++ ((between.now ++ number_text second) ++ end.now))) }
    ensures cause { HasCause IsCaused (O.faults output.old) (O.faults output.new) result }
{
    if let Err(failed) = write_number(output, before, first) {
        return Err(failed);
    }
    write_end(output, between, second, end)
}

fn write_end<O: Sink>(
    output: &mut O,
    text: &str,
    number: Option<u64>,
    end: &str,
) -> Result<(), Failed>
    ensures ok { OnOk result (Appends (O.written output.old) (O.written output.new)
        ((text.now ++ number_text number) ++ end.now)) }
    ensures err { OnErr result (AppendsPrefix (O.written output.old) (O.written output.new)
        ((text.now ++ number_text number) ++ end.now)) }
    ensures cause { HasCause IsCaused (O.faults output.old) (O.faults output.new) result }
{
    if let Err(failed) = write_number(output, text, number) {
        return Err(failed);
    }
    write_str(output, end)
}

fn write_number<O: Sink>(output: &mut O, text: &str, number: Option<u64>) -> Result<(), Failed>
    ensures ok { OnOk result (Appends (O.written output.old) (O.written output.new)
        (text.now ++ number_text number)) }
    ensures err { OnErr result (AppendsPrefix (O.written output.old) (O.written output.new)
        (text.now ++ number_text number)) }
    ensures cause { HasCause IsCaused (O.faults output.old) (O.faults output.new) result }
{
    if let Err(failed) = write_str(output, text) {
        return Err(failed);
    }
    write_digits(output, number)
}

fn write_text<O: Sink>(output: &mut O, text: &Option<Text>) -> Result<(), Failed>
    ensures ok { OnOk result
        (Appends (O.written output.old) (O.written output.new) (name_text text.now)) }
    ensures err { OnErr result
        (AppendsPrefix (O.written output.old) (O.written output.new) (name_text text.now)) }
    ensures cause { HasCause IsCaused (O.faults output.old) (O.faults output.new) result }
{
    match text {
        Some(name) => write_str(output, name.as_str()),
        None => write_str(output, ""),
    }
}

fn write_digits<O: Sink>(output: &mut O, number: Option<u64>) -> Result<(), Failed>
    ensures ok { OnOk result
        (Appends (O.written output.old) (O.written output.new) (number_text number)) }
    ensures err { OnErr result
        (AppendsPrefix (O.written output.old) (O.written output.new) (number_text number)) }
    ensures cause { HasCause IsCaused (O.faults output.old) (O.faults output.new) result }
{
    match number {
        None => write_str(output, ""),
        Some(number) => {
            let mut buffer = Buffer::new();
            write_str(output, buffer.format(number))
        }
    }
}

fn write_str<O: Sink>(output: &mut O, text: &str) -> Result<(), Failed>
    ensures ok { OnOk result (Appends (O.written output.old) (O.written output.new) text.now) }
    ensures err { OnErr result
        (AppendsPrefix (O.written output.old) (O.written output.new) text.now) }
    ensures cause { HasCause IsCaused (O.faults output.old) (O.faults output.new) result }
{
    write_all(output, text.as_bytes())
}
