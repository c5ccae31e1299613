ghost use Rattle.std.specs.Prelude.{◌≡◌, ◌<◌, ◌+◌, ◌++◌, ◌^◌, codes, IfOk, IsOkUnless};
ghost use Rattle.std.specs.Fmt.{decimal};
ghost use Rattle.qq_route.specs.Setup.{state_of, plain_setup, plain_row};

use crate::Routes;
use crate::queue_row::{QueueRow, QueueRows, members};
use qq_base::{Memory, QueueId, Text};
use qq_entry::QueueArgs;
use std::alloc::Global;

/// What was made of definitions, in counts.
#[derive(Clone, Copy, Debug, PartialEq, Eq, Hash)]
pub struct Made {
    /// Quorum queues.
    pub queues: u64,
    /// Exchanges that weren't there already.
    pub exchanges: u64,
    /// Bindings, also repeated ones and those of the default exchange.
    pub bindings: u64,
    /// Queues of other types.
    pub skipped_queues: u64,
    /// Bindings to these.
    pub skipped_bindings: u64,
    /// Queues, exchanges and bindings of other virtual hosts than `/`.
    pub other_vhosts: u64,
}

/// What a broker is set up with.
#[derive(Drop)]
pub struct Setup {
    /// How many nodes there are, from 1.
    pub nodes: u8,
    /// In the order of their numbers, from 1.
    pub queues: QueueRows,
    /// The exchanges and their bindings. Each queue is bound to the default exchange.
    pub routes: Routes,
    /// How long a node's log file may become, in bytes.
    pub log_bytes: u64,
    /// None where there are no definitions.
    pub made: Option<Made>,
}

fn plain_name(alloc: Global, number: u32) -> Result<Text, Memory>
    ensures ok { IfOk result (λ name. name ≡ codes "q" ++ decimal number) }
    ensures want { IsOkUnless result Memory.Want }
{
    Ok(Text::from_string(format!(in alloc; "q{number}")?))
}

fn plain_row(alloc: Global, nodes: u8, group: u8, before: u32) -> Result<QueueRow, Memory>
    requires nodes { 0 < nodes }
    requires number { before + 1 < 2 ^ 32 }
    ensures ok { IfOk result (λ row. row ≡ plain_row nodes group before) }
    ensures want { IsOkUnless result Memory.Want }
{
    let number = before + 1;
    Ok(QueueRow {
        name: plain_name(alloc, number)?,
        args: QueueArgs::new(alloc, QueueId(number), group.min(nodes)),
        members: members(alloc, nodes, group, before)?,
    })
}

impl Setup {
    /// Queues `q1`, `q2` and so on, with default arguments and groups of this size, over so many nodes.
    /// The only routes are the default exchange and the three that each broker has.
    pub fn plain(
        alloc: Global,
        nodes: u8,
        group: u8,
        queues: u32,
        log_bytes: u64,
    ) -> Result<Self, Memory>
        requires { 0 < nodes }
        ensures ok { IfOk result (λ setup.
            state_of setup ≡ plain_setup nodes group queues log_bytes) }
        ensures want { IsOkUnless result Memory.Want }
    {
        let mut rows = QueueRows::new(alloc);
        let mut routes = Routes::new(alloc)?;
        for before in 0..queues {
            let row = plain_row(alloc, nodes, group, before)?;
            routes.add_queue(alloc, &row.name, row.args.queue)?;
            rows.push(row)?;
        }
        Ok(Setup {
            nodes,
            queues: rows,
            routes,
            log_bytes,
            made: None,
        })
    }
}
