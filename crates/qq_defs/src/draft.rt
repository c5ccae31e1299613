ghost use Rattle.std.specs.Prelude.{◌≡◌, ◌<◌, ◌-◌, ◌+◌, ◌^◌, Some, None, OnOk, IfOk, IsOkUnless};
ghost use Rattle.std.specs.BTreeMap.{get_by_text};
ghost use Rattle.qq_route.specs.Members.{members};
ghost use Rattle.qq_defs.specs.Draft.{state_of, more, put_name, before, next_queue, skip, declare, count_other};

use qq_base::{Memory, QueueId, Text, both};
use qq_entry::QueueArgs;
use qq_route::{Made, QueueRow, QueueRows, Routes, members};
use std::alloc::Global;
use std::collections::BTreeMap;

type Names = BTreeMap<String, Option<QueueId>>;

/// What was made of the elements so far.
#[derive(Drop)]
pub struct Draft {
    pub rows: QueueRows,
    /// The queues of the virtual host by their names; no number for one of another type.
    pub names: Names,
    pub routes: Routes,
    pub made: Made,
}

fn put_name(
    names: &mut Names,
    alloc: Global,
    name: &str,
    queue: Option<QueueId>,
) -> Result<(), Memory>
    ensures ok { OnOk result
        (get_by_text names.new ≡ put_name (get_by_text names.old) name.now queue) }
    ensures want { IsOkUnless result Memory.Want }
{
    names.insert(String::from_str(alloc, name)?, queue)?;
    Ok(())
}

// A queue behind so many others.
fn row_of(
    alloc: Global,
    nodes: u8,
    before: u32,
    name: &str,
    args: QueueArgs,
) -> Result<QueueRow, Memory>
    requires { 0 < nodes }
    ensures ok { IfOk result (λ row. row
        ≡ record { name = name.now; args = args; members = members nodes args.group before }) }
    ensures want { IsOkUnless result Memory.Want }
{
    let members = members(alloc, nodes, args.group, before);
    match both(Text::from_str(alloc, name), members) {
        Ok((name, members)) => Ok(QueueRow {
            name,
            args,
            members,
        }),
        Err(cause) => {
            drop(args);
            Err(cause)
        }
    }
}

impl Draft {
    /// The number of the next queue.
    pub fn next_queue(&self) -> QueueId
        ensures { result ≡ next_queue (state_of self.now) }
    {
        QueueId(self.before() + 1)
    }

    fn before(&self) -> u32
        ensures is { result ≡ before (state_of self.now) }
        ensures small { result < 2 ^ 32 - 1 }
    {
        self.made.queues.min(u64::from(u32::MAX) - 1) as u32
    }

    /// Counts an element of another virtual host.
    pub fn count_other(&mut self)
        ensures { state_of self.new ≡ count_other (state_of self.old) }
    {
        self.made.other_vhosts = self.made.other_vhosts.saturating_add(1);
    }

    /// Notes a queue of another type.
    #[tactic(auto, unfolding(crate::specs::Draft::skip))]
    pub fn skip(&mut self, alloc: Global, name: &str) -> Result<(), Memory>
        ensures ok { OnOk result (state_of self.new ≡ skip name.now (state_of self.old)) }
        ensures want { IsOkUnless result Memory.Want }
    {
        put_name(&mut self.names, alloc, name, None)?;
        self.made.skipped_queues = self.made.skipped_queues.saturating_add(1);
        Ok(())
    }

    /// Adds a quorum queue.
    #[tactic(auto, unfolding(crate::specs::Draft::declare))]
    pub fn declare(
        &mut self,
        alloc: Global,
        nodes: u8,
        name: &str,
        args: QueueArgs,
    ) -> Result<(), Memory>
        requires { 0 < nodes }
        ensures ok { OnOk result
            (state_of self.new ≡ declare nodes name.now args (state_of self.old)) }
        ensures want { IsOkUnless result Memory.Want }
    {
        let queue = args.queue;
        let row = row_of(alloc, nodes, self.before(), name, args)?;
        self.rows.push(row)?;
        put_name(&mut self.names, alloc, name, Some(queue))?;
        let name = Text::from_str(alloc, name)?;
        self.routes.add_queue(alloc, &name, queue)?;
        self.made.queues = self.made.queues.saturating_add(1);
        Ok(())
    }
}
