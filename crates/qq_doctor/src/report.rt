//! What is said of each queue, as text.
ghost use Rattle.std.specs.Prelude.{◌≡◌, ◌||◌, ◌++◌, [], ℕ, List, false, length, IsOkUnless, OnOk};
ghost use Rattle.std.specs.List.{list_any};
ghost use Rattle.qq_defs.specs.Runnable.{IsRunnable};
ghost use Rattle.qq_route.specs.Setup.{state_of};
ghost use Rattle.qq_doctor.specs.Lanes.{Found as FoundLane};
ghost use Rattle.qq_doctor.specs.Sorted.{AreSorted};
ghost use Rattle.qq_doctor.specs.Report.{AddsLines, is_difference, side_text, status_of, verdict_text};
ghost use Rattle.qq_doctor.specs.declared.verdict.Verdict.{Verdict as VerdictOf};

use crate::checking::check;
use crate::found::Found;
use crate::verdict::Verdict;
use qq_base::{Memory, NodeId, Term};
use qq_cluster_run::status::DONE;
use qq_route::Setup;
use qq_script::{push_number, push_text};
use std::alloc::Global;

/// The status where two lanes of a queue differ.
pub const DIFFERS: u8 = 17;

/// What is said of all queues.
#[derive(Drop)]
pub(crate) struct Report {
    /// A line for each.
    pub text: Vec<u8>,
    /// Whether two lanes of one differ.
    pub differs: bool,
}

fn push_side(text: &mut Vec<u8>, by: (NodeId, Term)) -> Result<(), Memory>
    ensures ok { OnOk result (text.new.items ≡ text.old.items ++ side_text by) }
    ensures want { IsOkUnless result Memory.Want }
{
    push_text(text, " ")?;
    push_number(text, u64::from(by.0.0))?;
    push_text(text, ":")?;
    push_number(text, by.1.0)
}

fn push_verdict(text: &mut Vec<u8>, name: &str, verdict: &Verdict) -> Result<(), Memory>
    ensures ok { OnOk result (text.new.items ≡ text.old.items ++ verdict_text name.now verdict.now) }
    ensures want { IsOkUnless result Memory.Want }
{
    match verdict {
        Verdict::Agree { upto } => {
            push_text(text, "agree ")?;
            push_text(text, name)?;
            push_text(text, " ")?;
            push_number(text, upto.0)?;
        }
        Verdict::Differ { index, a, b } => {
            push_text(text, "differ ")?;
            push_text(text, name)?;
            push_text(text, " ")?;
            push_number(text, index.0)?;
            push_side(text, *a)?;
            push_side(text, *b)?;
        }
    }
    push_text(text, "\n")
}

impl Report {
    /// Nothing is said yet.
    pub fn new(alloc: Global) -> Self
        ensures text { result.text.items ≡ [] }
        ensures differs { result.differs ≡ false }
    {
        Report {
            text: Vec::new(alloc),
            differs: false,
        }
    }

    // Adds the line of a queue.
    fn add(&mut self, name: &str, verdict: &Verdict) -> Result<(), Memory>
        ensures text { OnOk result (self.new.text.items
            ≡ self.old.text.items ++ verdict_text name.now verdict.now) }
        ensures differs { OnOk result (self.new.differs
            ≡ (self.old.differs || is_difference verdict.now)) }
        ensures want { IsOkUnless result Memory.Want }
    {
        push_verdict(&mut self.text, name, verdict)?;
        if let Verdict::Differ { .. } = verdict {
            self.differs = true;
        }
        Ok(())
    }

    /// Adds the lines of a cluster's queues, of which these lanes were found.
    pub fn add_all(&mut self, setup: &Setup, found: &Found) -> Result<(), Memory>
        requires runs { IsRunnable (state_of setup.now) }
        requires count { length found.now.rows.items ≡ length setup.now.queues }
        ensures ok { OnOk result ((count : ℕ) (lanes : List FoundLane) →
            AreSorted count lanes found.now.rows.items →
            AddsLines setup.now.queues lanes self.old self.new) }
        ensures want { IsOkUnless result Memory.Want }
    {
        let rows = setup.queues.as_slice();
        'rows: for at in 0..rows.len() {
            let row = &rows[at];
            let verdict = check(row.members.len() as u8, found.of_place(at));
            self.add(row.name.as_str(), &verdict)?;
        }
        Ok(())
    }

    /// The exit status.
    pub fn status(&self) -> u8
        ensures { (said : List VerdictOf) → self.now.differs ≡ list_any is_difference said →
            result ≡ status_of said }
    {
        if self.differs { DIFFERS } else { DONE }
    }
}
