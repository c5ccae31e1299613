ghost use Rattle.qq_base.specs.Causes.{HasCause};
ghost use Rattle.qq_disk.specs.Fault.{IsCaused};
ghost use Rattle.std.specs.Prelude.{◌≡◌, if◌then◌else◌, Ok, Err};

use qq_disk::DiskFault;
use std::alloc::Global;

/// The calls and faults so far, and the calls that are to fail.
#[derive(Drop)]
pub struct Counter {
    pub calls: u64,
    pub faults: u64,
    /// The numbers of calls that fail.
    pub fails: Vec<u64>,
    /// How many calls pass before all fail.
    pub fuse: Option<u64>,
}

impl Counter {
    ghost use Rattle.qq_mem_disk.specs.Counter.{count_call, will_fail, is_blown, burn, IsFresh};

    /// No calls so far, and none that is to fail.
    pub fn new(alloc: Global) -> Counter
        ensures { IsFresh result }
    {
        Counter {
            calls: 0,
            faults: 0,
            fails: Vec::new(alloc),
            fuse: None,
        }
    }

    /// Counts a call, which may be one that fails.
    pub fn count_call(&mut self) -> Result<(), DiskFault>
        ensures count_call { self.new ≡ count_call self.old }
        ensures cause { HasCause IsCaused self.old.faults self.new.faults result }
        ensures fails { result ≡ (if will_fail self.old then Err DiskFault.Failed else Ok tt) }
    {
        self.calls = self.calls.saturating_add(1);
        let blown = self.burn();
        if blown || self.fails.contains(&self.calls) {
            self.faults = self.faults.saturating_add(1);
            return Err(DiskFault::Failed);
        }
        Ok(())
    }

    /// Whether the fuse is blown; else it burns by one call.
    fn burn(&mut self) -> bool
        ensures result { result ≡ is_blown self.old.fuse }
        ensures after { self.new ≡ record self.old { fuse = burn self.old.fuse } }
    {
        match self.fuse {
            Some(0) => true,
            Some(left) => {
                self.fuse = Some(left - 1);
                false
            }
            None => false,
        }
    }
}
