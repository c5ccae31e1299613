ghost use Rattle.std.specs.Prelude.{◌≡◌, ◌+◌, ◌||◌, ℕ, List, Result, IfOk, option_map, nat_eq, not, is_some};
ghost use Rattle.std.specs.List.{list_any};
ghost use Rattle.qq_base.specs.Causes.{HasCause};
ghost use Rattle.qq_ports.specs.declared.shelf.ShelfFault.{ShelfFault};
ghost use Rattle.qq_ports.specs.declared.mem_shelf.MemShelf.{MemShelf};
ghost use Rattle.qq_ports.specs.Shelf.{Gives, IsShelfCaused, CountsFetch, file_of, mem_file, files_of, has_failed, fault_count};

use crate::shelf::{Shelf, ShelfFault};
use std::alloc::Global;

/// A shelf in memory. The calls of a list, counted from 1, fail. Of files with one name the first counts.
#[derive(Debug, Drop)]
pub struct MemShelf {
    files: Vec<(String, Vec<u8>)>,
    calls: u64,
    faults: u64,
    fails: Vec<u64>,
}

impl MemShelf {
    /// A shelf of these files. It takes no memory.
    pub fn new(files: Vec<(String, Vec<u8>)>, fails: Vec<u64>) -> Self
        ensures files { result.files.items ≡ files.items }
        ensures faults { result.faults ≡ 0 }
        ensures calls { result.calls ≡ 0 }
        ensures fails { result.fails.items ≡ fails.items }
    {
        MemShelf {
            files,
            calls: 0,
            faults: 0,
            fails,
        }
    }
}

fn find<'a>(files: &'a [(String, Vec<u8>)], name: &str) -> Option<&'a Vec<u8>>
    ensures { option_map (λ bytes. bytes.now.items) result ≡
        file_of (λ key. key.bytes.items) (λ bytes. bytes.items) files.now name.now }
{
    for (key, bytes) in files {
        if key.as_str() == name {
            return Some(bytes);
        }
    }
    None
}

impl Shelf for MemShelf {
    ghost files = { files_of };

    ghost faults = { λ shelf. shelf.faults };

    fn fetch(&mut self, alloc: Global, name: &str) -> Result<Vec<u8>, ShelfFault>
        ensures ok { IfOk result (λ bytes. Gives (files_of self.old) name.now bytes.items) }
        ensures same { files_of self.new ≡ files_of self.old }
        ensures cause { HasCause IsShelfCaused self.old.faults self.new.faults result }
        ensures counts { CountsFetch self.old self.new name.now result }
    {
        self.calls = self.calls.saturating_add(1);
        if self.fails.contains(&self.calls) {
            self.faults = self.faults.saturating_add(1);
            return Err(ShelfFault::Failed);
        }
        match find(&self.files, name) {
            Some(bytes) => Ok(Vec::from_slice(alloc, bytes)?),
            None => {
                self.faults = self.faults.saturating_add(1);
                Err(ShelfFault::Failed)
            }
        }
    }
}

/// A shelf in memory fails the calls whose numbers are listed, from 1, and those for files that it hasn't,
/// and counts its failures: so its second call fails exactly where 2 is listed or the file isn't there, and
/// after it as many faults are counted as of the two calls failed. The law of its calls: it does nothing.
pub fn listed_fetches_fail()
    ensures failed { (old mid new : MemShelf) (a b : List ℕ)
        (first second : Result (List ℕ) ShelfFault) → old.calls ≡ 0
        → CountsFetch old mid a first → CountsFetch mid new b second → has_failed second
        ≡ (list_any (λ n. nat_eq n 2) old.fails.items || not (is_some (mem_file old b))) }
    ensures counted { (old mid new : MemShelf) (a b : List ℕ)
        (first second : Result (List ℕ) ShelfFault) → old.faults ≡ 0
        → CountsFetch old mid a first → CountsFetch mid new b second
        → new.faults ≡ fault_count first + fault_count second }
{}
