//! Laws of ports in memory: the functions do nothing, and their contracts are the laws.
ghost use Rattle.std.specs.Prelude.{◌≡◌, ℕ, List, Option, Result, true, false};
ghost use Rattle.qq_base.specs.declared.memory.Memory.{Memory};
ghost use Rattle.qq_base.specs.declared.memory.Memory.TheVariants.{Want};
ghost use Rattle.qq_base.specs.Causes.{Rose, raise};
ghost use Rattle.qq_ports.specs.declared.fault.LineFault.TheVariants.{TooLong, Memory as LineMemory};
ghost use Rattle.qq_ports.specs.declared.source.Failed.{Failed};
ghost use Rattle.qq_ports.specs.declared.mem_shelf.MemShelf.{MemShelf};
ghost use Rattle.qq_ports.specs.declared.shelf.ShelfFault.{ShelfFault};
ghost use Rattle.qq_ports.specs.declared.shelf.ShelfFault.TheVariants.{Failed as ShelfFailed, Memory as OfMemory};
ghost use Rattle.qq_ports.specs.Faults.{IsCaused};
ghost use Rattle.qq_ports.specs.Lines.{HasLineCause};
ghost use Rattle.qq_ports.specs.Memory.{Counts, is_failed};
ghost use Rattle.qq_ports.specs.Shelf.{mem_file, will_fail, has_failed, IsShelfCaused, CountsFetch};

/// What the counts of a port in memory come to.
///
/// - `fails`: a call that was to fail has failed, and both counts rise by one.
/// - `passes`: any other has not, and the count of calls alone rises.
/// - `fetch_fails`, `fetch_passes`: so for the files of a shelf, which stay as they are.
pub fn calls_in_memory_are_counted()
    ensures fails { (calls calls' faults faults' : ℕ) (result : Result ℕ Failed) →
        Counts true calls calls' faults faults' result →
        (calls' ≡ raise calls) × (faults' ≡ raise faults) × (is_failed result ≡ true) }
    ensures passes { (calls calls' faults faults' : ℕ) (result : Result ℕ Failed) →
        Counts false calls calls' faults faults' result →
        (calls' ≡ raise calls) × (faults' ≡ faults) × (is_failed result ≡ false) }
    ensures fetch_fails { (old new : MemShelf) (name : List ℕ) (result : Result ℕ ShelfFault) →
        CountsFetch old new name result → will_fail old name ≡ true →
        (new.calls ≡ raise old.calls) × (new.faults ≡ raise old.faults)
        × (has_failed result ≡ true) × (new.files ≡ old.files) }
    ensures fetch_passes { (old new : MemShelf) (name : List ℕ) (result : Result ℕ ShelfFault) →
        CountsFetch old new name result → will_fail old name ≡ false →
        (new.calls ≡ raise old.calls) × (new.faults ≡ old.faults)
        × (has_failed result ≡ false) × (new.fails ≡ old.fails) }
{}

/// Why a source, a sink or a shelf has failed, or a line is given up.
///
/// - `failed`, `shelf_failed`: a fault that its count tells.
/// - `shelf_memory`, `line_memory`: no other want of memory is told than that there is none.
/// - `too_long`: a line that is too long is given up at 70,001 bytes, one more than it may have.
pub fn faults_have_causes()
    ensures failed { (before now : ℕ) (failed : Failed) →
        IsCaused before now failed → Rose before now }
    ensures shelf_failed { (before now : ℕ) →
        IsShelfCaused before now ShelfFailed → Rose before now }
    ensures shelf_memory { (before now : ℕ) (memory : Memory) →
        IsShelfCaused before now (OfMemory memory) → memory ≡ Want }
    ensures too_long { (count before now : ℕ) (bytes rest : Option (List ℕ)) →
        HasLineCause (TooLong count) bytes rest (Rose before now) → count ≡ 70001 }
    ensures line_memory { (memory : Memory) (before now : ℕ) (bytes rest : Option (List ℕ)) →
        HasLineCause (LineMemory memory) bytes rest (Rose before now) → memory ≡ Want }
{}
