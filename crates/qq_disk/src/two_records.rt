//! A use of a disk: two records are stored, over any disk and by its contract alone.
ghost use Rattle.std.specs.Prelude.{◌≡◌, ◌+◌, ◌++◌, Some, length, IsTrue, OnOk};
ghost use Rattle.qq_disk.specs.Disk.{now, content};
ghost use Rattle.qq_disk.specs.Crash.{Leaves, LeavesOnly};
ghost use Rattle.qq_base.specs.Causes.{HasCause};
ghost use Rattle.qq_disk.specs.Fault.{IsCaused};
ghost use Rattle.qq_disk.specs.Records.{IsKeptWhole, Extends};

use crate::{DiskFault, FileName, NodeDisk};
use std::alloc::Global;

/// Appends two records to a file all of whose bytes are kept, and syncs it.
pub fn store_two<D: NodeDisk>(
    disk: &mut D,
    alloc: Global,
    file: FileName,
    first: &[u8],
    second: &[u8],
) -> Result<(), DiskFault>
    requires { IsTrue (D.facts.tells disk.old) → IsKeptWhole (now (D.facts.past disk.old)) file }

    // Once the call has returned Ok, each crash leaves a file that has both.
    ensures stored { IsTrue (D.facts.tells disk.old) →
        let old = content (now (D.facts.past disk.old)) file in
        let all = old ++ first.now ++ second.now in
        OnOk result (Leaves (λ i. i file ≡ Some all) (now (D.facts.past disk.new))) }

    // At each moment a crash leaves the old bytes, and then others no longer than the new ones.
    ensures any_moment { IsTrue (D.facts.tells disk.old) →
        let old = content (now (D.facts.past disk.old)) file in
        let most = length first.now + length second.now in
        LeavesOnly (λ i. Extends old most (i file))
        (D.facts.past disk.old) (D.facts.past disk.new) }

    ensures cause { HasCause IsCaused (D.facts.faults disk.old) (D.facts.faults disk.new) result }
{
    disk.append(alloc, file, first)?;
    disk.append(alloc, file, second)?;
    disk.sync(alloc, file)
}
