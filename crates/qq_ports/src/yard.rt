ghost use Rattle.std.specs.Prelude.{◌≡◌, ℕ, Bool, true, List, Option, IsTrue, IfOk, IfNone, option_map};
ghost use Rattle.qq_base.specs.Causes.{HasCause};
ghost use Rattle.qq_ports.specs.Yard.{IsYardCaused, IsNew, IsOpened, IsAfterCrash};

use crate::YardFault;
use qq_base::NodeId;
use qq_disk::{Image, NodeDisk};
use std::alloc::Global;

/// Where the disks of nodes come from.
pub trait Yard {
    /// A node's disk, which a thread of its own may write.
    type Disk: NodeDisk + Send;

    /// How often the yard has failed. The count never falls, and stops at 2^64 - 1.
    ghost faults: { Self → ℕ };

    /// Whether a disk was given under a root, or without one, for the node of a number. Nobody but the yard can say so:
    /// what a disk does later tells nothing of it.
    ghost is_given: { Option (List ℕ) → ℕ → Self.Disk → Bool };

    /// The disk of a node under a root.
    ///
    /// - `given`: the disk was given under this root for this node.
    /// - `opened`: it was just opened, where it tells its contents.
    /// - `empty`: without a root nothing was ever on the disk, where it tells its contents.
    /// - `cause`: it fails only at a counted fault.
    fn disk(
        &mut self,
        alloc: Global,
        root: Option<&str>,
        node: NodeId,
    ) -> Result<Self::Disk, YardFault>
        ensures given { IfOk result (λ disk.
            is_given (option_map (λ text. text.now) root.entry) node.0 disk ≡ true) }
        ensures opened { IfOk result (λ disk.
            IsTrue (Self.Disk.facts.tells disk) → IsOpened (Self.Disk.facts.past disk)) }
        ensures empty { IfNone root.entry (IfOk result (λ disk.
            IsTrue (Self.Disk.facts.tells disk) → IsNew (Self.Disk.facts.past disk))) }
        ensures cause { HasCause IsYardCaused (faults self.old) (faults self.new) result };

    /// The disk after a crash. Where the call is refused, the disk is given up.
    ///
    /// - `left`: a disk that tells its contents holds what the image names, and no moment came before.
    /// - `told`: the disk tells its contents as before.
    /// - `cause`: it fails only at a counted fault.
    fn crash(
        &mut self,
        alloc: Global,
        disk: Self::Disk,
        image: &Image,
    ) -> Result<Self::Disk, YardFault>
        ensures left { IsTrue (Self.Disk.facts.tells disk) → IfOk result (λ after.
            IsAfterCrash image.now (Self.Disk.facts.past disk) (Self.Disk.facts.past after)) }
        ensures told { IfOk result (λ after. Self.Disk.facts.tells after
            ≡ Self.Disk.facts.tells disk) }
        ensures cause { HasCause IsYardCaused (faults self.old) (faults self.new) result };
}
