ghost use Rattle.std.specs.Prelude.{◌≡◌, ◌≤◌, [], false, true, IfNone, IfOk, IfSome, IsOkUnless, OnOk, option_map};
ghost use Rattle.std.specs.Str.{bytes_eq};
ghost use Rattle.qq_base.specs.Causes.{HasCause, Rose};
ghost use Rattle.qq_base.specs.declared.memory.Memory.TheVariants.{Want};
ghost use Rattle.qq_ports.specs.Yard.{IsYardCaused};
ghost use Rattle.qq_ports.specs.FolderYard.{has_root, node_folder, IsDiskOf, IsOpenedFirst, IsReopened, IsCrashed};

use crate::{Yard, YardFault};
use itoa::Buffer;
use qq_base::{Memory, NodeId};
use qq_dir_disk::{DirDisk, DiskFile, LockedRoot, lock_root};
use qq_disk::{EitherDisk, Image};
use qq_mem_disk::MemDisk;
use std::alloc::Global;
use std::io::ErrorKind;
use std::rt::Files;

/// Disks of the operating system: in memory without a root, and with one in a folder for each node.
///
/// A root is locked before the first disk in it is given, so that a second process is refused. It stays locked
/// until the yard ends, or the process. A root is known by its path, letter by letter. Folders of nodes are
/// neither opened nor made here.
#[derive(Drop)]
pub struct FolderYard<R: Files> {
    rt: R,
    roots: Vec<LockedRoot<R::File>>,
    faults: u64,
}

impl<R: Files> FolderYard<R>
where
    R::File: DiskFile,
{
    /// A yard over this system's files. Nothing is asked of the system yet.
    pub fn new(rt: R, alloc: Global) -> Self
        ensures roots { result.roots.items ≡ [] }
        ensures faults { result.faults ≡ 0 }
    {
        FolderYard {
            rt,
            roots: Vec::new(alloc),
            faults: 0,
        }
    }

    fn has_root(&self, path: &str) -> bool
        ensures { result ≡ has_root path.now self.now.roots.items }
    {
        self.roots.iter().any(|root| root.is_at(path))
    }

    // Counts a fault.
    fn fail(&mut self) -> YardFault
        ensures failed { result ≡ YardFault.Failed }
        ensures later { self.old.faults ≤ self.new.faults }
        ensures rose { Rose self.old.faults self.new.faults }
    {
        self.faults = self.faults.saturating_add(1);
        YardFault::Failed
    }

    // Locks a root that isn't locked yet.
    fn lock(&mut self, alloc: Global, path: &str) -> Result<(), YardFault>
        ensures locked { OnOk result (has_root path.now self.new.roots.items ≡ true) }
        ensures cause { HasCause IsYardCaused self.old.faults self.new.faults result }
    {
        if self.has_root(path) {
            return Ok(());
        }
        self.roots.reserve(1)?;
        match lock_root(&self.rt, alloc, path) {
            Ok(Some(root)) => {
                self.roots.push_reserved(root);
                Ok(())
            }
            Err(error) if error.kind() == ErrorKind::OutOfMemory => {
                Err(YardFault::Memory(Memory::Want))
            }
            Ok(None) | Err(_) => Err(self.fail()),
        }
    }
}

// The folder of a node under a root.
fn node_folder(alloc: Global, root: &str, node: NodeId) -> Result<String, Memory>
    ensures path { IfOk result (λ path. path.bytes.items ≡ node_folder root.now node) }
    ensures want { IsOkUnless result Want }
{
    let mut path = String::from_str(alloc, root)?;
    path.push_str("/node-")?;
    let mut buffer = Buffer::new();
    path.push_str(buffer.format(node.0))?;
    Ok(path)
}

impl<R: Files + AllocGlobal + Clone + Drop + Send> Yard for FolderYard<R>
where
    R::File: DiskFile + Send,
{
    type Disk = EitherDisk<MemDisk, DirDisk<R>>;

    ghost faults = { λ yard. yard.faults };

    ghost is_given = { λ _ _ _. true };

    /// With a root it fails where another process has that locked, and where the system fails. An empty path is
    /// no root: `/node-1` and `lock` would be other folders than those that anybody meant.
    fn disk(
        &mut self,
        alloc: Global,
        root: Option<&str>,
        node: NodeId,
    ) -> Result<EitherDisk<MemDisk, DirDisk<R>>, YardFault>
        ensures ok { IfOk result (λ disk. IsDiskOf (λ dir. dir.folder.path.bytes.items)
            (option_map (λ text. text.now) root.entry) node disk) }
        ensures opened { IfOk result IsOpenedFirst }
        ensures locked { IfSome root.entry (λ path.
            OnOk result (has_root path.now self.new.roots.items ≡ true)) }
        ensures named { IfSome root.entry (λ path. OnOk result (bytes_eq path.now [] ≡ false)) }
        ensures want { IfNone root.entry (IsOkUnless result (YardFault.Memory Want)) }
        ensures cause { HasCause IsYardCaused self.old.faults self.new.faults result }
    {
        let Some(root) = root else {
            return Ok(EitherDisk::First(MemDisk::new(alloc)));
        };
        if root == "" {
            return Err(self.fail());
        }
        self.lock(alloc, root)?;
        let folder = node_folder(alloc, root, node)?;
        Ok(EitherDisk::Second(DirDisk::new(self.rt.clone()?, alloc, folder)))
    }

    /// A folder is opened again, and holds what is found there, whatever the image. A disk of which a sync or an
    /// append has failed stays failed.
    fn crash(
        &mut self,
        alloc: Global,
        disk: EitherDisk<MemDisk, DirDisk<R>>,
        image: &Image,
    ) -> Result<EitherDisk<MemDisk, DirDisk<R>>, YardFault>
        ensures ok { IfOk result (λ after.
            IsCrashed (λ old new. IsReopened old.folder old.faults new.folder new.faults)
            image.now disk after) }
        ensures roots { self.new.roots ≡ self.old.roots }
        ensures want { IsOkUnless result (YardFault.Memory Want) }
        ensures cause { HasCause IsYardCaused self.old.faults self.new.faults result }
    {
        match disk {
            EitherDisk::First(disk) => Ok(EitherDisk::First(disk.crash(alloc, image)?)),
            EitherDisk::Second(disk) => Ok(EitherDisk::Second(disk.reopen(alloc))),
        }
    }
}
