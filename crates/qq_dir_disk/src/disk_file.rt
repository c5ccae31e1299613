ghost use Rattle.std.specs.Prelude.{◌≡◌, Bool, true, IfOk, OnOk};

use std::fs::{File, OpenFile, TryLockError};
use std::io;

/// An open file, as a disk in a folder asks for it. Nothing is known of a file of the system itself; a test's may
/// tell what was asked of it.
pub trait DiskFile: OpenFile {
    /// Whether the file's bytes are on the disk, as far as the system has answered.
    ghost is_synced: { Self → Bool };

    /// Whether nobody else may lock the file.
    ghost is_locked: { Self → Bool };

    /// Syncs the file's bytes, and as much else as it takes to read them again.
    fn sync_bytes(&self) -> io::Result<()>
        ensures { OnOk result (is_synced self.now ≡ true) };

    /// Syncs all of the file, or of a folder its names.
    fn sync_whole(&self) -> io::Result<()>
        ensures { OnOk result (is_synced self.now ≡ true) };

    /// Locks the file until it is closed, by the end of the process at the latest. False where another open of
    /// the file has it locked.
    fn lock_file(&self) -> io::Result<bool>
        ensures { IfOk result (λ locked. locked ≡ true → is_locked self.now ≡ true) };
}

impl DiskFile for File {
    ghost use Rattle.std.specs.Prelude.{true};

    ghost is_synced = { λ _. true };

    ghost is_locked = { λ _. true };

    fn sync_bytes(&self) -> io::Result<()> {
        self.sync_data()
    }

    fn sync_whole(&self) -> io::Result<()> {
        self.sync_all()
    }

    fn lock_file(&self) -> io::Result<bool> {
        match self.try_lock() {
            Ok(()) => Ok(true),
            Err(TryLockError::WouldBlock) => Ok(false),
            Err(TryLockError::Error(error)) => Err(error),
        }
    }
}
