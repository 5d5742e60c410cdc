//! A file of the operating system.
ghost use Rattle.std.specs.Prelude.{[]};

use crate::{Device, JournalError};
use std::alloc::{AllocError, Global};
use std::fs::{File, OpenOptions};
use std::io;
use std::os::unix::fs::{FileExt, OpenOptionsExt};

/// The owner may read and write.
const OWNER_ALONE: u32 = 0o600;

/// A file that is open, and that no other process may open so.
///
/// No contract can say what the operating system does, so it states nothing, and is of no honest kind.
#[derive(Drop)]
pub struct DiskFile {
    file: File,
}

impl DiskFile {
    /// Opens a file, and makes one where there is none, which its owner alone may read: it has tokens.
    /// It fails where another process has it open.
    pub fn open(rt: &HostRuntime, path: &str, folder: &str) -> io::Result<DiskFile> {
        let file = OpenOptions::new()
            .read(true)
            .write(true)
            .create(true)
            .mode(OWNER_ALONE)
            .open(rt, path)?;
        if file.try_lock().is_err() {
            return Err(io::Error::from(io::ErrorKind::ResourceBusy));
        }
        // A file that is new is in its folder once the folder is on the disk.
        file.sync_all()?;
        File::open(rt, folder)?.sync_all()?;
        Ok(DiskFile { file })
    }
}

impl Device for DiskFile {
    ghost is_honest = { ⊥ };

    ghost seen = { λ _. [] };

    ghost may_leave = { λ _ _. ⊥ };

    ghost moment = { λ _. 0 };

    ghost left_since = { λ _ _ _. ⊥ };

    ghost faults = { λ _. 0 };

    ghost counts_now = { λ _ _ _ _ none. none };

    ghost only_now = { λ _ _ none. none };

    fn len(&mut self) -> Result<usize, JournalError> {
        match self.file.metadata() {
            Ok(metadata) => Ok(metadata.len() as usize),
            Err(_) => Err(JournalError::Failed),
        }
    }

    fn read_at(&mut self, alloc: Global, at: usize, count: usize) -> Result<Vec<u8>, JournalError> {
        let mut bytes = vec![in alloc; 0u8; count]?;
        match self.file.read_exact_at(&mut bytes, at as u64) {
            Ok(()) => Ok(bytes),
            Err(_) => Err(JournalError::Failed),
        }
    }

    fn write_at(&mut self, at: usize, bytes: &[u8]) -> Result<(), JournalError> {
        match self.file.write_all_at(bytes, at as u64) {
            Ok(()) => Ok(()),
            Err(_) => Err(JournalError::Failed),
        }
    }

    fn sync(&mut self) -> Result<(), JournalError> {
        match self.file.sync_data() {
            Ok(()) => Ok(()),
            Err(_) => Err(JournalError::Failed),
        }
    }
}
