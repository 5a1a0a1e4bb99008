//! A real file as a disk. That it keeps the facts of `Disk` is assumed; its failures are counted exactly.
ghost use Rattle.std.specs.Prelude.{◌≡◌, ◌≤◌, ◌+◌, IfOk, IfErr, OnOk, is_ok};
ghost use Rattle.store_disk.specs.Stops.{Counted};

use crate::{DeviceFault, Disk};
use std::fs::{Files, OpenFile, OpenOptions};
use std::io::{self, ErrorKind};
use std::os::unix::fs::FileExt;

/// A real file.
///
/// Contracts can't see its bytes: it is assumed that its reads, and what a stop leaves, keep the facts of `Disk`.
/// An interrupted system call is tried again, and a short one is continued. A read past the end is a fault. If the
/// file is open only for reads, a medium that doesn't support sync is no fault.
#[derive(Drop)]
pub struct FileDisk<F> {
    file: F,
    writes: bool,
    failures: u64,
}

impl<F> FileDisk<F> {
    ghost use Rattle.store_disk.specs.File.{file_failures};

    /// The disk of a file that is open for reads, and for writes too if `writes` is true.
    pub fn new(file: F, writes: bool) -> FileDisk<F>
        ensures { file_failures result ≡ 0 }
    {
        FileDisk {
            file,
            writes,
            failures: 0,
        }
    }

    /// Opens the file for reads and writes, without truncating it. If `new` is true and there is no file, it is
    /// created.
    pub fn open<R: Files<File = F>>(
        rt: &R,
        path: &str,
        new: bool,
    ) -> Result<FileDisk<F>, DeviceFault>
        ensures { IfOk result (λ d. file_failures d ≡ 0) }
    {
        let opened = OpenOptions::new()
            .read(true)
            .write(true)
            .create(new)
            .open(rt, path);
        match opened {
            Ok(file) => Ok(FileDisk::new(file, true)),
            Err(_) => Err(DeviceFault),
        }
    }

    // Counts a failed system call.
    fn counted<T>(&mut self, outcome: io::Result<T>) -> Result<T, DeviceFault>
        ensures count { Counted (file_failures self.old) (file_failures self.new) result }
        ensures same { is_ok result ≡ is_ok outcome }
    {
        match outcome {
            Ok(value) => Ok(value),
            Err(_) => {
                self.failures = self.failures.saturating_add(1);
                Err(DeviceFault)
            }
        }
    }
}

// The outcome of syncing a file that is open only for reads: it is no fault that the medium can't be synced.
fn without_refusal(done: io::Result<()>) -> io::Result<()> {
    match done {
        Err(error) => match error.kind() {
            ErrorKind::InvalidInput | ErrorKind::ReadOnlyFilesystem | ErrorKind::Unsupported => {
                Ok(())
            }
            _ => Err(error),
        },
        Ok(()) => Ok(()),
    }
}

impl<F: FileExt + OpenFile> Disk for FileDisk<F> {
    ghost use Rattle.store_disk.specs.File.{file_failures};

    ghost reads = { λ _ _. ⊥ };

    ghost may_leave = { λ _ _. ⊥ };

    ghost moment = { λ _. 0 };

    ghost left_since = { λ _ _ _. ⊥ };

    ghost failures = { λ d. file_failures d };

    ghost reads_an_image = { λ _ _ is. is };

    ghost counts_now = { λ _ _ _ _ is. is };

    ghost only_now = { λ _ _ is. is };

    fn len(&mut self) -> Result<u64, DeviceFault> {
        let found = self.file.metadata();
        Ok(self.counted(found)?.len())
    }

    fn read(&mut self, at: u64, into: &mut [u8]) -> Result<(), DeviceFault> {
        let done = self.file.read_exact_at(into, at);
        self.counted(done)
    }

    fn write_at(&mut self, at: u64, from: &[u8]) -> Result<(), DeviceFault> {
        let done = self.file.write_all_at(from, at);
        self.counted(done)
    }

    fn sync(&mut self) -> Result<(), DeviceFault> {
        let done = self.file.sync_all();
        let done = if self.writes {
            done
        } else {
            without_refusal(done)
        };
        self.counted(done)
    }
}
