//! A file that knows why its last call failed.
ghost use Rattle.std.specs.Prelude.{◌≡◌};

use crate::Cause;
use std::cell::Cell;
use std::fs::{Metadata, OpenFile};
use std::io;
use std::os::unix::fs::FileExt;

/// A file that keeps why its last call failed, so that whoever lends it to another function can report that.
#[derive(Drop)]
pub struct NotedFile<F> {
    file: F,
    fault: Cell<Option<io::Error>>,
}

impl<F> NotedFile<F> {
    ghost use Rattle.std.specs.Prelude.{◌≡◌, IfSome};
    ghost use Rattle.cli_files.specs.Causes.{IsOfSystem};
    ghost use Rattle.cli_files.specs.NotedFile.{file_noted};

    /// Wraps an open file.
    pub fn new(file: F) -> NotedFile<F>
        ensures { file_noted result ≡ file }
    {
        NotedFile {
            file,
            fault: Cell::new(None),
        }
    }

    /// Why the system refused the last call, if it failed.
    pub fn fault(&self) -> Option<Cause>
        ensures { IfSome result IsOfSystem }
    {
        self.fault.get().map(Cause::System)
    }

    // Keeps the error of a call, or that there was none, and returns the call's result.
    fn noted<T>(&self, done: io::Result<T>) -> io::Result<T>
        ensures { result ≡ done }
    {
        match &done {
            Ok(_) => self.fault.set(None),
            Err(error) => self.fault.set(Some(*error)),
        }
        done
    }
}

impl<F: FileExt> FileExt for &NotedFile<F> {
    ghost use Rattle.std.specs.Prelude.{◌≡◌};
    ghost use Rattle.std.specs.Io.{ReadsAtMost, WritesAtMost};

    fn read_at(&self, buf: &mut [u8], offset: u64) -> io::Result<usize> {
        self.noted(self.file.read_at(buf, offset))
    }

    fn write_at(&self, buf: &[u8], offset: u64) -> io::Result<usize> {
        self.noted(self.file.write_at(buf, offset))
    }
}

impl<F: OpenFile> OpenFile for &NotedFile<F> {
    fn metadata(&self) -> io::Result<Metadata> {
        self.noted(self.file.metadata())
    }

    fn set_len(&self, size: u64) -> io::Result<()> {
        self.noted(self.file.set_len(size))
    }

    fn sync_all(&self) -> io::Result<()> {
        self.noted(self.file.sync_all())
    }

    fn sync_data(&self) -> io::Result<()> {
        self.noted(self.file.sync_data())
    }
}
