//! A file that is only read, and that nobody changes meanwhile: it is locked, or it is a copy.
ghost use Rattle.std.specs.Prelude.{◌≡◌, None, Ok, false, length, IfErr, IfOk, IsSome};
ghost use Rattle.cli_files.specs.Causes.{IsOfReading};
ghost use Rattle.cli_files.specs.Locks.{IsLocked};
ghost use Rattle.cli_files.specs.ReadFile.{copy_read, file_read, filled_from};

use crate::content::{Content, content_in};
use crate::hold::{Hold, open_held};
use crate::{Access, Cause};
use std::alloc::Global;
use std::fs::{self, Files, Metadata, OpenFile};
use std::io;
use std::os::unix::fs::FileExt;

// How often a file that doesn't stand still is read again.
const TRIES: u32 = 100;

/// A file that is only read. Nobody changes what its reads show: it is locked, or they show a copy of it. The file may
/// have grown since it was copied: behind the copy's end its reads show zeros, as if what is new there weren't written.
#[derive(Drop)]
pub struct ReadFile<F> {
    /// The open file.
    pub file: F,
    copy: Option<Vec<u8>>,
}

// Fills the buffer with the bytes from an offset on, and with zeros behind their end.
fn fill_from(bytes: &[u8], buf: &mut [u8], offset: u64)
    ensures { buf.new ≡ filled_from bytes.now offset (length buf.old) }
{
    buf.fill(0);
    if offset < bytes.len() as u64 {
        let rest = &bytes[offset as usize..];
        let count = rest.len().min(buf.len());
        buf[..count].copy_from_slice(&rest[..count]);
    }
}

impl<F: FileExt> FileExt for ReadFile<F> {
    ghost use Rattle.std.specs.Prelude.{◌≡◌, Ok, length, IfSome};
    ghost use Rattle.std.specs.Io.{ReadsAtMost};
    ghost use Rattle.cli_files.specs.ReadFile.{copy_read, filled_from};

    fn read_at(&self, buf: &mut [u8], offset: u64) -> io::Result<usize>
        ensures bound { ReadsAtMost result buf.new }
        ensures copied { IfSome (copy_read self.now) (λ bytes.
            (result ≡ Ok (length buf.old))
            × (buf.new ≡ filled_from bytes offset (length buf.old))) }
    {
        match &self.copy {
            Some(bytes) => {
                fill_from(bytes.as_slice(), buf, offset);
                Ok(buf.len())
            }
            None => self.file.read_at(buf, offset),
        }
    }

    fn write_at(&self, buf: &[u8], offset: u64) -> io::Result<usize> {
        self.file.write_at(buf, offset)
    }
}

impl<F: OpenFile> OpenFile for ReadFile<F> {
    fn metadata(&self) -> io::Result<Metadata> {
        self.file.metadata()
    }

    fn set_len(&self, size: u64) -> io::Result<()> {
        self.file.set_len(size)
    }

    fn sync_all(&self) -> io::Result<()> {
        self.file.sync_all()
    }

    fn sync_data(&self) -> io::Result<()> {
        self.file.sync_data()
    }
}

// The bytes of a file, each read once.
fn bytes_in<F: FileExt + OpenFile>(alloc: Global, file: &F) -> Result<Vec<u8>, Cause>
    ensures { IfErr result IsOfReading }
{
    let len = file.metadata()?.len() as usize;
    let mut bytes = vec![in alloc; 0; len]?;
    file.read_exact_at(&mut bytes, 0)?;
    Ok(bytes)
}

// The bytes of a file that another program may change meanwhile, once two reads in turn show the same ones; `Held` if
// they never do.
fn still_bytes_in<F: FileExt + OpenFile>(alloc: Global, file: &F) -> Result<Vec<u8>, Cause>
    ensures { IfErr result IsOfReading }
{
    let mut last = bytes_in(alloc, file)?;
    for _ in 0..TRIES {
        let next = bytes_in(alloc, file)?;
        if next == last {
            return Ok(next);
        }
        last = next;
    }
    Err(Cause::Held)
}

// A copy of the project at the path, which another program has locked; `Held` if it is no project.
fn copy_at<E: AllocGlobal + Files>(rt: &E, path: &str) -> Result<ReadFile<E::File>, Cause>
where
    E::File: FileExt,
    ensures copied { IfOk result (λ f. IsSome (copy_read f)) }
    ensures refused { IfErr result IsOfReading }
{
    let file = fs::open(rt, path)?;
    match content_in(&file) {
        Ok(Content::Project) => {}
        _ => return Err(Cause::Held),
    }
    let copy = still_bytes_in(rt.alloc(), &file)?;
    Ok(ReadFile {
        file,
        copy: Some(copy),
    })
}

/// Opens the file at the path to read it, and locks it, shared, until it is closed. If another program has locked a
/// project, it is copied as it stands at one moment.
///
/// # Errors
///
/// `System`, `NotRegular`, `OutOfMemory`, or `Held` if another program has locked a file that is no project, or doesn't
/// stop changing one.
pub fn open_to_read<E: AllocGlobal + Files>(rt: &E, path: &str) -> Result<ReadFile<E::File>, Cause>
where
    E::File: FileExt + Hold,
    ensures locked { IfOk result (λ f. copy_read f ≡ None
        → IsLocked E.File.locks (file_read f) false (Ok tt)) }
    ensures refused { IfErr result IsOfReading }
{
    match open_held(rt, path, Access::Reads) {
        Ok(file) => Ok(ReadFile { file, copy: None }),
        Err(Cause::Held) => copy_at(rt, path),
        Err(cause) => Err(cause),
    }
}
