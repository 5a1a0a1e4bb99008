//! A reader and a writer of which a call may be short or fail. All tests of runs take these, so that a run is compiled
//! for one pair of streams.

use std::alloc::{AllocError, Global};
use std::io::{self, Read, Write};

/// A reader of these bytes. A slow one returns them one at a time, and every other call of it is interrupted.
#[derive(Drop)]
pub struct Input<'a> {
    pub left: &'a [u8],
    /// How many calls weren't interrupted.
    pub reads: u32,
    is_slow: bool,
    is_interrupted: bool,
    fails: bool,
}

impl<'a> Input<'a> {
    /// A reader that returns as many of its bytes as there is room for.
    pub fn of(left: &'a [u8]) -> Input<'a> {
        Input {
            left,
            reads: 0,
            is_slow: false,
            is_interrupted: false,
            fails: false,
        }
    }

    /// A slow reader, which then fails or is at its end.
    pub fn slow(left: &'a [u8], fails: bool) -> Input<'a> {
        Input {
            is_slow: true,
            fails,
            ..Input::of(left)
        }
    }
}

impl Read for Input<'_> {
    fn read(&mut self, buf: &mut [u8]) -> io::Result<usize> {
        self.is_interrupted = self.is_slow && !self.is_interrupted;
        if self.is_interrupted {
            return Err(io::Error::from(io::ErrorKind::Interrupted));
        }
        self.reads = self.reads.saturating_add(1);
        let left = self.left;
        if left.is_empty() && self.fails {
            return Err(io::Error::from(io::ErrorKind::BrokenPipe));
        }
        let most = if self.is_slow { 1 } else { left.len() };
        let count = most.min(left.len()).min(buf.len());
        buf[..count].copy_from_slice(&left[..count]);
        self.left = &left[count..];
        Ok(count)
    }
}

/// A writer that takes `room` bytes and then fails.
#[derive(Drop)]
pub struct Output {
    /// The bytes that were written and flushed.
    pub flushed: Vec<u8>,
    held: Vec<u8>,
    room: usize,
    /// How many calls failed.
    pub failures: u32,
}

impl Output {
    /// A writer that takes so many bytes.
    pub fn of(alloc: Global, room: usize) -> Output {
        Output {
            flushed: Vec::new(alloc),
            held: Vec::new(alloc),
            room,
            failures: 0,
        }
    }

    /// A writer that takes any bytes.
    pub fn new(alloc: Global) -> Output {
        Output::of(alloc, usize::MAX)
    }

    /// All bytes that were written.
    pub fn written(self) -> Result<Vec<u8>, AllocError> {
        let Output {
            mut flushed,
            held,
            ..
        } = self;
        flushed.extend_from_slice(&held)?;
        Ok(flushed)
    }
}

impl Write for Output {
    fn write(&mut self, buf: &[u8]) -> io::Result<usize> {
        let taken = self.room.min(buf.len());
        if taken == 0 && !buf.is_empty() {
            self.failures = self.failures.saturating_add(1);
            return Err(io::Error::from(io::ErrorKind::StorageFull));
        }
        self.held.extend_from_slice(&buf[..taken])?;
        self.room -= taken;
        Ok(taken)
    }

    fn flush(&mut self) -> io::Result<()> {
        self.flushed.extend_from_slice(&self.held)?;
        self.held.clear();
        Ok(())
    }
}
