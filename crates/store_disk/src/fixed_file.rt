//! A file in memory that allocates all its memory once.
ghost use Rattle.std.specs.Prelude.{◌≡◌, ◌≤◌, ◌<◌, ◌+◌, ℕ, [], ◌∷◌, ◌++◌, length, take, replicate, slice_index, IfOk};
ghost use Rattle.store_disk.specs.Files.{HasAt};
ghost use Rattle.store_disk.specs.Medium.{overwritten};

use crate::OutOfMemory;
use crate::put::put;
use std::alloc::Global;

// A file of limited size. Its memory is allocated once.
#[derive(Drop)]
pub struct FixedFile {
    // The file is the first `len` bytes; all bytes after it are zero.
    bytes: Vec<u8>,
    len: usize,
    ghost fits: { len ≤ length bytes.items },
    ghost zeros: { (i : ℕ) → len ≤ i → slice_index bytes.items i ≡ 0 },
}

impl FixedFile {
    ghost use Rattle.store_disk.specs.FixedFile.{bytes_of, most_of};

    pub fn new(alloc: Global, most: usize) -> Result<FixedFile, OutOfMemory>
        ensures bytes { IfOk result (λ f. bytes_of f ≡ []) }
        ensures most { IfOk result (λ f. most_of f ≡ most) }
    {
        Ok(FixedFile {
            bytes: vec![in alloc; 0; most]?,
            len: 0,
        })
    }

    pub fn len(&self) -> usize
        ensures { result ≡ length (bytes_of self.now) }
    {
        self.len
    }

    pub fn most(&self) -> usize
        ensures { result ≡ most_of self.now }
    {
        self.bytes.len()
    }

    // The byte at offset `place`, 0 past the end.
    pub fn byte(&self, place: usize) -> u8
        requires { place < most_of self.now }
        ensures { result ≡ slice_index (bytes_of self.now) place }
    {
        self.bytes[place]
    }

    pub fn read(&self, at: usize, into: &mut [u8])
        requires { at + length into.old ≤ length (bytes_of self.now) }
        ensures { HasAt at into.new (bytes_of self.now) }
    {
        into.copy_from_slice(&self.bytes[at..at + into.len()]);
    }

    pub fn push(&mut self, byte: u8)
        requires { length (bytes_of self.old) < most_of self.old }
        ensures bytes { bytes_of self.new ≡ bytes_of self.old ++ byte ∷ [] }
        ensures most { most_of self.new ≡ most_of self.old }
    {
        self.bytes[self.len] = byte;
        self.len += 1;
    }

    pub fn write(&mut self, at: usize, from: &[u8])
        requires { at + length from.now ≤ most_of self.old }
        ensures bytes { bytes_of self.new ≡ overwritten at from.now (bytes_of self.old) }
        ensures most { most_of self.new ≡ most_of self.old }
    {
        if !from.is_empty() {
            put(&mut self.bytes, at, from);
            self.len = self.len.max(at + from.len());
        }
    }

    pub fn copy(&mut self, other: &FixedFile)
        requires { most_of self.old ≡ most_of other.now }
        ensures bytes { bytes_of self.new ≡ bytes_of other.now }
        ensures most { most_of self.new ≡ most_of self.old }
    {
        self.bytes.copy_from_slice(&other.bytes);
        self.len = other.len;
    }
}
