//! Payloads in memory: one after another, with the offset at which each ends.
ghost use Rattle.std.specs.Prelude.{◌≡◌, ◌≤◌, ◌<◌, ◌+◌, ◌*◌, ◌^◌, ◌++◌, [], ◌∷◌, length, take, OnOk, OnErr, option_copied, slice_get, slice_index, slice_range};
ghost use Rattle.store_journal.specs.Records.{records_bytes};

use crate::record::HEAD;
use std::alloc::{AllocError, Global};
use std::marker::Model;

/// A list of payloads. Two vectors hold them all, so no payload needs an allocation of its own.
#[derive(Drop)]
pub struct Payloads {
    // all payloads, without their gates and lengths
    bytes: Vec<u8>,
    // the offset at which each of them ends
    ends: Vec<usize>,
}

impl Model for Payloads {
    ghost use Rattle.std.specs.Prelude.{ℕ, List};

    ghost Value = { List (List ℕ) };

    ghost use Rattle.store_journal.specs.Payloads.{kept_payloads, EndWithBytes};

    ghost view = { kept_payloads };

    ghost invariant = { EndWithBytes };
}

// Where the n-th part begins, if the parts end at these offsets and the first begins at 0.
fn begin_in(ends: &[usize], n: usize) -> usize
    requires { n ≤ length ends.now }
    ensures { result ≡ slice_index (0 ∷ ends.now) n }
{
    if n == 0 { 0 } else { ends[n - 1] }
}

// The bytes from one offset up to another.
fn part(bytes: &[u8], begin: usize, end: usize) -> &[u8]
    requires rises { begin ≤ end }
    requires within { end ≤ length bytes.now }
    ensures { result.now ≡ slice_range bytes.now begin end }
{
    &bytes[begin..end]
}

impl Payloads {
    /// The empty list. It allocates no memory.
    pub fn new(alloc: Global) -> Payloads
        ensures { result ≡ [] }
    {
        Payloads {
            bytes: Vec::new(alloc),
            ends: Vec::new(alloc),
        }
    }

    /// How many there are.
    pub fn len(&self) -> usize
        ensures { result ≡ length self.now }
    {
        self.ends.len()
    }

    // Where the n-th payload begins, or if there are n, where the last one ends.
    fn start(&self, n: usize) -> usize
        requires { n ≤ length self.now }
        ensures { result + 5 * n ≡ length (records_bytes (take n self.now)) }
    {
        begin_in(&self.ends, n)
    }

    /// How many bytes the records of the first n take.
    pub fn len_of_first(&self, n: usize) -> u64
        requires there { n ≤ length self.now }
        requires fits { length (records_bytes (take n self.now)) < 2 ^ 64 }
        ensures { result ≡ length (records_bytes (take n self.now)) }
    {
        self.start(n) as u64 + HEAD * n as u64
    }

    /// The n-th payload.
    pub fn get(&self, n: usize) -> Option<&[u8]>
        ensures { option_copied result ≡ slice_get self.now n }
    {
        if n < self.ends.len() {
            let begin = begin_in(&self.ends, n);
            let end = self.ends[n];
            Some(part(&self.bytes, begin, end))
        } else {
            None
        }
    }

    /// Appends a payload. If memory runs out, the list stays as it was.
    pub fn push(&mut self, payload: &[u8]) -> Result<(), AllocError>
        ensures pushed { OnOk result (self.new ≡ self.old ++ payload.now ∷ []) }
        ensures stays { OnErr result (self.new ≡ self.old) }
    {
        self.ends.reserve(1)?;
        self.bytes.extend_from_slice(payload)?;
        self.ends.push_reserved(self.bytes.len());
        Ok(())
    }
}
