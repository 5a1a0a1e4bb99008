//! A disk with one injected fault.
ghost use Rattle.std.specs.Prelude.{◌≡◌, ◌<◌, ◌≤◌, ◌+◌, length, take, IfOk, IsErr, OnErr, OnOk, false};
ghost use Rattle.store_disk.specs.Files.{Failed, HasAt, Torn, Written};
ghost use Rattle.store_disk.specs.Stops.{Counted, Each, Elapses, Follows, LeadsBy};

use crate::countdown::Countdown;
use crate::{DeviceFault, Disk};

/// Any disk, with one injected fault.
#[derive(Drop)]
pub struct FaultDisk<D> {
    inner: D,
    countdown: Countdown,
}

impl<D> FaultDisk<D> {
    ghost use Rattle.store_disk.specs.Fault.{inner_of, calls_left, part_of, own_failures};

    /// The `k`-th call fails, counted from 1; none fails if `k` is 0. If that call is a write, its first `part`
    /// bytes are written.
    pub fn new(inner: D, k: u64, part: u32) -> Self
        ensures inner { inner_of result ≡ inner }
        ensures left { calls_left result ≡ k }
        ensures part { part_of result ≡ part }
        ensures failures { own_failures result ≡ 0 }
    {
        let countdown = Countdown {
            left: k,
            part,
            failed: false,
        };
        FaultDisk { inner, countdown }
    }

    /// Borrows the inner disk.
    pub fn inner(&self) -> &D
        ensures { result.now ≡ inner_of self.now }
    {
        &self.inner
    }
}

impl<D: Disk> FaultDisk<D> {
    ghost use Rattle.store_disk.specs.Fault.{inner_of, calls_left, part_of, own_failures, PutsDown};

    // Does the write that fails: writes its first `part` bytes.
    fn put_down(&mut self, at: u64, from: &[u8]) -> Result<(), DeviceFault>
        requires last { calls_left self.old ≡ 0 }
        requires first { self.old.countdown.failed ≡ false }
        ensures err { IsErr result }
        ensures failed { Follows (Failed at (length from.now))
            (D.reads (inner_of self.old)) (D.reads (inner_of self.new)) }
        ensures leads { LeadsBy (Failed at (length from.now))
            (D.reads (inner_of self.old)) (D.reads (inner_of self.new)) }
        ensures images { Follows (Torn at (length from.now))
            (D.may_leave (inner_of self.old)) (D.may_leave (inner_of self.new)) }
        ensures kept { Each (D.may_leave (inner_of self.old)) (D.may_leave (inner_of self.new)) }
        ensures time { let old = inner_of self.old in let new = inner_of self.new in
            Elapses (D.moment old) (D.moment new) (D.left_since old) (D.left_since new)
            (D.may_leave new) }
        ensures count { Counted (own_failures self.old + D.failures (inner_of self.old))
            (own_failures self.new + D.failures (inner_of self.new)) result }
        ensures left { calls_left self.new ≡ 0 }
        ensures same { part_of self.new ≡ part_of self.old }
        ensures untouched { part_of self.old ≡ 0 → inner_of self.new ≡ inner_of self.old }
        ensures part { 0 < part_of self.old → PutsDown D.Disk at (take (part_of self.old) from.now)
            (inner_of self.old) (inner_of self.new) }
    {
        if self.countdown.part == 0 {
            return self.countdown.fail();
        }
        self.inner
            .write_at(at, first_bytes(from, self.countdown.part))?;
        self.countdown.fail()
    }
}

impl<D: Disk> Disk for FaultDisk<D> {
    ghost use Rattle.store_disk.specs.Fault.{inner_of, calls_left, part_of, own_failures, IsCounted, PutsDown};

    ghost reads = { λ d. D.reads (inner_of d) };

    ghost may_leave = { λ d. D.may_leave (inner_of d) };

    ghost moment = { λ d. D.moment (inner_of d) };

    ghost left_since = { λ d. D.left_since (inner_of d) };

    ghost failures = { λ d. own_failures d + D.failures (inner_of d) };

    ghost reads_an_image = { λ d file is. D.reads_an_image d.inner file is };

    ghost counts_now = { λ d t file le now. D.counts_now d.inner t file le now };

    ghost only_now = { λ d file left. D.only_now d.inner file left };

    fn len(&mut self) -> Result<u64, DeviceFault>
        ensures told { IfOk result
            (λ n. Each (D.reads (inner_of self.old)) (λ file. n ≡ length file)) }
        ensures reads { Each (D.reads (inner_of self.new)) (D.reads (inner_of self.old)) }
        ensures still { Each (D.reads (inner_of self.old)) (D.reads (inner_of self.new)) }
        ensures images { Each (D.may_leave (inner_of self.new)) (D.may_leave (inner_of self.old)) }
        ensures kept { Each (D.may_leave (inner_of self.old)) (D.may_leave (inner_of self.new)) }
        ensures time { let old = inner_of self.old in let new = inner_of self.new in
            Elapses (D.moment old) (D.moment new) (D.left_since old) (D.left_since new)
            (D.may_leave new) }
        ensures count { Counted (own_failures self.old + D.failures (inner_of self.old))
            (own_failures self.new + D.failures (inner_of self.new)) result }

        // Beyond what every disk promises: which call fails, and that all others are passed on to the inner disk.
        ensures call { IsCounted D.Disk self.old self.new result }
        ensures untouched { calls_left self.old ≡ 1 → inner_of self.new ≡ inner_of self.old }
    {
        if self.countdown.is_next() {
            return self.countdown.fail();
        }
        self.inner.len()
    }

    fn read(&mut self, at: u64, into: &mut [u8]) -> Result<(), DeviceFault>
        requires { Each (D.reads (inner_of self.old)) (λ file. at + length into.old ≤ length file) }
        ensures told { OnOk result (Each (D.reads (inner_of self.old)) (HasAt at into.new)) }
        ensures reads { Each (D.reads (inner_of self.new)) (D.reads (inner_of self.old)) }
        ensures still { Each (D.reads (inner_of self.old)) (D.reads (inner_of self.new)) }
        ensures images { Each (D.may_leave (inner_of self.new)) (D.may_leave (inner_of self.old)) }
        ensures kept { Each (D.may_leave (inner_of self.old)) (D.may_leave (inner_of self.new)) }
        ensures time { let old = inner_of self.old in let new = inner_of self.new in
            Elapses (D.moment old) (D.moment new) (D.left_since old) (D.left_since new)
            (D.may_leave new) }
        ensures count { Counted (own_failures self.old + D.failures (inner_of self.old))
            (own_failures self.new + D.failures (inner_of self.new)) result }

        // Beyond what every disk promises: which call fails, and that all others are passed on to the inner disk.
        ensures call { IsCounted D.Disk self.old self.new result }
        ensures untouched { calls_left self.old ≡ 1 → inner_of self.new ≡ inner_of self.old }
    {
        if self.countdown.is_next() {
            return self.countdown.fail();
        }
        self.inner.read(at, into)
    }

    fn write_at(&mut self, at: u64, from: &[u8]) -> Result<(), DeviceFault>
        ensures written { OnOk result (Follows (Written at from.now)
            (D.reads (inner_of self.old)) (D.reads (inner_of self.new))) }
        ensures leads { OnOk result (LeadsBy (Written at from.now)
            (D.reads (inner_of self.old)) (D.reads (inner_of self.new))) }
        ensures failed { OnErr result (Follows (Failed at (length from.now))
            (D.reads (inner_of self.old)) (D.reads (inner_of self.new))) }
        ensures leads_failed { OnErr result (LeadsBy (Failed at (length from.now))
            (D.reads (inner_of self.old)) (D.reads (inner_of self.new))) }
        ensures images { Follows (Torn at (length from.now))
            (D.may_leave (inner_of self.old)) (D.may_leave (inner_of self.new)) }
        ensures kept { Each (D.may_leave (inner_of self.old)) (D.may_leave (inner_of self.new)) }
        ensures time { let old = inner_of self.old in let new = inner_of self.new in
            Elapses (D.moment old) (D.moment new) (D.left_since old) (D.left_since new)
            (D.may_leave new) }
        ensures count { Counted (own_failures self.old + D.failures (inner_of self.old))
            (own_failures self.new + D.failures (inner_of self.new)) result }

        // Beyond what every disk promises: which call fails, and that all others are passed on to the inner disk.
        ensures call { IsCounted D.Disk self.old self.new result }
        ensures untouched { calls_left self.old ≡ 1 → part_of self.old ≡ 0 → inner_of self.new
            ≡ inner_of self.old }
        ensures part { calls_left self.old ≡ 1 → 0 < part_of self.old
            → PutsDown D.Disk at (take (part_of self.old) from.now)
            (inner_of self.old) (inner_of self.new) }
    {
        if self.countdown.is_next() {
            return self.put_down(at, from);
        }
        self.inner.write_at(at, from)
    }

    fn sync(&mut self) -> Result<(), DeviceFault>
        ensures durable { OnOk result
            (Each (D.may_leave (inner_of self.new)) (D.reads (inner_of self.new))) }
        ensures reads { Each (D.reads (inner_of self.new)) (D.reads (inner_of self.old)) }
        ensures still { Each (D.reads (inner_of self.old)) (D.reads (inner_of self.new)) }
        ensures images { Each (D.may_leave (inner_of self.new)) (D.may_leave (inner_of self.old)) }
        ensures time { let old = inner_of self.old in let new = inner_of self.new in
            Elapses (D.moment old) (D.moment new) (D.left_since old) (D.left_since new)
            (D.may_leave new) }
        ensures count { Counted (own_failures self.old + D.failures (inner_of self.old))
            (own_failures self.new + D.failures (inner_of self.new)) result }

        // Beyond what every disk promises: which call fails, and that all others are passed on to the inner disk.
        ensures call { IsCounted D.Disk self.old self.new result }
        ensures untouched { calls_left self.old ≡ 1 → inner_of self.new ≡ inner_of self.old }
    {
        if self.countdown.is_next() {
            return self.countdown.fail();
        }
        self.inner.sync()
    }
}

// The first `part` bytes, or all of them if there are fewer.
fn first_bytes(from: &[u8], part: u32) -> &[u8]
    ensures first { result.now ≡ take part from.now }
    ensures short { length result.now ≤ length from.now }
{
    let n = from.len().min(part as usize);
    &from[..n]
}
