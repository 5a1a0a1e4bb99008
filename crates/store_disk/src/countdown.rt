//! Counts the calls up to the injected fault.
ghost use Rattle.std.specs.Prelude.{◌≡◌, ◌≢◌, ◌<◌, ◌-◌, IsErr, false, true};

use crate::DeviceFault;

// Which call fails. It is a struct of its own, so that counting a call leaves the disk unchanged.
#[derive(Clone, Copy)]
pub struct Countdown {
    // How many calls are left, counting the one that fails; 0 if none fails any more.
    pub left: u64,
    // If the failing call is a write, this many of its bytes are written.
    pub part: u32,
    // Whether the injected fault has happened, and the inner disk did not fail in that call.
    pub failed: bool,
    ghost once: { 0 < left → failed ≡ false },
}

impl Countdown {
    // Counts a call, and returns whether it is the one that fails.
    pub fn is_next(&mut self) -> bool
        ensures left { self.new.left ≡ self.old.left - 1 }
        ensures part { self.new.part ≡ self.old.part }
        ensures failed { self.new.failed ≡ self.old.failed }
        ensures next { result ≡ true → (self.old.left ≡ 1) × (self.old.failed ≡ false) }
        ensures other { result ≡ false → self.old.left ≢ 1 }
    {
        let is_next = self.left == 1;
        self.left = self.left.saturating_sub(1);
        is_next
    }

    // Fails the call with the injected fault.
    pub fn fail<T>(&mut self) -> Result<T, DeviceFault>
        requires { self.old.left ≡ 0 }
        ensures err { IsErr result }
        ensures left { self.new.left ≡ self.old.left }
        ensures part { self.new.part ≡ self.old.part }
        ensures failed { self.new.failed ≡ true }
    {
        self.failed = true;
        Err(DeviceFault)
    }
}
