//! A law about disks in memory. The function's body is empty: its contract is the law.
ghost use Rattle.std.specs.Prelude.{◌≡◌, ◌↔◌, List, ℕ, length};
ghost use Rattle.store_disk.specs.Medium.{IsImage, LeftSince};
ghost use Rattle.store_disk.specs.Memory.{calls_of, memory_failures, first_medium, medium_of};
ghost use Rattle.store_disk.specs.declared.memory.MemoryDisk.{MemoryDisk as Memory};

use crate::{Disk, MemoryDisk};

/// The facts of a disk in memory are those of the disk model. It reads as its file. A stop now may leave exactly
/// its images, and a stop since moment `t` exactly the images after `t` or more calls. It counts its own failures.
pub fn show_the_disk_model()
    ensures reads { (disk : Memory) (file : List ℕ)
        → ⟦<MemoryDisk as Disk>⟧.reads disk file ↔ (file ≡ (medium_of disk).file) }
    ensures images { (disk : Memory) (file : List ℕ)
        → ⟦<MemoryDisk as Disk>⟧.may_leave disk file ↔ IsImage (medium_of disk) file }
    ensures moment { (disk : Memory) → ⟦<MemoryDisk as Disk>⟧.moment disk ≡ length (calls_of disk) }
    ensures since { (disk : Memory) (t : ℕ) (file : List ℕ)
        → ⟦<MemoryDisk as Disk>⟧.left_since disk t file
        ↔ LeftSince (first_medium disk) (calls_of disk) t file }
    ensures failures { (disk : Memory)
        → ⟦<MemoryDisk as Disk>⟧.failures disk ≡ memory_failures disk }
{}
