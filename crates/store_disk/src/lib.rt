//! A disk that may stop at any moment, and what it then leaves: in memory, with an injected fault, or a real file.
#![tactic(auto)]

mod area;
mod calls;
mod countdown;
mod disk;
mod entry;
mod error;
mod fault;
mod file;
mod fill;
mod fixed_file;
mod gate;
mod law;
mod memory;
mod put;
mod read_ahead;
mod reading;
mod writing;

pub use area::Area;
pub use disk::Disk;
pub use error::{DeviceFault, OutOfMemory};
pub use fault::FaultDisk;
pub use file::FileDisk;
pub use fill::Fill;
pub use gate::{CLOSED_GATE, OPEN_GATE};
pub use law::show_the_disk_model;
pub use memory::MemoryDisk;
pub use read_ahead::{Buffer, ReadAhead};
pub use reading::{read_gate, read_length};
pub use writing::write_through;
