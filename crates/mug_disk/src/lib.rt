//! The disk that a session stands on.
#![tactic(auto)]

mod disk;
mod file;
mod memory;

pub use disk::Disk;
pub use file::FileDisk;
pub use memory::MemDisk;
