//! Edited files put in place: at every moment, and after a crash at any moment, each file is whole, as it was or as it is to be.
#![tactic(auto)]

mod change;
mod disk;
mod memory;
mod noting;
mod placing;
mod system_disk;

pub use change::{Change, Content, Output, PlaceFault};
pub use disk::{DiskError, WritableDisk};
pub use memory::Memory;
pub use noting::place;
pub use system_disk::SystemDisk;
