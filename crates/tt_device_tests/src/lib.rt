//! A device in memory, of which it is proved that it keeps what a device promises.
#![tactic(auto)]

mod device;
mod event;
mod failures;
mod memory_device;
mod one_run;

pub use memory_device::MemoryDevice;
pub use one_run::append_once;
