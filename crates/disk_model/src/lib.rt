//! What a device is, and what a stop may leave on it: the trait that all durable parts stand on, and its devices.
#![tactic(auto)]

mod buffer;
mod device;
mod file;
mod fuse;
mod history;
mod memory;
mod shadow;
mod system_fault;
mod through;

pub use device::{Device, DeviceFault};
pub use file::{FILE_LIMIT, FileDevice, OpenFault, lock, sync_folder};
pub use fuse::FuseDevice;
pub use memory::{MemDevice, Tear};
pub use system_fault::{SystemCall, SystemFault, asked};
pub use through::write_through;
