//! A disk as the journals see it: what a read gives, and what a stop at any moment may leave.
#![tactic(auto)]

mod armed_calls;
mod call_kinds;
mod call_log;
mod disk_calls;
mod disk_contents;
mod faults;
mod file_disk;
mod images;
mod mem_disk;
mod real_file;
mod sim_disk;

pub use call_kinds::Call;
pub use disk_calls::{Disk, DiskCalls};
pub use faults::{DiskFault, Memory};
pub use file_disk::FileDisk;
pub use images::Image;
pub use mem_disk::MemDisk;
pub use sim_disk::{SimCalls, SimDisk};

#[cfg(test)]
mod file_tests;
#[cfg(test)]
mod recorded_files;
#[cfg(test)]
mod tests;
