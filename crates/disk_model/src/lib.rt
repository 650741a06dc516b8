//! A disk as a journal sees it: what its calls do, and what a crash may leave.
//!
//! `Disk` is a file with reads and writes at a place, a cut and a sync. It has a count of faults
//! that never falls, and tells the contents that it had, each with what a crash at that moment may
//! leave: until a sync succeeds, what was written may be torn and what was cut may be back.
//! `MemDisk` is such a disk in memory, which fails or stops at the calls that it is told to, and
//! `FileDisk` is a file of the system, which tells no content.
//!
//! ```rust
//! let mut disk = MemDisk::new(alloc, Vec::from_slice(alloc, b"abcdef")?, &[], None)?;
//! disk.write_at(2, b"XY")?;
//! disk.cut(5)?;
//! disk.write_at(7, b"z")?;
//! disk.sync()?;
//! assert_eq!(rt; disk.bytes(), b"abXYe\0\0z".as_slice());
//! ```
//!
//! The test `what_is_written_is_read` of `disk_tests` makes these calls.
#![tactic(auto)]

mod disk;
mod event;
mod file_disk;
pub mod laws;
mod mem_disk;
mod plan;
mod tear;

pub use disk::{Disk, Failed, MOST_BYTES};
pub use file_disk::FileDisk;
pub use mem_disk::MemDisk;
pub use tear::Tear;
