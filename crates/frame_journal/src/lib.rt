//! A journal: frames in one file, each of which a crash leaves whole or not at all.
//!
//! A frame stands behind a gate byte that is opened by a write of its own, after a sync. So no
//! checksum is trusted, and a crash at any moment leaves the frames before an append or with it
//! whole. `Layout.antt` of the specs has what a file's bytes stand for.
//!
//! ```rust
//! let disk = MemDisk::new(alloc, Vec::new(alloc), &[], None)?;
//! let mut journal = Journal::open_at(alloc, disk).map_err(|refusal| refusal.0)?;
//! journal.append(alloc, b"a", b"bc")?; // one frame, of the payload `abc`
//! let disk = journal.into_disk();
//! let journal = Journal::open_at(alloc, disk).map_err(|refusal| refusal.0)?;
//! assert_eq!(rt; journal.frames().len(), 1);
//! ```
//!
//! The test `an_appended_frame_is_found` of `disk_tests` makes these calls.
//!
//! A `PairedJournal` stands on two disks. Its checkpoint puts other payloads in place of all that are
//! acknowledged, and a crash at any moment leaves the ones or the others.
#![tactic(auto)]

mod checkpoint;
mod commit;
mod device;
mod error;
mod frames;
mod generation;
mod journal;
pub mod laws;
mod paired;
mod settling;
mod spare;
mod standing;

pub use error::{AppendError, OpenError};
pub use frames::{Ending, Frames, whole_frames};
pub use generation::is_generation;
pub use journal::Journal;
pub use paired::PairedJournal;
