//! Reads a script line by line and answers each line, over two roots of plain files.
//!
//! `run_script` is the call that the program makes. Its contract says that what it writes is the
//! replies of a fold over the lines of what it reads (`specs/Script.antt`): each line is read by one
//! grammar (`specs/Request.antt`), and a flush decides each name by one rule (`specs/Flush.antt`).
//!
//! ```rust
//! let mut words = Vec::new(alloc);
//! words.push(String::from_str(alloc, "script")?)?;
//! let mut source = StdSource::new(b"show A".as_slice());
//! let mut sink = MemSink::new(alloc, &[])?;
//! let mut roots = FlatRoots::two(alloc);
//! let status = run_script(alloc, &words, &mut source, &mut sink, &mut roots);
//! assert_eq!(rt; status.number(), 0);
//! assert_eq!(rt; sink.bytes(), b"ok show A 1\n  . dir\n".as_slice());
//! ```
//!
//! The test `lines_end_with_newlines_or_with_the_input` of `script_tests` makes these calls.
#![tactic(auto)]

mod flat_roots;
pub mod flush;
mod laws;
mod name_map;
mod replies;
mod request;
mod script;
mod session;
mod status;
mod step;
mod word;
mod words;

pub use flat_roots::{FlatRoots, RootName};
pub use laws::{
    a_flush_agrees_elsewhere, a_flush_leaves_conflicts, a_flush_takes_only_the_others,
    a_second_flush_changes_no_root,
};
pub use name_map::NameMap;
pub use script::run_script;
pub use status::Status;
pub use word::Contents;
