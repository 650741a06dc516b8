//! What a scan is to see, said point by point, and nothing to call.
//!
//! `specs/Seen.antt` says what was seen of a side at a path, and what is asked next, from what it was asked and what it answered;
//! `specs/ScanLists.antt` which lists a scan asks, and which are whole; `specs/Look.antt` what a scan sees of a state on which nothing
//! changes. They know no scan under way, and can be evaluated on a log. The laws are the contracts of functions that do nothing.
//!
//! ```text
//! scan_laws::laws::worked_lists();
//! ```
#![tactic(auto)]

pub mod laws;
