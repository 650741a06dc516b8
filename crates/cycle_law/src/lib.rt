//! The laws of a session's cycles, said of its logs and its frames, and nothing to call.
//!
//! `specs/Saw.antt` says what a cycle saw of a side; `specs/Plans.antt` what its ancestor and its plan are; `specs/Licences.antt`,
//! `specs/Ordering.antt` and `specs/Frames.antt` what it may take away, in which order it changes a side, and which frames are sound;
//! `specs/Conserving.antt` joins them to the law that a session keeps. `specs/Reports.antt` says which reports of a cycle are right, by its
//! logs and by what no log shows (`specs/Unlogged.antt`). `specs/Untouched.antt` says which cycles nobody disturbed, and `specs/Settled.antt`
//! what such a cycle comes to, by the whole logs of both roots.
//!
//! They know no scan under way, no cache, no queue and no machine, and each can be computed of a printed log. The laws are the contracts of
//! functions that do nothing.
//!
//! ```text
//! cycle_law::laws::worked_sessions();
//! ```
#![tactic(auto)]

pub mod laws;
