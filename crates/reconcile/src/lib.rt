//! What a session decides at each path, in one pass over the paths of its three trees.
//!
//! [`reconcile`] gives the plan that `mode_rules::settle` gives. It merges the three trees' entries into rows in path order, and cuts the rows into runs: a
//! row whose path is a folder on both sides is a run by itself, and any other takes along all rows below its path. Each run is one decision, which
//! goes over its rows a fixed number of times.
//!
//! ```rust
//! // Alpha and beta changed the file `a` of the ancestor, each in its own way.
//! let plan = reconcile(alloc, Mode::TwoWayResolved, &ancestor, &alpha, &beta)?;
//! // The plan changes `a` on beta to what alpha holds.
//! ```
//!
//! The test `each_case_has_its_plan` of `plan_tests` makes this call with such trees, among others.
#![tactic(auto)]

mod decided;
mod part;
mod row;
mod rows;
mod runs;
mod walk;

pub use walk::reconcile;
