//! What a session decides at each path, by its mode, its ancestor and what it saw of both sides.
//!
//! [`settle`] gives the whole plan, path by path, as the table in `specs/Plans.antt` says it: plain and slow. `reconcile`, in
//! a crate of its own, gives the same in one walk, by the parts that stand here.
//!
//! ```rust
//! // Alpha changed the file `a` of the ancestor, and beta the file `b`.
//! let plan = settle(alloc, Mode::TwoWaySafe, &ancestor, &alpha, &beta)?;
//! // The plan changes `a` on beta and `b` on alpha, and has no conflict.
//! ```
//!
//! The test `each_case_has_its_plan` of `plan_tests` makes this call with these trees, among others.
#![tactic(auto)]

mod ancestor_line;
mod change;
mod changes;
mod comparing;
mod conflict;
mod conflicts;
mod copies;
mod halt;
mod halts;
pub mod laws;
mod lines;
mod mode;
mod path_set;
mod paths;
mod phase;
mod plan;
mod points;
mod problem;
mod report;
mod sight;
mod table;
mod verdict;

pub use ancestor_line::AncestorLine;
pub use change::{Change, PlacedFile};
pub use changes::change_by;
pub use comparing::{Comparison, compared, is_same};
pub use conflict::{Conflict, Reason};
pub use halt::Halt;
pub use halts::halt_of;
pub use lines::line_of;
pub use mode::Mode;
pub use phase::Phase;
pub use plan::Plan;
pub use points::holds_folder;
pub use problem::{Cause, Problem};
pub use report::{CycleReport, Outcome};
pub use sight::Sight;
pub use table::settle;
pub use verdict::{Verdict, first_case};
