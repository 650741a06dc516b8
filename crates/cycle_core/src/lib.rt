//! A cycle of a session, one request at a time.
#![tactic(auto)]

mod asking;
mod changing;
mod cycle;
mod ending;
mod looks;
mod outcome;
mod planning;
mod request;
mod scanning;
mod spec;
mod stand;
mod supply;
mod supplying;
mod told;
mod turning;
mod work;

pub use cycle::Cycle;
pub use request::{Progress, Request, Taken};
pub use spec::{Caches, CycleSpec};
