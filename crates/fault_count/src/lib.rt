//! Counts of faults.
//!
//! Whatever speaks with the outside keeps a count of its faults, which never falls. A call may
//! answer that it failed only where the count rose in it. This crate has the word for that,
//! `Rose` of `specs/Rose.antt`, and the step of an adapter's count.
//!
//! ```rust
//! let mut count = 41;
//! count_fault(&mut count);
//! assert_eq!(rt; count, 42);
//! ```
//!
//! The test `counts_and_stays_at_the_end` of `edge_tests` makes this call.
#![tactic(auto)]

ghost use Rattle.std.specs.Prelude.{◌≡◌, ℕ, ◌+◌, ◌-◌, ◌^◌, ◌≤◌, min};
ghost use Rattle.fault_count.specs.Rose.{Rose};

/// Counts one more fault. The count stays at 2^64 - 1 once it stands there.
pub fn count_fault(count: &mut u64)
    ensures value { count.new ≡ min (count.old + 1) (2 ^ 64 - 1) }
    ensures rose { Rose count.old count.new }
    ensures never_falls { count.old ≤ count.new }
{
    *count = count.saturating_add(1);
}
