//! Counts of faults.
use fault_count::count_fault;

#[test]
fn counts_and_stays_at_the_end(rt: HostRuntime) {
    for (old, new) in [
        (0, 1),
        (41, 42),
        (u64::MAX - 1, u64::MAX),
        (u64::MAX, u64::MAX),
    ] {
        let mut count = old;
        count_fault(&mut count);
        assert_eq!(rt; count, new);
    }
}
