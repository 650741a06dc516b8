//! Copies of reports.
use entry_tree::{Digest, Side};
use mode_rules::{Cause, Conflict, CycleReport, Outcome, Problem, Reason};
use sqlite_items::Items;
use std::alloc::Global;
use std::test::Fail;
use sync_path::Path;

fn conflicts(alloc: Global) -> Result<Items<Conflict>, Fail> {
    let mut alpha = Items::new(alloc);
    alpha.push(Path::read(alloc, "d/f")?)?;
    let mut conflicts = Items::new(alloc);
    conflicts.push(Conflict {
        at: Path::read(alloc, "d")?,
        reason: Reason::Both,
        alpha,
        beta: Items::new(alloc),
    })?;
    Ok(conflicts)
}

fn problems(alloc: Global) -> Result<Items<Problem>, Fail> {
    let causes = [
        Cause::DigestDiffers {
            wanted: Digest::of(b"1"),
            got: Digest::of(b"2"),
        },
        Cause::NotEmpty,
        Cause::Skipped(Path::read(alloc, "e/f")?),
    ];
    let mut problems = Items::new(alloc);
    for cause in causes {
        let path = Path::read(alloc, "e")?;
        problems.push(Problem {
            side: Side::Beta,
            path,
            cause,
        })?;
    }
    Ok(problems)
}

#[test]
fn a_report_is_copied(rt: HostRuntime) -> Result<(), Fail> {
    let alloc = rt.alloc();
    let report = CycleReport {
        cycle: 7,
        outcome: Outcome::Fault(Side::Beta),
        conflicts: conflicts(alloc)?,
        problems: problems(alloc)?,
    };
    let copy = report.copy(alloc)?;
    let (report, copy) = (
        format!(in alloc; "{report:?}")?,
        format!(in alloc; "{copy:?}")?,
    );
    assert_eq!(rt; report.as_str(), copy.as_str());
    Ok(())
}
