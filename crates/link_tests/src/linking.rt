//! A session through its link.
use crate::Pair;
use entry_tree::{Digest, Side};
use roots_api::{Answer, Content, Op, RootLink};
use std::alloc::Global;
use std::test::Fail;
use sync_path::Path;

// Asks for the operation in the first cycle.
fn asked(alloc: Global, link: &mut impl RootLink, side: Side, op: &Op) -> Result<Answer, Fail> {
    Ok(link.call(alloc, side, 1, op)?)
}

fn place(alloc: Global) -> Result<Op, Fail> {
    Ok(Op::Place {
        path: Path::read(alloc, "f")?,
        digest: Digest::of(b"abc"),
        exec: true,
        expected: None,
    })
}

#[test]
fn a_file_is_staged_on_one_side(rt: HostRuntime) -> Result<(), Fail> {
    let alloc = rt.alloc();
    let mut link = Pair::new(alloc, 7, 1)?;
    let bytes = Content::of(alloc, b"abc")?;
    let digest = Digest::of(b"abc");
    for op in [
        Op::StageOpen,
        Op::StageAppend { bytes },
        Op::StageKeep { digest },
    ] {
        let answer = asked(alloc, &mut link, Side::Beta, &op)?;
        assert!(rt; answer.is_done());
    }
    let place = place(alloc)?;
    let answer = asked(alloc, &mut link, Side::Alpha, &place)?;
    assert!(rt; matches!(answer, Answer::NotStaged));
    let answer = asked(alloc, &mut link, Side::Beta, &place)?;
    assert!(rt; answer.is_done());
    Ok(())
}
