//! Tests of what no clause says: short scripts written out by hand, counts of lines and bytes, and the greatest salt.
use std::test::Fail;
use workload::make;

/// `make(7, 1)`, written out by hand.
const ONE: &str = "\
edit A dir d0000
edit A put d0000/f00000 =7
edit A dir .git
edit A put .git/HEAD =ref
sync create --name=w --ignore-vcs A B
sync flush w
edit B del d0000/f00000
edit B put d0000/n =n
sync flush w
edit A put d0000/m =
sync flush --skip-wait w
until w change
step w 5
sync pause w
step w 20
sync resume w
sync flush w
";

/// `make(7, 8)`, written out by hand.
const EIGHT: &str = "\
edit A dir d0000
edit A put d0000/f00000 =7
edit A put d0000/f00001 =8
edit A put d0000/f00002 =9
edit A put d0000/f00003 =10
edit A put d0000/f00004 =11
edit A put d0000/f00005 =12
edit A put d0000/f00006 =13
edit A dir d0001
edit A put d0001/f00007 =14
edit A dir .git
edit A put .git/HEAD =ref
sync create --name=w --ignore-vcs A B
sync flush w
edit B del d0000/f00000
edit A put d0000/f00001 =8a
edit A put d0000/f00002 =9a
edit B put d0000/f00002 =9b
edit B put d0000/n =n
edit B put d0001/n =n
sync flush w
edit A put d0000/m =
edit A put d0001/m =
sync flush --skip-wait w
until w change
step w 5
sync pause w
step w 20
sync resume w
sync flush w
";

#[test]
fn short_scripts(rt: HostRuntime) -> Result<(), Fail> {
    assert_eq!(rt; make(rt.alloc(), 7, 1)?.as_str(), ONE);
    assert_eq!(rt; make(rt.alloc(), 7, 8)?.as_str(), EIGHT);
    Ok(())
}

#[test]
fn lines_and_bytes(rt: HostRuntime) -> Result<(), Fail> {
    for (n, lines) in [(1, 17), (8, 30), (2_000, 3_670), (20_000, 36_586)] {
        assert_eq!(rt; make(rt.alloc(), 7, n)?.lines().count(), lines, "{n} files");
    }
    assert_eq!(rt; make(rt.alloc(), 7, 20_000)?.len(), 1_017_270);
    Ok(())
}

#[test]
fn contents_wrap_at_the_greatest_salt(rt: HostRuntime) -> Result<(), Fail> {
    let text = make(rt.alloc(), u64::MAX, 3)?;
    let mut lines = text.lines();
    assert_eq!(rt; lines.next(), Some("edit A dir d0000"));
    assert_eq!(rt;
        lines.next(),
        Some("edit A put d0000/f00000 =18446744073709551615")
    );
    assert_eq!(rt; lines.next(), Some("edit A put d0000/f00001 =0"));
    assert_eq!(rt; lines.next(), Some("edit A put d0000/f00002 =1"));
    Ok(())
}
