//! Lines, and which form each of them is: the first line of the reply shows it.
use crate::playing::replies_to;
use std::alloc::Global;
use std::test::Fail;

/// A line, and the first line of its reply over new roots.
const LINES: &str = "\
edit A put a =abc | ok edit
edit A put a = | ok edit
edit A put ... =x | ok edit
edit A put a x | refused 39 not-yet
edit A put a | refused 39 not-yet
edit A put . =x | refused 39 not-yet
edit A put .. =x | refused 39 not-yet
edit A put a/b =x | refused 39 not-yet
edit A rm a =x | refused 39 not-yet
edit --A put a =x | refused 39 not-yet
edit A put a =x y | refused 39 not-yet
edit a put f = | refused 13 no-root a
sync create --name=s A B | ok create sync_00000000-0000-4000-8000-000000000000
sync create --name=syncx A B | ok create sync_00000000-0000-4000-8000-000000000000
sync create --name=s-1_Z beta alpha | refused 13 no-root beta
sync create --name=s A Z | refused 13 no-root Z
sync create --name=s A A | refused 39 not-yet
sync create --name=s Z Z | refused 39 not-yet
sync create --name=s A --B | refused 39 not-yet
sync create --name= A B | refused 39 not-yet
sync create --name=1s A B | refused 39 not-yet
sync create --name=s.t A B | refused 39 not-yet
sync create --name=sync_x A B | refused 39 not-yet
sync create --name=fwrd_x A B | refused 39 not-yet
sync create name=s A B | refused 39 not-yet
sync create --name=s A | refused 39 not-yet
sync flush s | refused 20 no-session
sync flush sync_00000000-0000-4000-8000-00000000000f | refused 20 no-session
sync flush fwrd_00000000-0000-4000-8000-00000000000f | refused 20 no-session
sync flush sync_00000000-0000-4000-8000-00000000000F | refused 39 not-yet
sync flush sync_0000000-00000-4000-8000-00000000000f | refused 39 not-yet
sync flush sync_00000000-0000-4000-8000-0000000000 | refused 39 not-yet
sync flush sync_ | refused 39 not-yet
sync flush 9 | refused 39 not-yet
sync flush | refused 39 not-yet
show A | ok show A 1
show C | refused 13 no-root C
show -A | refused 13 no-root -A
show --A | refused 39 not-yet
show A B | refused 39 not-yet
show | refused 39 not-yet
Show A | refused 39 not-yet
# show A | refused 39 not-yet
  | refused 39 not-yet
show  A | refused 39 not-yet
 show A | refused 39 not-yet
show A  | refused 39 not-yet
show\tA | refused 39 not-yet
show A% | refused 39 not-yet
show A\x7f | refused 39 not-yet
show é | refused 39 not-yet
";

/// 64 letters.
const LETTERS: &str = "abcdefghijklmnopqrstuvwxyzabcdefghijklmnopqrstuvwxyzabcdefghijkl";

// The first line of the reply to a line over new roots.
fn first_reply(alloc: Global, line: &[u8]) -> Result<String, Fail> {
    let (text, _) = replies_to(alloc, line)?;
    let first = text.lines().next().unwrap_or("");
    Ok(String::from_str(alloc, first)?)
}

#[test]
fn a_line_is_answered_by_its_form(rt: HostRuntime) -> Result<(), Fail> {
    let alloc = rt.alloc();
    for row in LINES.lines() {
        let (line, wanted) = row.split_once(" | ").ok_or("a row without a reply")?;
        let reply = first_reply(alloc, line.as_bytes())?;
        assert_eq!(rt; reply.as_str(), wanted, "of {line:?}");
    }
    let not_text = first_reply(alloc, b"show \xff")?;
    assert_eq!(rt; not_text.as_str(), "refused 39 not-yet");
    Ok(())
}

#[test]
fn a_session_has_a_name_of_at_most_64_bytes(rt: HostRuntime) -> Result<(), Fail> {
    let alloc = rt.alloc();
    for (letter, wanted) in [
        ("", "ok create sync_00000000-0000-4000-8000-000000000000"),
        ("m", "refused 39 not-yet"),
    ] {
        let line = format!(in alloc; "sync create --name={LETTERS}{letter} A B")?;
        let reply = first_reply(alloc, line.as_bytes())?;
        assert_eq!(rt; reply.as_str(), wanted);
    }
    Ok(())
}
