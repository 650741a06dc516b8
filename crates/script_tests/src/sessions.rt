//! Scripts with a session, each as a transcript.
use crate::playing::played;
use script_engine::FlatRoots;
use std::alloc::Global;
use std::test::Fail;
use sync_path::Name;

const FIRST_RUN: &str = "\
> edit A put a =abc
ok edit
> sync create --name=s A B
ok create sync_00000000-0000-4000-8000-000000000000
> sync flush s
ok flush sync_00000000-0000-4000-8000-000000000000 cycle 1 done conflicts 0 problems 0
> show B
ok show B 2
  . dir
  a file ba7816bf8f01cfea414140de5dae2223b00361a396177a9cb410ff61f20015ad
";

/// What follows the first run.
const BOTH_CHANGED: &str = "\
> edit A put a =
ok edit
> edit B put a =abcd
ok edit
> sync flush s
ok flush sync_00000000-0000-4000-8000-000000000000 cycle 2 done conflicts 1 problems 0
  conflict a both alpha 1 beta 1
> show A
ok show A 2
  . dir
  a file e3b0c44298fc1c149afbf4c8996fb92427ae41e4649b934ca495991b7852b855
";

/// The contents are all that stands behind the first equals sign.
const EQUALS_SIGNS: &str = "\
> edit A put a ==b=
ok edit
> show A
ok show A 2
  . dir
  a file 1eb25eef119a84ac66a8bf3c97f3e2daa2f29d52cb2612f8df4478c7d65c0036
";

const EMPTY_ROOTS: &str = "\
> sync create --name=s A B
ok create sync_00000000-0000-4000-8000-000000000000
> sync flush s
ok flush sync_00000000-0000-4000-8000-000000000000 cycle 1 done conflicts 0 problems 0
> sync flush s
ok flush sync_00000000-0000-4000-8000-000000000000 cycle 2 done conflicts 0 problems 0
> show A
ok show A 1
  . dir
";

/// Beta is the root A here.
const FROM_BETA_TO_ALPHA: &str = "\
> edit A put b =
ok edit
> sync create --name=s B A
ok create sync_00000000-0000-4000-8000-000000000000
> sync flush s
ok flush sync_00000000-0000-4000-8000-000000000000 cycle 1 done conflicts 0 problems 0
> show B
ok show B 2
  . dir
  b file e3b0c44298fc1c149afbf4c8996fb92427ae41e4649b934ca495991b7852b855
";

/// What follows the first run: the session goes by its identifier too.
const BETA_CHANGED: &str = "\
> edit B put a =
ok edit
> sync flush sync_00000000-0000-4000-8000-000000000000
ok flush sync_00000000-0000-4000-8000-000000000000 cycle 2 done conflicts 0 problems 0
> show A
ok show A 2
  . dir
  a file e3b0c44298fc1c149afbf4c8996fb92427ae41e4649b934ca495991b7852b855
";

const SAME_AT_BOTH_AND_THEN_CHANGED: &str = "\
> edit A put a =abc
ok edit
> edit B put a =abc
ok edit
> sync create --name=s A B
ok create sync_00000000-0000-4000-8000-000000000000
> sync flush s
ok flush sync_00000000-0000-4000-8000-000000000000 cycle 1 done conflicts 0 problems 0
> edit A put a =
ok edit
> sync flush s
ok flush sync_00000000-0000-4000-8000-000000000000 cycle 2 done conflicts 0 problems 0
> show B
ok show B 2
  . dir
  a file e3b0c44298fc1c149afbf4c8996fb92427ae41e4649b934ca495991b7852b855
";

/// A conflict keeps no other name from being settled.
const CONFLICT_BESIDE_A_NEW_FILE: &str = "\
> edit A put a =abc
ok edit
> edit B put a =
ok edit
> edit A put b =
ok edit
> sync create --name=s A B
ok create sync_00000000-0000-4000-8000-000000000000
> sync flush s
ok flush sync_00000000-0000-4000-8000-000000000000 cycle 1 done conflicts 1 problems 0
  conflict a both alpha 1 beta 1
> show B
ok show B 3
  . dir
  a file e3b0c44298fc1c149afbf4c8996fb92427ae41e4649b934ca495991b7852b855
  b file e3b0c44298fc1c149afbf4c8996fb92427ae41e4649b934ca495991b7852b855
";

/// Conflicts are told in the order of their names, by each flush, until the sides agree.
const TWO_CONFLICTS: &str = "\
> edit A put b =1
ok edit
> edit A put a =1
ok edit
> edit B put b =2
ok edit
> edit B put a =2
ok edit
> sync create --name=s A B
ok create sync_00000000-0000-4000-8000-000000000000
> sync flush s
ok flush sync_00000000-0000-4000-8000-000000000000 cycle 1 done conflicts 2 problems 0
  conflict a both alpha 1 beta 1
  conflict b both alpha 1 beta 1
> edit B put a =1
ok edit
> sync flush s
ok flush sync_00000000-0000-4000-8000-000000000000 cycle 2 done conflicts 1 problems 0
  conflict b both alpha 1 beta 1
> edit A put b =2
ok edit
> sync flush s
ok flush sync_00000000-0000-4000-8000-000000000000 cycle 3 done conflicts 0 problems 0
";

/// A second session is refused, behind the roots' names; another session's name is none.
const SECOND_SESSION: &str = "\
> sync create --name=s A B
ok create sync_00000000-0000-4000-8000-000000000000
> sync create --name=t B A
refused 39 not-yet
> sync create --name=t B Z
refused 13 no-root Z
> sync flush t
refused 20 no-session
> sync flush s
ok flush sync_00000000-0000-4000-8000-000000000000 cycle 1 done conflicts 0 problems 0
";

#[test]
fn transcripts(rt: HostRuntime) -> Result<(), Fail> {
    let alloc = rt.alloc();
    for transcript in [
        EQUALS_SIGNS,
        EMPTY_ROOTS,
        FROM_BETA_TO_ALPHA,
        SAME_AT_BOTH_AND_THEN_CHANGED,
        CONFLICT_BESIDE_A_NEW_FILE,
        TWO_CONFLICTS,
        SECOND_SESSION,
    ] {
        let (wanted, text) = played(alloc, transcript, &mut FlatRoots::two(alloc))?;
        assert_eq!(rt; text.as_str(), wanted.as_str());
    }
    Ok(())
}

// Plays the first run and what follows it.
fn played_behind(
    alloc: Global,
    behind: &str,
    roots: &mut FlatRoots,
) -> Result<(String, String), Fail> {
    let transcript = format!(in alloc; "{FIRST_RUN}{behind}")?;
    played(alloc, transcript.as_str(), roots)
}

// Whether the root has a file of this text.
fn has_file(roots: &FlatRoots, root: &str, name: &Name, text: &str) -> bool {
    match roots.get(root, name) {
        Some(bytes) => bytes == text.as_bytes(),
        None => false,
    }
}

#[test]
fn the_first_run_and_what_may_follow(rt: HostRuntime) -> Result<(), Fail> {
    let alloc = rt.alloc();
    let name = Name::read(alloc, "a")?;
    for (behind, at_a, at_b) in [
        ("", "abc", "abc"),
        (BOTH_CHANGED, "", "abcd"),
        (BETA_CHANGED, "", ""),
    ] {
        let mut roots = FlatRoots::two(alloc);
        let (wanted, text) = played_behind(alloc, behind, &mut roots)?;
        assert_eq!(rt; text.as_str(), wanted.as_str());
        assert!(rt; has_file(&roots, "A", &name, at_a));
        assert!(rt; has_file(&roots, "B", &name, at_b));
    }
    Ok(())
}
