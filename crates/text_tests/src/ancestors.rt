//! Tests of what no clause says: folds of frames written out by hand, a keeper that fails once and goes on, what a commit makes of an ancestor, and what a
//! compaction makes of a session's frames.
ghost use Rattle.std.specs.Prelude.{◌≡◌, Some, IfOk, IsSome, IsTrue, OnOk};
ghost use Rattle.mode_rules.specs.AncestorFold.{with_lines};
ghost use Rattle.ancestor_store.specs.Committing.{with_frame};

use ancestor_store::{Ancestor, Archive, KeepError, Keeper, Kept, MemKeeper, OpenError};
use entry_tree::{Tree, TreeError, write_atom, write_path};
use frame_text::{AgreedLines, Frame, KeepKey, Payload, ResetNumber, read_payload};
use mode_rules::AncestorLine;
use sqlite_items::Items;
use std::alloc::{AllocError, Global};
use std::test::Fail;

// Each row has what is opened, the number of paths and the reset served or the number of the bad frame, and behind it the frames of a
// session, each behind a `#`, with `|` for LF.
const FOLDS: &str = "\
0 0
3 0#v2 agree 1 1|set . dir|set a dir|set a/b link =x
1 0#v2 agree 1 1|set . dir|set a dir|set a/b link =x#v2 agree 1 2|drop a
2 0#v2 agree 1 1|set . dir|set a dir|set a/b link =x#v2 agree 1 2|set a link =y
0 7#v2 agree 1 1|set . dir#v1 reset 7
1 4#v2 whole 1 18446744073709551615 4|set . dir
2 4#v2 whole 1 9 4|set . dir#v1 agree 2 1|set a dir
bad 0#v2 agree 1 1|set a dir
bad 1#v1 reset 1#v2 whole 1 9 4|set . dir
bad 2#v1 reset 1#v1 reset 2#v1 reset 0
bad 1#v2 agree 1 1|set . dir#v2 agree 01 2|drop .
bad 0#v2 agree 1  1|set . dir
bad 0#v2 agree 1 1|set . dir|set a%2fb dir
bad 0#v2 agree 1 1|set . untracked
bad 2#v1 reset 1#v1 reset 2#v2 agree 1 1|set . dir|
bad 0#v1 agree 1 1|set . file ba7816bf8f01cfea414140de5dae2223b00361a396177a9cb410ff61f20015ad x
bad 0#v1 opened";

// A text's bytes, with an LF for each `|`.
fn bytes_of(alloc: Global, text: &str) -> Result<Vec<u8>, AllocError> {
    let mut bytes = Vec::new(alloc);
    for b in text.as_bytes() {
        bytes.push(if *b == b'|' { b'\n' } else { *b })?;
    }
    Ok(bytes)
}

// The frames of a row, as those of session 5.
fn kept_of(alloc: Global, frames: &str) -> Result<Vec<Kept>, AllocError> {
    let mut kept = Vec::new(alloc);
    for frame in frames.split('#') {
        kept.push(Kept {
            key: KeepKey::Session(5),
            bytes: Items::from_vec(bytes_of(alloc, frame)?),
        })?;
    }
    Ok(kept)
}

// What is opened of a keeper, as a row has it.
fn opened(alloc: Global, keeper: &MemKeeper) -> Result<String, AllocError> {
    match Ancestor::open_from(alloc, keeper, 5) {
        Ok(ancestor) => {
            let paths = ancestor.tree().len();
            let served = ancestor.served();
            format!(in alloc; "{paths} {served}")
        }
        Err(OpenError::BadFrame { number }) => format!(in alloc; "bad {number}"),
        Err(OpenError::Memory) => Err(AllocError),
    }
}

#[test]
fn an_ancestor_is_the_fold_of_its_frames(rt: HostRuntime) -> Result<(), Fail> {
    let alloc = rt.alloc();
    for row in FOLDS.lines() {
        let keeper = match row.split_once('#') {
            Some((_, frames)) => MemKeeper::of(alloc, kept_of(alloc, frames)?, &[])?,
            None => MemKeeper::new(alloc),
        };
        let (wanted, _) = row.split_once('#').unwrap_or((row, ""));
        assert_eq!(rt; opened(alloc, &keeper)?.as_str(), wanted);
    }
    Ok(())
}

#[test]
fn a_keeper_fails_once_and_goes_on(rt: HostRuntime) -> Result<(), Fail> {
    let alloc = rt.alloc();
    let mut keeper = MemKeeper::of(alloc, Vec::new(alloc), &[1])?;
    let session = KeepKey::Session(5);
    if let Some(number) = ResetNumber::of(3) {
        let frame = Frame::Reset(number);
        assert!(rt; keeper.append(alloc, session, &frame).is_ok());
        assert!(rt; matches!(keeper.append(alloc, session, &frame), Err(KeepError::Fault)));
        assert!(rt; keeper.append(alloc, KeepKey::Table, &frame).is_ok());
    }
    let frames = keeper.frames(alloc, session)?;
    assert_eq!(rt; frames.len(), 1);
    for frame in &frames {
        assert_eq!(rt; frame.as_slice(), b"v1 reset 3".as_slice());
    }
    Ok(())
}

// Each row has the frames of a session, each behind a `#`, with `|` for LF; behind a `>` a frame that is committed, and behind another what the ancestor
// holds then.
const COMMITS: &str = "\
#v2 agree 1 1|set . dir>v2 agree 1 2|set a dir|set a/b link =x|drop a>. dir|
#v2 agree 1 1|set . dir|set a dir|set a/b link =x>v2 agree 1 2|drop a|set a link =y>. dir|a link =y|
#v2 agree 1 1|set . dir|set a dir|set a/b link =x>v2 agree 1 2|set a link =y>. dir|a link =y|
#v2 agree 1 1|set . dir|set a link =x>v2 agree 1 2|drop a|set a dir|set a/b link =y|set a/c dir>. dir|a dir|a/b link =y|a/c dir|
#v2 agree 1 1|set . dir|set a dir|set a/b link =x|set a/c dir>v2 agree 1 2|drop a/b|drop a|set a dir|set a/b link =z>. dir|a dir|a/b link =z|
#v2 agree 1 1|set . dir|set a dir|set a/b dir|set a/b/c dir>v2 agree 1 2|set a link =y|set a dir|set a/d link =z>. dir|a dir|a/d link =z|
#v2 agree 1 1|set . dir|set b dir>v1 reset 3>";

// The frame with this text, if it is one that can be kept.
fn frame_of(alloc: Global, text: &str) -> Result<Option<Frame>, AllocError> {
    let bytes = bytes_of(alloc, text)?;
    match read_payload(alloc, bytes.as_slice()) {
        Ok(
            Payload::Agree {
                run,
                cycle,
                lines,
                ..
            },
        ) => match AgreedLines::of(lines) {
            Some(lines) => Ok(Some(Frame::Agree { run, cycle, lines })),
            None => Ok(None),
        },
        Ok(Payload::Reset(number)) => match ResetNumber::of(number) {
            Some(number) => Ok(Some(Frame::Reset(number))),
            None => Ok(None),
        },
        _ => Ok(None),
    }
}

// Takes up lines, one after another.
fn take_lines(alloc: Global, tree: &mut Tree, lines: &[AncestorLine]) -> Result<(), TreeError>
    ensures { OnOk result (with_lines tree.old lines.now ≡ Some tree.new) }
{
    let mut rest = lines;
    while let [line, behind @ ..] = rest {
        line.apply(alloc, tree)?;
        rest = behind;
    }
    Ok(())
}

// Whether the ancestor can take the frame.
fn takes(alloc: Global, ancestor: &Ancestor, frame: &Frame) -> Result<bool, AllocError>
    ensures { IfOk result (λ taken. IsTrue taken → IsSome (with_frame ancestor.now.fold frame.now)) }
{
    match frame {
        Frame::Agree { lines, .. } => {
            let mut tree = ancestor.tree().copy(alloc)?;
            match take_lines(alloc, &mut tree, lines.as_slice()) {
                Ok(()) => Ok(true),
                Err(_) => Ok(false),
            }
        }
        Frame::Reset(_) => Ok(true),
        Frame::Table(_) => Ok(false),
    }
}

// What the ancestor holds, as a row has it.
fn shown(alloc: Global, ancestor: &Ancestor) -> Result<String, AllocError> {
    let mut text = String::new(alloc);
    for (path, atom) in ancestor.tree().iter() {
        write_path(&mut text, path)?;
        text.push(' ')?;
        write_atom(&mut text, atom)?;
        text.push('|')?;
    }
    Ok(text)
}

// Whether a commit went through.
fn committed(
    alloc: Global,
    keeper: &mut MemKeeper,
    ancestor: &mut Ancestor,
    frame: &Frame,
) -> Result<bool, AllocError> {
    if !takes(alloc, ancestor, frame)? {
        return Ok(false);
    }
    Ok(ancestor.commit(alloc, keeper, frame).is_ok())
}

// Commits a frame to a keeper that fails at its first append, and once more.
fn commit_twice(alloc: Global, frames: &str, text: &str, wanted: &str) -> Result<bool, AllocError> {
    let mut keeper = MemKeeper::of(alloc, kept_of(alloc, frames)?, &[0])?;
    let Ok(mut ancestor) = Ancestor::open_from(alloc, &keeper, 5) else {
        return Ok(false);
    };
    let Some(frame) = frame_of(alloc, text)? else {
        return Ok(false);
    };
    let before = shown(alloc, &ancestor)?;
    let failed = committed(alloc, &mut keeper, &mut ancestor, &frame)?;
    let between = shown(alloc, &ancestor)?;
    let went = committed(alloc, &mut keeper, &mut ancestor, &frame)?;
    let behind = shown(alloc, &ancestor)?;
    Ok(!failed && went && before.as_str() == between.as_str() && behind.as_str() == wanted)
}

#[test]
fn a_commit_takes_up_its_frame_or_nothing(rt: HostRuntime) -> Result<(), Fail> {
    let alloc = rt.alloc();
    for row in COMMITS.lines() {
        let (kept, behind) = row.split_once('>').unwrap_or((row, ""));
        let (frame, wanted) = behind.split_once('>').unwrap_or((behind, ""));
        let (_, frames) = kept.split_once('#').unwrap_or((kept, ""));
        assert!(rt; commit_twice(alloc, frames, frame, wanted)?);
    }
    Ok(())
}

// Each row has the frames of a session, each behind a `#`, with `|` for LF; behind a `>` their number after a compaction in the first run, and these.
const COMPACTIONS: &str = "\
#v2 agree 1 1|set . dir|set a link =x#v2 agree 1 2|drop a>1#v2 whole 1 18446744073709551615 0|set . dir
#v2 agree 1 1|set . dir#v1 reset 7>1#v2 whole 1 18446744073709551615 7
#v2 whole 0 18446744073709551615 7|set . dir>1#v2 whole 1 18446744073709551615 7|set . dir
#v1 reset 1#v1 reset 0>2#v1 reset 1#v1 reset 0";

// The frames of session 5, as a row has them.
fn frames_of_row(alloc: Global, keeper: &MemKeeper) -> Result<String, AllocError> {
    let mut text = String::new(alloc);
    for frame in keeper.frames(alloc, KeepKey::Session(5))? {
        text.push('#')?;
        for b in frame.as_slice() {
            text.push(if *b == b'\n' { '|' } else { char::from(*b) })?;
        }
    }
    Ok(text)
}

// The frames of a row after a compaction.
fn compacted_row(alloc: Global, frames: &str) -> Result<String, AllocError> {
    let mut kept = kept_of(alloc, frames)?;
    kept.push(Kept {
        key: KeepKey::Table,
        bytes: Items::from_vec(bytes_of(alloc, "v1 opened")?),
    })?;
    let mut keeper = MemKeeper::of(alloc, kept, &[])?;
    match keeper.compact(alloc) {
        Ok(()) => {
            let number = keeper.kept();
            let frames = frames_of_row(alloc, &keeper)?;
            format!(in alloc; "{number}{frames}")
        }
        Err(_) => Err(AllocError),
    }
}

#[test]
fn a_compaction_leaves_one_frame(rt: HostRuntime) -> Result<(), Fail> {
    let alloc = rt.alloc();
    for row in COMPACTIONS.lines() {
        let (kept, wanted) = row.split_once('>').unwrap_or((row, ""));
        let (_, frames) = kept.split_once('#').unwrap_or((kept, ""));
        assert_eq!(rt; compacted_row(alloc, frames)?.as_str(), wanted);
    }
    Ok(())
}
