//! Tests of what no clause says: the places of bad bytes, which paths match, and that no pattern is exponential.
use ignore_glob::{Pattern, PatternError};
use std::alloc::{AllocError, Global};
use std::test::Fail;
use sync_path::Path;

fn repeated(alloc: Global, piece: &str, times: usize, end: &str) -> Result<String, AllocError> {
    let mut text = String::new(alloc);
    for _ in 0..times {
        text.push_str(piece)?;
    }
    text.push_str(end)?;
    Ok(text)
}

// The place at which the text is bad, if it is.
fn bad_place(alloc: Global, text: &str) -> Result<Option<u32>, AllocError> {
    match Pattern::read(alloc, text) {
        Ok(_) => Ok(None),
        Err(PatternError::Bad(bad)) => Ok(Some(bad.place)),
        Err(PatternError::Memory) => Err(AllocError),
    }
}

fn matches(alloc: Global, pattern: &str, path: &str, is_dir: bool) -> Result<bool, Fail> {
    let pattern = Pattern::read(alloc, pattern)?.copy(alloc)?;
    let path = Path::read(alloc, path)?;
    Ok(pattern.matches(&path, is_dir))
}

#[test]
fn each_offence_has_its_place(rt: HostRuntime) -> Result<(), Fail> {
    let alloc = rt.alloc();
    let cases = [
        ("a\\", Some(1)),
        ("{a", Some(0)),
        ("é[", Some(2)),
        ("\\\\{", Some(2)),
        ("\\{]}\\é", None),
        ("a\\/b", Some(1)),
        ("a//b", Some(2)),
        ("a//", Some(2)),
        ("//", Some(2)),
        ("///", Some(1)),
        ("", Some(0)),
        ("!/", Some(2)),
        ("!!a", None),
        ("!/a/b/[/{", Some(6)),
    ];
    for (text, place) in cases {
        assert_eq!(rt; bad_place(alloc, text)?, place, "{text:?}");
    }
    let full = repeated(alloc, "a/", 64, "")?;
    assert_eq!(rt; bad_place(alloc, full.as_str())?, None);
    let over = repeated(alloc, "a/", 64, "b[")?;
    assert_eq!(rt; bad_place(alloc, over.as_str())?, Some(128));
    Ok(())
}

#[test]
fn which_paths_match(rt: HostRuntime) -> Result<(), Fail> {
    let alloc = rt.alloc();
    let cases = [
        ("*.o", "x/a.o", true),
        ("a*c", "a/c", false),
        ("a*b*c", "aXbYbc", true),
        ("a*b*c", "acb", false),
        ("***", "a", true),
        ("a?c", "aéc", true),
        ("??", "é", false),
        ("\\*\\a", "*a", true),
        ("\\*", "a", false),
        ("/a", "a", true),
        ("/a", "b/a", false),
        ("a/b", "x/a/b", false),
        ("*/b", "a/b", true),
        ("**", "x/y", true),
        ("**", "", false),
        ("**/a", "a", true),
        ("**/a", "x/y/a", true),
        ("a/**", "a", true),
        ("a/**/b", "a/b", true),
        ("a/**/b", "a/x/y/b", true),
        ("a/**/b", "a/b/x", false),
        ("\\**", "x/y", false),
    ];
    for (pattern, path, expected) in cases {
        assert_eq!(rt;
            matches(alloc, pattern, path, false)?,
            expected,
            "{pattern} {path}"
        );
    }
    assert!(rt; matches(alloc, "b/", "a/b", true)?);
    assert!(rt; !matches(alloc, "b/", "a/b", false)?);
    Ok(())
}

#[test]
fn no_pattern_is_exponential(rt: HostRuntime) -> Result<(), Fail> {
    let alloc = rt.alloc();
    let name = repeated(alloc, "a", 255, "")?;
    assert!(rt; !matches(alloc, "*a*a*a*a*a*a*a*b", name.as_str(), false)?);
    let pattern = repeated(alloc, "**/a/", 31, "**/b")?;
    let path = repeated(alloc, "a/", 63, "a")?;
    assert!(rt; !matches(alloc, pattern.as_str(), path.as_str(), false)?);
    Ok(())
}
