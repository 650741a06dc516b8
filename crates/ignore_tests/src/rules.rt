//! Tests of what no clause says: which pattern decides, the patterns of version control, and the first bad text.
use ignore_rules::{BadRule, MAX_RULES, RuleError, Rules};
use std::alloc::{AllocError, Global};
use std::test::Fail;
use sync_path::Path;

fn strings(alloc: Global, texts: &[&str]) -> Result<Vec<String>, AllocError> {
    let mut strings = Vec::new(alloc);
    for text in texts {
        strings.push(String::from_str(alloc, text)?)?;
    }
    Ok(strings)
}

fn ignores(alloc: Global, rules: &Rules, path: &str, is_dir: bool) -> Result<bool, Fail> {
    let path = Path::read(alloc, path)?;
    Ok(rules.decide(&path, is_dir))
}

#[test]
fn the_last_pattern_that_matches_decides(rt: HostRuntime) -> Result<(), Fail> {
    let alloc = rt.alloc();
    let texts = strings(alloc, &["*.o", "!keep.o", "/build/"])?;
    assert!(rt; texts.len() <= MAX_RULES);
    let rules = Rules::read(alloc, &texts, false)?.copy(alloc)?;
    let cases = [
        ("x/a.o", false, true),
        ("x/keep.o", false, false),
        ("x/build", true, false),
        ("build", true, true),
        ("build", false, false),
        ("", true, false),
    ];
    for (path, is_dir, expected) in cases {
        assert_eq!(rt; ignores(alloc, &rules, path, is_dir)?, expected, "{path}");
    }
    Ok(())
}

#[test]
fn version_control_stands_before_the_texts(rt: HostRuntime) -> Result<(), Fail> {
    let alloc = rt.alloc();
    let texts = strings(alloc, &["!/.hg/"])?;
    assert!(rt; texts.len() <= MAX_RULES);
    let rules = Rules::read(alloc, &texts, true)?;
    for path in ["a/.git", ".svn", "a/.hg", ".bzr", "_darcs"] {
        assert!(rt; ignores(alloc, &rules, path, true)?, "{path}");
    }
    assert!(rt; !ignores(alloc, &rules, ".hg", true)?);
    assert!(rt; !ignores(alloc, &rules, ".git", false)?);
    Ok(())
}

#[test]
fn the_first_bad_text_is_named(rt: HostRuntime) -> Result<(), Fail> {
    let alloc = rt.alloc();
    let texts = strings(alloc, &["a", "b//c", "{"])?;
    assert!(rt; texts.len() <= MAX_RULES);
    match Rules::read(alloc, &texts, true) {
        Err(RuleError::Bad(bad)) => assert_eq!(rt; bad, BadRule { index: 1, place: 2 }),
        _ => assert!(rt; false),
    }
    Ok(())
}
