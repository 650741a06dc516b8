//! How a path stands in a line.
ghost use Rattle.std.specs.Prelude.{◌≡◌, ◌++◌, ◌<◌, ℕ, List, length, None, IfOk, IfSome, OnOk, string_bytes};
ghost use Rattle.line_words.specs.Spelling.{escaped};
ghost use Rattle.sync_path.specs.Path.{IsPath, path_text};
ghost use Rattle.entry_tree.specs.PathWord.{path_word};

use line_words::write_word;
use std::alloc::{AllocError, Global};
use sync_path::{Path, PathError};

/// Writes the word of a path behind a text: the path's text, escaped, and `.` for the root. Cost: the length of the path's text.
pub fn write_path(text: &mut String, path: &Path) -> Result<(), AllocError>
    ensures { OnOk result (string_bytes text.new ≡ string_bytes text.old ++ escaped (path_word path.now)) }
{
    let mut names = path.names();
    let Some(first) = names.next() else {
        return text.push_str(".");
    };
    write_word(text, first.as_bytes())?;
    for name in names {
        text.push('/')?;
        write_word(text, name.as_bytes())?;
    }
    Ok(())
}

/// The path whose word this is, already unescaped. None exactly where it is no path's. Cost: the length of the word.
pub fn read_path(alloc: Global, word: &[u8]) -> Result<Option<Path>, AllocError>
    ensures path { IfOk result (λ found. IfSome found (λ path. (word.now ≡ path_word path) × IsPath path)) }
    ensures none { IfOk result (λ found. found ≡ None → (names : List (List ℕ)) → IsPath names → path_word names ≡ word.now → ⊥) }
{
    if word == b".".as_slice() {
        return Ok(Some(Path::root(alloc)));
    }
    if word.is_empty() {
        return Ok(None);
    }
    match str::from_utf8(word) {
        Ok(text) => read_text(alloc, text),
        Err(_) => Ok(None),
    }
}

// The path of a text that isn't empty, nor `.`.
fn read_text(alloc: Global, text: &str) -> Result<Option<Path>, AllocError>
    requires { 0 < length text.now }
    ensures path { IfOk result (λ found. IfSome found (λ path. (text.now ≡ path_word path) × IsPath path)) }
    ensures none { IfOk result (λ found. found ≡ None → (names : List (List ℕ)) → IsPath names → path_text names ≡ text.now → ⊥) }
{
    match Path::read(alloc, text) {
        Ok(path) => Ok(Some(path)),
        Err(PathError::Bad(_)) => Ok(None),
        Err(PathError::Memory) => Err(AllocError),
    }
}
