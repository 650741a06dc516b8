//! How the lines of a payload are read.
ghost use Rattle.std.specs.Prelude.{◌≡◌, ◌∷◌, [], List, ℕ, IfOk, codes};
ghost use Rattle.line_words.specs.Lines.{line_items};
ghost use Rattle.line_words.specs.declared.reading.Reading.TheVariants.{Canonical};
ghost use Rattle.sync_path.specs.Path.{IsPath};
ghost use Rattle.entry_tree.specs.PathWord.{path_word};
ghost use Rattle.frame_text.specs.Heads.{IsHead, words_of_head, version_word, verb_word};
ghost use Rattle.frame_text.specs.LineText.{IsLine, words_of_line};
ghost use Rattle.frame_text.specs.Reading.{Reads, TakesPath};

use crate::head::{Head, Verb, head_by, verb_by};
use crate::numbers::read_numbers;
use crate::version::{Version, fits, version_by};
use entry_tree::{AtomError, read_atom_words, read_path};
use line_words::{Reading, WordError, Words};
use mode_rules::AncestorLine;
use std::alloc::{AllocError, Global};
use sync_path::Path;

// The words of a line, of which only a writer's are accepted.
fn words_of(line: &[u8]) -> Words<'_>
    ensures { result ≡ line_items Canonical line.now }
{
    Words::new(Reading::Canonical, line)
}

/// The head that a payload's first line writes, if it writes one. Cost: the length of the line.
pub(crate) fn read_head(alloc: Global, line: &[u8]) -> Result<Option<Head>, AllocError>
    ensures { IfOk result (Reads IsHead words_of_head [] (line_items Canonical line.now)) }
{
    let mut words = words_of(line);
    match words.next(alloc) {
        Ok(Some(word)) => match version_by(word.bytes()) {
            Some(version) => read_verb(alloc, &mut words, version),
            None => Ok(None),
        },
        Ok(None) => Ok(None),
        Err(WordError::Bad(_)) => Ok(None),
        Err(WordError::Memory) => Err(AllocError),
    }
}

// What stands behind the version.
fn read_verb(
    alloc: Global,
    words: &mut Words<'_>,
    version: Version,
) -> Result<Option<Head>, AllocError>
    ensures { IfOk result (Reads IsHead words_of_head (version_word version ∷ []) words.old) }
{
    match words.next(alloc) {
        Ok(Some(word)) => match verb_by(word.bytes()) {
            Some(verb) => read_behind(alloc, words, version, verb),
            None => Ok(None),
        },
        Ok(None) => Ok(None),
        Err(WordError::Bad(_)) => Ok(None),
        Err(WordError::Memory) => Err(AllocError),
    }
}

// What stands behind the verb.
fn read_behind(
    alloc: Global,
    words: &mut Words<'_>,
    version: Version,
    verb: Verb,
) -> Result<Option<Head>, AllocError>
    ensures { IfOk result (Reads IsHead words_of_head (version_word version ∷ verb_word verb ∷ []) words.old) }
{
    match read_numbers(alloc, words) {
        Ok(Some(numbers)) => Ok(head_by(version, verb, numbers.as_slice())),
        Ok(None) => Ok(None),
        Err(error) => Err(error),
    }
}

/// The line of the ancestor that a line of a payload writes, if it writes one. Cost: the length of the line.
pub(crate) fn read_line(
    alloc: Global,
    version: Version,
    line: &[u8],
) -> Result<Option<AncestorLine>, AllocError>
    ensures { IfOk result (Reads (IsLine version) words_of_line [] (line_items Canonical line.now)) }
{
    let mut words = words_of(line);
    match words.next(alloc) {
        Ok(Some(word)) => read_kind(alloc, version, &mut words, line.len(), word.bytes()),
        Ok(None) => Ok(None),
        Err(WordError::Bad(_)) => Ok(None),
        Err(WordError::Memory) => Err(AllocError),
    }
}

// What stands behind the first word of a line.
fn read_kind(
    alloc: Global,
    version: Version,
    words: &mut Words<'_>,
    end: usize,
    kind: &[u8],
) -> Result<Option<AncestorLine>, AllocError>
    ensures { IfOk result (Reads (IsLine version) words_of_line (kind.now ∷ []) words.old) }
{
    if kind == b"set".as_slice() {
        return read_set(alloc, version, words, end);
    }
    if kind == b"drop".as_slice() {
        return read_drop(alloc, version, words);
    }
    Ok(None)
}

// What stands behind `set`.
fn read_set(
    alloc: Global,
    version: Version,
    words: &mut Words<'_>,
    end: usize,
) -> Result<Option<AncestorLine>, AllocError>
    ensures { IfOk result (Reads (IsLine version) words_of_line (codes "set" ∷ []) words.old) }
{
    match next_path(alloc, words) {
        Ok(Some(path)) => read_atom(alloc, version, words, end, path),
        Ok(None) => Ok(None),
        Err(error) => Err(error),
    }
}

// What stands behind `set` and a path.
fn read_atom(
    alloc: Global,
    version: Version,
    words: &mut Words<'_>,
    end: usize,
    path: Path,
) -> Result<Option<AncestorLine>, AllocError>
    requires { IsPath path }
    ensures { IfOk result (Reads (IsLine version) words_of_line (codes "set" ∷ path_word path ∷ []) words.old) }
{
    match read_atom_words(alloc, words, end) {
        Ok(atom) if fits(version, &atom) => Ok(Some(AncestorLine::Set(path, atom))),
        Ok(_) => Ok(None),
        Err(AtomError::Bad(_)) => Ok(None),
        Err(AtomError::Memory) => Err(AllocError),
    }
}

// What stands behind `drop`.
fn read_drop(
    alloc: Global,
    version: Version,
    words: &mut Words<'_>,
) -> Result<Option<AncestorLine>, AllocError>
    ensures { IfOk result (Reads (IsLine version) words_of_line (codes "drop" ∷ []) words.old) }
{
    match next_path(alloc, words) {
        Ok(Some(path)) => read_end(alloc, version, words, path),
        Ok(None) => Ok(None),
        Err(error) => Err(error),
    }
}

// What stands behind `drop` and a path: nothing more.
fn read_end(
    alloc: Global,
    version: Version,
    words: &mut Words<'_>,
    path: Path,
) -> Result<Option<AncestorLine>, AllocError>
    requires { IsPath path }
    ensures { IfOk result (Reads (IsLine version) words_of_line (codes "drop" ∷ path_word path ∷ []) words.old) }
{
    match words.next(alloc) {
        Ok(None) => Ok(Some(AncestorLine::Drop(path))),
        Ok(Some(_)) => Ok(None),
        Err(WordError::Bad(_)) => Ok(None),
        Err(WordError::Memory) => Err(AllocError),
    }
}

// The path that the next word writes, if it writes one.
fn next_path(alloc: Global, words: &mut Words<'_>) -> Result<Option<Path>, AllocError>
    ensures { IfOk result (λ found. TakesPath words.old found words.new) }
{
    match words.next(alloc) {
        Ok(Some(word)) => read_path(alloc, word.bytes()),
        Ok(None) => Ok(None),
        Err(WordError::Bad(_)) => Ok(None),
        Err(WordError::Memory) => Err(AllocError),
    }
}
