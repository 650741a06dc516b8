//! How an atom is read.
ghost use Rattle.std.specs.Prelude.{◌≡◌, true, false, ◌++◌, ◌∷◌, [], ℕ, List, IfOk, Err, MatchOption, length, codes};
ghost use Rattle.line_words.specs.Lines.{HasWords, line_items};
ghost use Rattle.line_words.specs.declared.reading.Reading.TheVariants.{Canonical};
ghost use Rattle.hex.specs.Hex.{encode_lower};
ghost use Rattle.entry_tree.specs.AtomText.{words_of, spelling_of, IsAtom, IsBadAtom, BeginsAtom, is_link_text};
ghost use Rattle.entry_tree.specs.AtomReading.{Answers, word_of_kind};
ghost use Rattle.entry_tree.specs.declared.atom.Atom.{Atom};
ghost use Rattle.entry_tree.specs.declared.atom.Atom.TheVariants.{File, Link};
ghost use Rattle.entry_tree.specs.declared.atom_error.AtomError.TheVariants.{Bad, Memory};

use crate::atom::Atom;
use crate::atom_error::{AtomError, BadAtom};
use crate::atom_kind::{AtomKind, kind_of_word};
use crate::digest::Digest;
use crate::problem_kind::ProblemKind;
use crate::text::{MAX_TEXT_LEN, Text, TextError, is_text};
use line_words::{Reading, Words};
use std::alloc::Global;

// The greatest length of the word of a kind, `untracked`.
const MAX_KIND_LEN: usize = 9;
// The length of a digest's digits.
const DIGITS_LEN: usize = 64;
// The greatest length of the word of a link: `=` and its text.
const MAX_LINK_LEN: usize = MAX_TEXT_LEN + 1;

/// Reads an atom, which is the whole text: exactly what `text_of` writes.
///
/// Another text is bad at the first byte of the first word that no atom goes on with, or at its length where it ends early
/// (`IsBadAtom` of `specs/AtomText.antt`). Only a link's text takes memory, so there may be none just for a text that is an atom.
/// Cost: the length of the text.
pub fn read_atom(alloc: Global, text: &str) -> Result<Atom, AtomError>
    ensures value { IfOk result (λ atom. IsAtom atom × (text.now ≡ spelling_of atom)) }
    ensures refused { (place : ℕ) → result ≡ Err (Bad (record { place = place })) → IsBadAtom (line_items Canonical text.now) (length text.now) place }
    ensures memory { result ≡ Err Memory → (atom : Atom) × IsAtom atom × (text.now ≡ spelling_of atom) }
{
    let mut words = Words::new(Reading::Canonical, text.as_bytes());
    read_atom_words(alloc, &mut words, text.len())
}

/// Reads an atom from the words that are left of a line, up to its end; `end` is the length of the line.
///
/// Other words are bad at the first byte of the first one that no atom goes on with, or at `end` where they end early. How many
/// of the words are left then is open. Only a link's text takes memory, and only behind the look that the words are an atom's.
/// Cost: the length of what is left of the line.
pub fn read_atom_words(alloc: Global, words: &mut Words<'_>, end: usize) -> Result<Atom, AtomError>
    ensures value { IfOk result (λ atom. IsAtom atom × HasWords words.old (words_of atom)) }
    ensures refused { (place : ℕ) → result ≡ Err (Bad (record { place = place })) → IsBadAtom words.old end place }
    ensures memory { result ≡ Err Memory → (atom : Atom) × IsAtom atom × HasWords words.old (words_of atom) }
{
    read_kind(alloc, words, end)
}

// The same, in one clause.
fn read_kind(alloc: Global, words: &mut Words<'_>, end: usize) -> Result<Atom, AtomError>
    ensures { Answers [] words.old end result }
{
    let mut room = [0; MAX_KIND_LEN];
    match words.read_into(&mut room) {
        Ok(Some(word)) => match kind_of_word(&room[..word.len]) {
            Some(kind) => read_behind(alloc, words, end, kind),
            None => Err(bad(word.place)),
        },
        Ok(None) => Err(bad(end)),
        Err(word) => Err(bad(word.place)),
    }
}

// Reads what stands behind the word of a kind.
fn read_behind(
    alloc: Global,
    words: &mut Words<'_>,
    end: usize,
    kind: AtomKind,
) -> Result<Atom, AtomError>
    ensures { Answers (word_of_kind kind ∷ []) words.old end result }
{
    match kind {
        AtomKind::Dir => read_end(words, end, Atom::Dir),
        AtomKind::File => read_digest(words, end),
        AtomKind::Link => read_link(alloc, words, end),
        AtomKind::Untracked => read_end(words, end, Atom::Untracked),
        AtomKind::Problem => read_problem(words, end),
    }
}

// Reads what stands behind `file`.
fn read_digest(words: &mut Words<'_>, end: usize) -> Result<Atom, AtomError>
    ensures { Answers (codes "file" ∷ []) words.old end result }
{
    let mut room = [0; DIGITS_LEN];
    match words.read_into(&mut room) {
        Ok(Some(word)) => match Digest::read(&room[..word.len]) {
            Some(digest) => read_bit(words, end, digest),
            None => Err(bad(word.place)),
        },
        Ok(None) => Err(bad(end)),
        Err(word) => Err(bad(word.place)),
    }
}

// Reads what stands behind the digest of a file.
fn read_bit(words: &mut Words<'_>, end: usize, digest: Digest) -> Result<Atom, AtomError>
    requires { IsAtom (File digest true) }
    ensures { Answers (codes "file" ∷ encode_lower digest ∷ []) words.old end result }
{
    let mut room = [0; 1];
    match words.read_into(&mut room) {
        Ok(Some(word)) if &room[..word.len] == b"x".as_slice() => {
            read_end(words, end, Atom::File(digest, true))
        }
        Ok(Some(word)) => Err(bad(word.place)),
        Ok(None) => Ok(Atom::File(digest, false)),
        Err(word) => Err(bad(word.place)),
    }
}

// Reads what stands behind `link`.
fn read_link(alloc: Global, words: &mut Words<'_>, end: usize) -> Result<Atom, AtomError>
    ensures { Answers (codes "link" ∷ []) words.old end result }
{
    let mut room = [0; MAX_LINK_LEN];
    match words.read_into(&mut room) {
        Ok(Some(word)) => match link_text(&room[..word.len]) {
            Some(text) => read_link_end(alloc, words, end, text),
            None => Err(bad(word.place)),
        },
        Ok(None) => Err(bad(end)),
        Err(word) => Err(bad(word.place)),
    }
}

// The text of a link, behind `=`.
fn link_text(word: &[u8]) -> Option<&str>
    ensures { MatchOption result (is_link_text word.now ≡ false) (λ text. (word.now ≡ 61 ∷ text.now) × IsAtom (Link text.now)) }
{
    let text = behind_equals(word)?;
    match str::from_utf8(text) {
        Ok(text) if is_text(text) => Some(text),
        _ => None,
    }
}

// What stands behind `=`.
fn behind_equals(word: &[u8]) -> Option<&[u8]>
    ensures { MatchOption result (is_link_text word.now ≡ false) (λ text. word.now ≡ 61 ∷ text.now) }
{
    match word.split_first() {
        Some((b'=', text)) => Some(text),
        _ => None,
    }
}

// The link with this text, if the line ends here.
fn read_link_end(
    alloc: Global,
    words: &mut Words<'_>,
    end: usize,
    text: &str,
) -> Result<Atom, AtomError>
    requires { IsAtom (Link text.now) }
    ensures { Answers (words_of (Link text.now)) words.old end result }
{
    match words.skip() {
        Some(place) => Err(bad(place)),
        None => match Text::read(alloc, text) {
            Ok(text) => Ok(Atom::Link(text)),
            Err(TextError::Memory) => Err(AtomError::Memory),
            Err(TextError::BadLength) => unreachable!(),
        },
    }
}

// Reads what stands behind `problem`.
fn read_problem(words: &mut Words<'_>, end: usize) -> Result<Atom, AtomError>
    ensures { Answers (codes "problem" ∷ []) words.old end result }
{
    let mut room = [0; 1];
    match words.read_into(&mut room) {
        Ok(Some(word)) => match ProblemKind::read(&room[..word.len]) {
            Some(kind) => read_end(words, end, Atom::Problem(kind)),
            None => Err(bad(word.place)),
        },
        Ok(None) => Err(bad(end)),
        Err(word) => Err(bad(word.place)),
    }
}

// The atom, if the line ends here: with no word more does an atom go on.
fn read_end(words: &mut Words<'_>, end: usize, atom: Atom) -> Result<Atom, AtomError>
    requires atom { IsAtom atom }
    requires whole { (word : List ℕ) → BeginsAtom (words_of atom ++ word ∷ []) → ⊥ }
    ensures { Answers (words_of atom) words.old end result }
{
    match words.skip() {
        Some(place) => Err(bad(place)),
        None => Ok(atom),
    }
}

// The error at a place.
fn bad(place: usize) -> AtomError
    ensures { result ≡ Bad (record { place = place }) }
{
    AtomError::Bad(BadAtom { place })
}
