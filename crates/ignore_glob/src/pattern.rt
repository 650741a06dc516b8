//! A pattern: its reading, and which paths it matches.
ghost use Rattle.std.specs.Prelude.{◌≡◌, ◌⊎◌, ◌↔◌, ℕ, IfOk, IsTrue, MatchResult};
ghost use Rattle.ignore_glob.specs.declared.pattern_error.PatternError.TheVariants.{Bad, Memory};
ghost use Rattle.ignore_glob.specs.Faults.{IsFault, counted};
ghost use Rattle.ignore_glob.specs.Grammar.{IsPattern, Meaning};
ghost use Rattle.ignore_glob.specs.Matching.{IsMatch, MatchesLast};
ghost use Rattle.ignore_glob.specs.Refusals.{IsRefusal};

use crate::fault::Fault;
use crate::part_match::matches_name;
use crate::path_match::matches_path;
use crate::pattern_error::PatternError;
use crate::piece::Part;
use crate::read_parts::read_parts;
use crate::text::{take_off, take_off_end};
use std::alloc::{AllocError, Global};
use std::marker::Model;
use sync_path::Path;

/// A pattern. Contracts see what it means: whether it is negated, whether it is anchored, whether only
/// directories match, and its parts (`specs/Grammar.antt`).
#[derive(Debug, Drop)]
pub struct Pattern {
    negated: bool,
    anchored: bool,
    directories: bool,
    parts: Vec<Part>,
}

impl Model for Pattern {
    ghost use Rattle.ignore_glob.specs.Grammar.{Meaning};

    ghost Value = { Meaning };

    ghost view = { λ p. record { negated = p.negated; anchored = p.anchored; directories = p.directories; parts = p.parts.items } };
}

impl Pattern {
    /// Reads a pattern, which is the whole text: an optional `!`, an optional `/`, 1 to 64 parts with a `/`
    /// between each two, and an optional `/`. In a part `*` stands for any characters, `?` for one, and `\`
    /// with a character for that character; a part `**` spans. A text that is none of these is bad at the
    /// first byte of its first offence: a `{` or `[` without a `\` before it; a `\` that ends the text or
    /// stands before a `/`; the `/` that ends an empty part; the first byte of the 65th part; and the length
    /// of the text where no part is left.
    ///
    /// Cost: the length of the text, up to the offence. The syntax is that of Mutagen's ignores, without
    /// braces and brackets.
    pub fn read(alloc: Global, text: &str) -> Result<Pattern, PatternError>
        // What is read is the text's meaning, and a refusal has its place.
        ensures reads { MatchResult result (IsPattern text.now) (IsRefusal text.now) }

        // A text in the grammar is read, unless memory runs out, and another is refused.
        ensures accepted { (p : Meaning) → IsPattern text.now p → MatchResult result (λ q. q ≡ p) (λ e. e ≡ Memory) }
        ensures refused { (place : ℕ) → IsFault text.now place → MatchResult result (λ _. ⊥) (λ e. (e ≡ Bad (record { place = counted place })) ⊎ (e ≡ Memory)) }
    {
        read_pattern(alloc, text)
    }

    /// Whether what lies at the path matches, which is a directory or not. The root matches no pattern. Whether
    /// the pattern is negated plays no part here. It takes no memory.
    ///
    /// A pattern of one part without an anchor matches by the last name of the path, any other by all of its
    /// names. Cost: at most as many matches of a part and a name as the path has names times the parts, and
    /// each of these at most the characters of the name times the pieces of the part, whatever stars stand in it.
    pub fn matches(&self, path: &Path, is_dir: bool) -> bool
        ensures { IsTrue result ↔ IsMatch self.now path.now is_dir }
    {
        if path.is_root() || (self.directories && !is_dir) {
            return false;
        }
        match self.parts.as_slice() {
            [part] if !self.anchored => matches_last(part, path),
            parts => matches_path(parts, path),
        }
    }

    /// Another pattern of the same meaning. Cost: the number of its parts and pieces.
    pub fn copy(&self, alloc: Global) -> Result<Pattern, AllocError>
        ensures { IfOk result (λ pattern. pattern ≡ self.now) }
    {
        let parts = copy_parts(alloc, self.parts.as_slice())?;
        Ok(Pattern {
            negated: self.negated,
            anchored: self.anchored,
            directories: self.directories,
            parts,
        })
    }

    /// Whether the pattern begins with `!`. It takes no memory.
    pub fn is_negated(&self) -> bool
        ensures { result ≡ self.now.negated }
    {
        self.negated
    }
}

/// Other parts that stand for the same names.
fn copy_parts(alloc: Global, parts: &[Part]) -> Result<Vec<Part>, AllocError>
    ensures { IfOk result (λ copied. copied.items ≡ parts.now) }
{
    let mut copied = Vec::new(alloc);
    for part in parts {
        copied.push(part.copy(alloc)?)?;
    }
    Ok(copied)
}

/// Whether the part matches the last name of the path, or spans.
fn matches_last(part: &Part, path: &Path) -> bool
    ensures { IsTrue result ↔ MatchesLast path.now part.now }
{
    match part {
        Part::Span => true,
        Part::Glob(glob) => match path.last_name() {
            Some(name) => matches_name(glob.as_slice(), name),
            None => false,
        },
    }
}

/// Reads a pattern.
fn read_pattern(alloc: Global, text: &str) -> Result<Pattern, PatternError>
    ensures { MatchResult result (IsPattern text.now) (IsRefusal text.now) }
{
    let (negated, unsigned) = take_off(text, '!');
    let (anchored, body) = take_off(unsigned, '/');
    let (directories, middle) = take_off_end(body, '/');
    if middle.is_empty() {
        return Err(PatternError::at(text.len()));
    }
    match read_parts(alloc, middle) {
        Ok(parts) => Ok(Pattern {
            negated,
            anchored,
            directories,
            parts,
        }),
        Err(Fault::At(offset)) => Err(PatternError::at(text.len() - body.len() + offset)),
        Err(Fault::Memory) => Err(PatternError::Memory),
    }
}
