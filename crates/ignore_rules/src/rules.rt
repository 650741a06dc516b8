//! A list of patterns: its reading, and which paths it ignores.
ghost use Rattle.std.specs.Prelude.{◌≡◌, ◌⊎◌, ◌↔◌, ◌≤◌, ℕ, List, length, map, IfOk, IsTrue, MatchResult, string_bytes};
ghost use Rattle.ignore_glob.specs.Faults.{counted};
ghost use Rattle.ignore_glob.specs.Grammar.{Meaning};
ghost use Rattle.ignore_rules.specs.declared.rule_error.RuleError.TheVariants.{Bad, Memory};
ghost use Rattle.ignore_rules.specs.Rules.{AreRules, IsRuleFault, Ignores};
ghost use Rattle.ignore_rules.specs.Refusals.{IsRefusal};

use crate::rule_error::{BadRule, RuleError};
use crate::vcs::vcs_patterns;
use ignore_glob::{Pattern, PatternError};
use std::alloc::{AllocError, Global};
use std::marker::Model;
use sync_path::Path;

/// The greatest number of texts that are read as rules.
pub const MAX_RULES: usize = 256;

/// A list of patterns, of which the last that matches decides. Contracts see the list of what they mean.
#[derive(Debug, Drop)]
pub struct Rules {
    patterns: Vec<Pattern>,
}

impl Model for Rules {
    ghost use Rattle.std.specs.Prelude.{List};
    ghost use Rattle.ignore_glob.specs.Grammar.{Meaning};

    ghost Value = { List Meaning };

    ghost view = { λ r. r.patterns.items };
}

impl Rules {
    /// Reads at most 256 texts ([`MAX_RULES`]), each as a pattern, in this order. With `vcs` the patterns `.git/`, `.svn/`,
    /// `.hg/`, `.bzr/` and `_darcs/` stand before them. The first text that is no pattern is refused, by its
    /// number and the place of its first offence.
    ///
    /// Cost: the length of the texts.
    pub fn read(alloc: Global, texts: &[String], vcs: bool) -> Result<Rules, RuleError>
        requires { length texts.now ≤ MAX_RULES }

        // What is read is what the texts mean, and a refusal has its number and its place.
        ensures reads { MatchResult result (AreRules vcs (map string_bytes texts.now)) (IsRefusal (map string_bytes texts.now)) }

        // Texts in the grammar are read, unless memory runs out, and others are refused.
        ensures accepted { (rules : List Meaning) → AreRules vcs (map string_bytes texts.now) rules → MatchResult result (λ read. read ≡ rules) (λ e. e ≡ Memory) }
        ensures refused { (index place : ℕ) → IsRuleFault (map string_bytes texts.now) index place → MatchResult result (λ _. ⊥) (λ e. (e ≡ Bad (record { index = index; place = counted place })) ⊎ (e ≡ Memory)) }
    {
        read_rules(alloc, texts, vcs)
    }

    /// Whether what lies at the path is ignored, which is a directory or not: the last pattern that matches
    /// isn't negated. The root is never ignored. It takes no memory.
    ///
    /// Cost: at most one match a pattern, the last first, up to the one that decides.
    pub fn decide(&self, path: &Path, is_dir: bool) -> bool
        ensures { IsTrue result ↔ Ignores self.now path.now is_dir }
    {
        let mut left = self.patterns.as_slice();
        while let Some((last, before)) = left.split_last() {
            if last.matches(path, is_dir) {
                return !last.is_negated();
            }
            left = before;
        }
        false
    }

    /// Other rules of the same patterns. Cost: their size.
    pub fn copy(&self, alloc: Global) -> Result<Rules, AllocError>
        ensures { IfOk result (λ rules. rules ≡ self.now) }
    {
        let patterns = copy_patterns(alloc, self.patterns.as_slice())?;
        Ok(Rules { patterns })
    }
}

/// Other patterns of the same meanings.
fn copy_patterns(alloc: Global, patterns: &[Pattern]) -> Result<Vec<Pattern>, AllocError>
    ensures { IfOk result (λ copied. copied.items ≡ patterns.now) }
{
    let mut copied = Vec::new(alloc);
    for pattern in patterns {
        copied.push(pattern.copy(alloc)?)?;
    }
    Ok(copied)
}

/// Reads rules.
fn read_rules(alloc: Global, texts: &[String], vcs: bool) -> Result<Rules, RuleError>
    requires { length texts.now ≤ MAX_RULES }
    ensures { MatchResult result (AreRules vcs (map string_bytes texts.now)) (IsRefusal (map string_bytes texts.now)) }
{
    let mut patterns = if vcs {
        vcs_patterns(alloc)?
    } else {
        Vec::new(alloc)
    };
    for (index, text) in texts.iter().enumerate() {
        match Pattern::read(alloc, text.as_str()) {
            Ok(pattern) => patterns.push(pattern)?,
            Err(PatternError::Bad(bad)) => {
                return Err(RuleError::Bad(BadRule {
                    index: index as u32,
                    place: bad.place,
                }));
            }
            Err(PatternError::Memory) => return Err(RuleError::Memory),
        }
    }
    Ok(Rules { patterns })
}
