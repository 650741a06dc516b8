//! The patterns of what version control keeps beside the files.
ghost use Rattle.std.specs.Prelude.{IfOk};
ghost use Rattle.ignore_glob.specs.Grammar.{IsPattern};
ghost use Rattle.ignore_rules.specs.Vcs.{HasMeaning, vcs_texts};
ghost use Rattle.ignore_rules.specs.Rules.{ArePatterns};

use ignore_glob::{Pattern, PatternError};
use std::alloc::{AllocError, Global};

/// The pattern of this text, which is one. So only want of memory is an error.
fn folder_pattern(alloc: Global, text: &str) -> Result<Pattern, AllocError>
    requires { HasMeaning text.now }
    ensures { IfOk result (IsPattern text.now) }
{
    match Pattern::read(alloc, text) {
        Ok(pattern) => Ok(pattern),
        Err(PatternError::Memory) => Err(AllocError),
        Err(PatternError::Bad(_)) => unreachable!(),
    }
}

/// The patterns of the folders of Git, Subversion, Mercurial, Bazaar and Darcs, as in Mutagen.
pub(crate) fn vcs_patterns(alloc: Global) -> Result<Vec<Pattern>, AllocError>
    ensures { IfOk result (λ patterns. ArePatterns vcs_texts patterns.items) }
{
    let git = folder_pattern(alloc, ".git/")?;
    let subversion = folder_pattern(alloc, ".svn/")?;
    let mercurial = folder_pattern(alloc, ".hg/")?;
    let bazaar = folder_pattern(alloc, ".bzr/")?;
    let darcs = folder_pattern(alloc, "_darcs/")?;
    let mut patterns = Vec::new(alloc);
    patterns.push(git)?;
    patterns.push(subversion)?;
    patterns.push(mercurial)?;
    patterns.push(bazaar)?;
    patterns.push(darcs)?;
    Ok(patterns)
}
