//! What new sessions are made of.
ghost use Rattle.std.specs.Prelude.{◌≡◌, IfOk};

use crate::patterns::Patterns;
use command_words::{Endpoint, EntryLimit, GivenName, Labels, RootName, SizeLimit};
use mode_rules::Mode;
use std::alloc::{AllocError, Global};

/// A new synchronisation session.
#[derive(Debug, Drop)]
pub struct SyncCreate {
    /// Its name, if it has one.
    pub name: Option<GivenName>,
    /// Its labels, in order of their keys.
    pub labels: Labels,
    pub mode: Mode,
    /// Whether it passes over the folders of version control.
    pub ignore_vcs: bool,
    /// The texts of its ignore patterns, in order. Whether each is a pattern is asked later.
    pub ignores: Patterns,
    /// Whether it begins paused.
    pub paused: bool,
    /// How many entries of a side it lists at most.
    pub entries: EntryLimit,
    /// How many bytes a file may have that it carries.
    pub size: SizeLimit,
    pub alpha: RootName,
    pub beta: RootName,
}

/// A new forwarding session.
#[derive(Debug, Drop)]
pub struct ForwardCreate {
    /// Its name, if it has one.
    pub name: Option<GivenName>,
    /// Whether it begins paused.
    pub paused: bool,
    pub source: Endpoint,
    pub dest: Endpoint,
}

impl SyncCreate {
    /// An equal session. Cost: the lengths of its words.
    pub fn copy(&self, alloc: Global) -> Result<SyncCreate, AllocError>
        ensures { IfOk result (λ create. create ≡ self.now) }
    {
        Ok(SyncCreate {
            name: copy_name(alloc, &self.name)?,
            labels: self.labels.copy(alloc)?,
            mode: self.mode,
            ignore_vcs: self.ignore_vcs,
            ignores: self.ignores.copy(alloc)?,
            paused: self.paused,
            entries: self.entries.copy(),
            size: self.size.copy(),
            alpha: self.alpha.copy(alloc)?,
            beta: self.beta.copy(alloc)?,
        })
    }
}

impl ForwardCreate {
    /// An equal session. Cost: the lengths of its words.
    pub fn copy(&self, alloc: Global) -> Result<ForwardCreate, AllocError>
        ensures { IfOk result (λ create. create ≡ self.now) }
    {
        Ok(ForwardCreate {
            name: copy_name(alloc, &self.name)?,
            paused: self.paused,
            source: self.source.copy(alloc)?,
            dest: self.dest.copy(alloc)?,
        })
    }
}

// An equal name, if there is one.
fn copy_name(alloc: Global, name: &Option<GivenName>) -> Result<Option<GivenName>, AllocError>
    ensures { IfOk result (λ copy. copy ≡ name.now) }
{
    match name {
        Some(name) => Ok(Some(name.copy(alloc)?)),
        None => Ok(None),
    }
}
