//! What a session is made of.
ghost use Rattle.std.specs.Prelude.{◌≡◌, IfOk};
ghost use Rattle.session_table.specs.Creates.{has_same_roots, is_paused, kind_of, name_of};
ghost use Rattle.std.specs.Option.{option_copied};

use command_words::{
    Endpoint, EntryLimit, GivenName, Labels, PatternText, RootName, SessionKind, SizeLimit,
};
use mode_rules::Mode;
use sqlite_items::Items;
use std::alloc::{AllocError, Global};

/// What a session is made of that keeps two roots the same.
#[derive(Debug, Drop)]
pub struct SyncCreate {
    /// Its name, if it has one.
    pub name: Option<GivenName>,
    /// Its labels, in order of their keys.
    pub labels: Labels,
    /// How it treats its two sides.
    pub mode: Mode,
    /// Whether it ignores the folders of version control.
    pub ignore_vcs: bool,
    /// Its ignore patterns, in the order given.
    pub ignores: Items<PatternText>,
    /// Whether it begins paused.
    pub paused: bool,
    /// How many entries of a side it lists.
    pub entries: EntryLimit,
    /// How many bytes a file may have that it carries.
    pub size: SizeLimit,
    /// The name of its first root.
    pub alpha: RootName,
    /// The name of its second root.
    pub beta: RootName,
}

/// What a session is made of that carries streams.
#[derive(Debug, Drop)]
pub struct ForwardCreate {
    /// Its name, if it has one.
    pub name: Option<GivenName>,
    /// Whether it begins paused.
    pub paused: bool,
    /// Where its streams come from.
    pub source: Endpoint,
    /// Where they go.
    pub dest: Endpoint,
}

/// What a session is made of.
#[derive(Debug, Drop)]
pub enum Create {
    /// A session that keeps two roots the same.
    Sync(SyncCreate),
    /// A session that carries streams.
    Forward(ForwardCreate),
}

impl Create {
    /// The kind of the session. It takes no memory.
    pub fn kind(&self) -> SessionKind
        ensures { result ≡ kind_of self.now }
    {
        match self {
            Create::Sync(_) => SessionKind::Sync,
            Create::Forward(_) => SessionKind::Forward,
        }
    }

    /// The name of the session, if it has one. It takes no memory.
    pub fn name(&self) -> Option<&GivenName>
        ensures { option_copied result ≡ name_of self.now }
    {
        match self {
            Create::Sync(create) => create.name.as_ref(),
            Create::Forward(create) => create.name.as_ref(),
        }
    }

    /// Whether the session begins paused. It takes no memory.
    pub fn is_paused(&self) -> bool
        ensures { result ≡ is_paused self.now }
    {
        match self {
            Create::Sync(create) => create.paused,
            Create::Forward(create) => create.paused,
        }
    }

    /// Whether both sides are one root. It takes no memory.
    pub fn has_same_roots(&self) -> bool
        ensures { result ≡ has_same_roots self.now }
    {
        match self {
            Create::Sync(create) => create.alpha.as_str() == create.beta.as_str(),
            Create::Forward(_) => false,
        }
    }

    /// An equal value. Cost: its length.
    pub fn copy(&self, alloc: Global) -> Result<Create, AllocError>
        ensures { IfOk result (λ create. create ≡ self.now) }
    {
        match self {
            Create::Sync(create) => Ok(Create::Sync(create.copy(alloc)?)),
            Create::Forward(create) => Ok(Create::Forward(create.copy(alloc)?)),
        }
    }
}

impl SyncCreate {
    /// An equal value. Cost: its length.
    pub fn copy(&self, alloc: Global) -> Result<SyncCreate, AllocError>
        ensures { IfOk result (λ create. create ≡ self.now) }
    {
        Ok(SyncCreate {
            name: copied_name(alloc, &self.name)?,
            labels: self.labels.copy(alloc)?,
            mode: self.mode,
            ignore_vcs: self.ignore_vcs,
            ignores: copied_patterns(alloc, self.ignores.as_slice())?,
            paused: self.paused,
            entries: self.entries.copy(),
            size: self.size.copy(),
            alpha: self.alpha.copy(alloc)?,
            beta: self.beta.copy(alloc)?,
        })
    }
}

impl ForwardCreate {
    /// An equal value. Cost: its length.
    pub fn copy(&self, alloc: Global) -> Result<ForwardCreate, AllocError>
        ensures { IfOk result (λ create. create ≡ self.now) }
    {
        Ok(ForwardCreate {
            name: copied_name(alloc, &self.name)?,
            paused: self.paused,
            source: self.source.copy(alloc)?,
            dest: self.dest.copy(alloc)?,
        })
    }
}

/// The same name, if there is one.
pub(crate) fn copied_name(
    alloc: Global,
    name: &Option<GivenName>,
) -> Result<Option<GivenName>, AllocError>
    ensures { IfOk result (λ copy. copy ≡ name.now) }
{
    match name {
        Some(name) => Ok(Some(name.copy(alloc)?)),
        None => Ok(None),
    }
}

// The same patterns.
fn copied_patterns(
    alloc: Global,
    patterns: &[PatternText],
) -> Result<Items<PatternText>, AllocError>
    ensures { IfOk result (λ copies. copies ≡ patterns.now) }
{
    let mut copies = Items::new(alloc);
    for pattern in patterns {
        copies.push(pattern.copy(alloc)?)?;
    }
    Ok(copies)
}
