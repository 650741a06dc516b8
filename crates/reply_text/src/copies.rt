//! Copies of lists.
ghost use Rattle.std.specs.Prelude.{◌≡◌, IfOk};

use command_words::GivenName;
use mode_rules::Problem;
use sqlite_items::Items;
use std::alloc::{AllocError, Global};

/// What has an equal copy, if there is memory.
pub(crate) trait Copied: Drop {
    /// An equal value.
    fn copied(&self, alloc: Global) -> Result<Self, AllocError>
        ensures { IfOk result (λ copy. copy ≡ self.now) };
}

impl Copied for Problem {
    fn copied(&self, alloc: Global) -> Result<Problem, AllocError> {
        self.copy(alloc)
    }
}

/// The same items.
pub(crate) fn copied_items<T: Copied>(alloc: Global, items: &[T]) -> Result<Items<T>, AllocError>
    ensures { IfOk result (λ copies. copies ≡ items.now) }
{
    let mut copies = Items::new(alloc);
    for item in items {
        copies.push(item.copied(alloc)?)?;
    }
    Ok(copies)
}

/// The same name, if there is one.
pub(crate) fn copied_name(
    alloc: Global,
    name: &Option<GivenName>,
) -> Result<Option<GivenName>, AllocError>
    ensures { IfOk result (λ copy. copy ≡ name.now) }
{
    match name {
        Some(name) => Ok(Some(name.copy(alloc)?)),
        None => Ok(None),
    }
}
