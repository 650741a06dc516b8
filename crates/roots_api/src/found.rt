//! What was found at a path, and what is expected there.
ghost use Rattle.std.specs.Prelude.{◌≡◌, IfOk, OnErr, Option, None, Some, IsTrue};
ghost use Rattle.std.specs.Option.{option_copied};
ghost use Rattle.roots_api.specs.States.{is_expected, has_stamp, same_entry};

use entry_tree::{Entry, Node, Stamp};
use std::alloc::{AllocError, Global};

/// What was found, once more. Cost: the length of a link's text.
pub fn copy_found(alloc: Global, found: Option<&Entry>) -> Result<Option<Entry>, AllocError>
    ensures { IfOk result (λ copy. copy ≡ option_copied found.entry) }
{
    match found {
        None => Ok(None),
        Some(entry) => match entry.copy(alloc) {
            Ok(entry) => Ok(Some(entry)),
            Err(error) => Err(error),
        },
    }
}

/// Whether what was found is what is expected, a file's stamp and executable bit included. It takes no memory.
pub fn is_expected(found: Option<&Entry>, expected: Option<&Entry>) -> bool
    ensures { result ≡ is_expected (option_copied found.entry) (option_copied expected.entry) }
{
    match found {
        None => expected.is_none(),
        Some(found) => match expected {
            None => false,
            Some(expected) => is_same(found, expected),
        },
    }
}

// Whether two entries are the same.
fn is_same(found: &Entry, expected: &Entry) -> bool
    ensures { result ≡ same_entry found.now expected.now }
{
    found == expected
}

/// Whether a file with this stamp was found, whatever its executable bit. It takes no memory.
pub fn has_stamp(found: Option<&Entry>, stamp: Stamp) -> bool
    ensures { result ≡ has_stamp (option_copied found.entry) stamp }
{
    match found {
        Some(Entry::File(found, _)) => *found == stamp,
        _ => false,
    }
}
