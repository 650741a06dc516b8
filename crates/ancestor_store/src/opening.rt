//! How kept frames are folded.
ghost use Rattle.std.specs.Prelude.{◌≡◌, ◌∷◌, ℕ, IfOk, OnOk, Err};
ghost use Rattle.frame_text.specs.Folds.{FoldsTo, IsBadFrame};
ghost use Rattle.frame_text.specs.declared.payload.PayloadError.TheVariants.{Bad};
ghost use Rattle.ancestor_store.specs.Keeping.{bytes_of};
ghost use Rattle.ancestor_store.specs.Opening.{IsFirst, IsNext, NoFirst, NoNext};
ghost use Rattle.ancestor_store.specs.declared.ancestor.OpenError.TheVariants.{BadFrame};

use crate::ancestor::OpenError;
use crate::fold::Fold;
use frame_text::{PayloadError, read_payload};
use std::alloc::Global;

// The ancestor of a session whose first frame has these bytes.
fn first_frame(alloc: Global, bytes: &[u8]) -> Result<Fold, PayloadError>
    ensures value { IfOk result (IsFirst bytes.now) }
    ensures bad { result ≡ Err Bad → NoFirst bytes.now }
{
    match read_payload(alloc, bytes) {
        Ok(payload) => Fold::first(alloc, payload),
        Err(error) => Err(error),
    }
}

// Takes up a frame behind others.
fn next_frame(alloc: Global, ancestor: &mut Fold, bytes: &[u8]) -> Result<(), PayloadError>
    ensures value { OnOk result (IsNext ancestor.old bytes.now ancestor.new) }
    ensures bad { result ≡ Err Bad → NoNext ancestor.old bytes.now }
{
    match read_payload(alloc, bytes) {
        Ok(payload) => ancestor.take(alloc, payload),
        Err(error) => Err(error),
    }
}

/// The ancestor of a session with these frames. Cost: as that of `Ancestor::open_from`.
pub(crate) fn folded(alloc: Global, frames: &[Vec<u8>]) -> Result<Fold, OpenError>
    ensures value { IfOk result (FoldsTo (bytes_of frames.now)) }
    ensures bad { (number : ℕ) → result ≡ Err (BadFrame number) → IsBadFrame (bytes_of frames.now) number }
{
    match frames.split_first() {
        None => Ok(Fold::new(alloc)),
        Some((first, behind)) => match first_frame(alloc, first.as_slice()) {
            Ok(ancestor) => folded_behind(alloc, ancestor, first.as_slice(), behind),
            Err(PayloadError::Bad) => Err(OpenError::BadFrame { number: 0 }),
            Err(PayloadError::Memory) => Err(OpenError::Memory),
        },
    }
}

// The same, where the ancestor has taken up the first frame.
fn folded_behind(
    alloc: Global,
    ancestor: Fold,
    first: &[u8],
    behind: &[Vec<u8>],
) -> Result<Fold, OpenError>
    requires { IsFirst first.now ancestor }
    ensures value { IfOk result (FoldsTo (first.now ∷ bytes_of behind.now)) }
    ensures bad { (number : ℕ) → result ≡ Err (BadFrame number) → IsBadFrame (first.now ∷ bytes_of behind.now) number }
{
    let mut ancestor = ancestor;
    let mut number = 1;
    let mut rest = behind;
    while let Some((frame, more)) = rest.split_first() {
        match next_frame(alloc, &mut ancestor, frame.as_slice()) {
            Ok(()) => {}
            Err(PayloadError::Bad) => return Err(OpenError::BadFrame { number }),
            Err(PayloadError::Memory) => return Err(OpenError::Memory),
        }
        number += 1;
        rest = more;
    }
    Ok(ancestor)
}
