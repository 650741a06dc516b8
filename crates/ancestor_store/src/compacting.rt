//! How kept frames become fewer.
ghost use Rattle.std.specs.Prelude.{◌≡◌, IfOk};
ghost use Rattle.entry_tree.specs.Tree.{ByPath};
ghost use Rattle.frame_text.specs.Payloads.{payload_bytes};
ghost use Rattle.ancestor_store.specs.Compacting.{Compacts, lines_of, run_of, whole_of};
ghost use Rattle.ancestor_store.specs.Keeping.{bytes_of};

use crate::ancestor::OpenError;
use crate::fold::Fold;
use crate::opening::folded;
use entry_tree::Tree;
use frame_text::{Payload, text_of};
use mode_rules::AncestorLine;
use sqlite_items::Items;
use std::alloc::{AllocError, Global};

/// The payload of the table that says that a run was opened.
pub const OPENED: &[u8] = b"v1 opened";

/// The run that a compaction names: the number of the table's frames that say that a run was opened. Cost: their number.
pub fn run_of(frames: &[Vec<u8>]) -> u32
    ensures { result ≡ run_of (bytes_of frames.now) }
{
    let mut opened: u32 = 0;
    let mut rest = frames;
    while let Some((frame, behind)) = rest.split_first() {
        if frame.as_slice() == OPENED {
            opened = opened.saturating_add(1);
        }
        rest = behind;
    }
    opened
}

// A line for each path of the tree.
fn lines_of(alloc: Global, tree: &Tree) -> Result<Items<AncestorLine>, AllocError>
    ensures { IfOk result (λ lines. lines ≡ lines_of tree.now) }
{
    let mut lines = Items::new(alloc);
    for (path, atom) in tree.iter() {
        let atom = atom.copy(alloc)?;
        lines.push(AncestorLine::Set(path.copy(alloc)?, atom))?;
    }
    Ok(lines)
}

// The payload that stands for all before.
fn whole(alloc: Global, run: u32, fold: &Fold) -> Result<Vec<u8>, AllocError>
    ensures { IfOk result (λ bytes. bytes.items ≡ payload_bytes (whole_of run fold.now)) }
{
    let payload = Payload::Whole {
        run,
        cycle: u64::MAX,
        served: fold.served(),
        lines: lines_of(alloc, fold.tree())?,
    };
    Ok(text_of(alloc, &payload)?.into_bytes())
}

/// What compaction makes of a session's frames. Cost: their bytes once, and O(n log n) comparisons of paths.
pub(crate) fn compacted(
    alloc: Global,
    run: u32,
    frames: Vec<Vec<u8>>,
) -> Result<Vec<Vec<u8>>, AllocError>
    ensures { IfOk result (λ new. Compacts run (bytes_of frames.items) (bytes_of new.items)) }
{
    if frames.is_empty() {
        return Ok(frames);
    }
    match folded(alloc, frames.as_slice()) {
        Ok(fold) => {
            let mut new = Vec::new(alloc);
            new.push(whole(alloc, run, &fold)?)?;
            Ok(new)
        }
        Err(OpenError::BadFrame { .. }) => Ok(frames),
        Err(OpenError::Memory) => Err(AllocError),
    }
}
