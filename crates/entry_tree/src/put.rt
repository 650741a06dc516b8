//! Putting into a map of paths.
ghost use Rattle.std.specs.Prelude.{◌≡◌, IsSome, OnOk, OnErr, IfErr, None, Some};
ghost use Rattle.std.specs.BTreeMap.{Updates, get};
ghost use Rattle.sync_path.specs.Path.{path_cmp};

use std::alloc::{AllocError, Global};
use std::collections::BTreeMap;
use sync_path::Path;

/// Puts the value in place of what the map holds at the path; where it holds nothing, gives the value back.
/// It takes no memory. Cost: O(log n) comparisons of paths.
pub(crate) fn replace<T: Drop>(map: &mut BTreeMap<Path, T>, path: &Path, value: T) -> Result<(), T>
    ensures replaced { OnOk result (Updates path_cmp map.old map.new path.now (Some value)) }
    ensures held { OnOk result (IsSome (get path_cmp map.old path.now)) }
    ensures absent { OnErr result (get path_cmp map.old path.now ≡ None) }
    ensures back { IfErr result (λ v. v ≡ value) }
    ensures same { OnErr result (map.new.entries ≡ map.old.entries) }
{
    match map.get_mut(path) {
        Some(held) => {
            *held = value;
            Ok(())
        }
        None => Err(value),
    }
}

/// Puts the value at the path. It takes memory for a new path, and where there is none the map stays as it was.
/// Cost: O(log n) comparisons of paths.
pub(crate) fn put<T: Drop>(
    map: &mut BTreeMap<Path, T>,
    alloc: Global,
    path: &Path,
    value: T,
) -> Result<(), AllocError>
    ensures ok { OnOk result (Updates path_cmp map.old map.new path.now (Some value)) }
    ensures err { OnErr result (map.new.entries ≡ map.old.entries) }
{
    let key = path.copy(alloc)?;
    match map.insert(key, value) {
        Ok(_) => Ok(()),
        Err(_) => Err(AllocError),
    }
}
