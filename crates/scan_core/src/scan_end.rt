//! Why a scan ends before it is whole.

ghost use Rattle.std.specs.Prelude.{◌≡◌};

use roots_api::Room;
use std::alloc::AllocError;

/// Why a scan ends before it is whole.
#[derive(Clone, Copy, Debug, PartialEq, Eq)]
pub enum ScanEnd {
    /// The side has more rows than the session's limit.
    TooMany,
    /// A folder's listing failed.
    Fault,
    /// The root has no room in its log.
    RootFull(Room),
    /// There was no memory.
    Memory,
}

impl From<AllocError> for ScanEnd {
    ghost use Rattle.scan_core.specs.declared.scan_end.ScanEnd.TheVariants.{Memory};

    ghost from_gives = { λ _ e. e ≡ Memory };

    fn from(_error: AllocError) -> ScanEnd {
        ScanEnd::Memory
    }
}
