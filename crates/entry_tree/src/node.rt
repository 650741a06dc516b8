//! What a tree can hold at a path.
ghost use Rattle.std.specs.Prelude.{◌≡◌, Bool, IsTrue, IfOk, OnErr};

use std::alloc::{AllocError, Global};

/// What a tree can hold at a path: it tells whether it is a folder, below which alone others can stand.
pub trait Node: Drop {
    ghost is_folder: { Self → Bool };

    ghost takes_memory: { Self → Bool };

    /// Whether this is a folder. It takes no memory.
    fn is_dir(&self) -> bool
        ensures { result ≡ is_folder self.now };

    /// An equal node. It takes memory only where `takes_memory` holds: of atoms and entries, only for a link.
    fn copy(&self, alloc: Global) -> Result<Self, AllocError>
        ensures value { IfOk result (λ node. node ≡ self.now) }
        ensures memory { OnErr result (IsTrue (takes_memory self.now)) };
}
