//! Why a part of a pattern was not read.
ghost use Rattle.std.specs.Prelude.{◌≡◌};

use std::alloc::{AllocError, AllocFailed};

/// Why a part of a text was not read.
#[derive(Clone, Copy)]
pub(crate) enum Fault {
    /// It goes wrong so many bytes in.
    At(usize),
    /// There was no memory.
    Memory,
}

impl From<AllocError> for Fault {
    ghost use Rattle.ignore_glob.specs.declared.fault.Fault.TheVariants.{Memory};

    ghost from_gives = { λ _ e. e ≡ Memory };

    fn from(_error: AllocError) -> Fault {
        Fault::Memory
    }
}

impl<T: Drop> From<AllocFailed<T>> for Fault {
    ghost use Rattle.ignore_glob.specs.declared.fault.Fault.TheVariants.{Memory};

    ghost from_gives = { λ _ e. e ≡ Memory };

    fn from(_error: AllocFailed<T>) -> Fault {
        Fault::Memory
    }
}
