//! A keeper that is lent keeps as the keeper itself.

use crate::keeper::{Archive, KeepError, Keeper};
use frame_text::{Frame, KeepKey};
use std::alloc::{AllocError, Global};

impl<K: Keeper> Keeper for &mut K {
    ghost told = { λ k key. K.told k.now key };

    ghost faults = { λ k. K.faults k.now };

    fn append(&mut self, alloc: Global, key: KeepKey, frame: &Frame) -> Result<(), KeepError> {
        (**self).append(alloc, key, frame)
    }
}

impl<A: Archive> Archive for &mut A {
    fn frames(&self, alloc: Global, key: KeepKey) -> Result<Vec<Vec<u8>>, AllocError> {
        (**self).frames(alloc, key)
    }

    ghost compacts = { λ a. A.compacts a.now };

    fn kept(&self) -> u64 {
        (**self).kept()
    }

    fn compact(&mut self, alloc: Global) -> Result<(), KeepError> {
        (**self).compact(alloc)
    }
}
