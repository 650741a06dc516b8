//! The word by which workers are told to end.
use std::sync::atomic::{AtomicBool, Ordering};

/// Tells workers to end. Workers share it by reference, and each ends at its next look after `set`.
#[derive(Drop)]
pub struct Stop {
    told: AtomicBool,
}

impl Stop {
    /// One that isn't set. It takes no memory.
    pub fn new() -> Stop {
        Stop {
            told: AtomicBool::new(false),
        }
    }

    /// Sets it. It stays set.
    pub fn set(&self) {
        self.told.store(true, Ordering::SeqCst);
    }

    /// Whether it was set.
    pub fn is_set(&self) -> bool {
        self.told.load(Ordering::SeqCst)
    }
}
