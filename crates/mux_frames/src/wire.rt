//! The numbers of the format.
//!
//! | Kind | Frame | behind the kind and the stream |
//! |---|---|---|
//! | 1 | Open | nothing |
//! | 2 | Accept | nothing |
//! | 3 | Data | a length, two bytes high first, from 1 to 16,384, and that many bytes |
//! | 4 | Window | an amount, four bytes high first, from 1 to 65,536 |
//! | 5 | CloseWrite | nothing |
//! | 6 | Close | nothing |
//! | 7 | Heartbeat | nothing, and the stream is 0 |
//!
//! The stream of all others is at least 1.

pub const KIND_OPEN: u8 = 1;

pub const KIND_ACCEPT: u8 = 2;

pub const KIND_DATA: u8 = 3;

pub const KIND_WINDOW: u8 = 4;

pub const KIND_CLOSE_WRITE: u8 = 5;

pub const KIND_CLOSE: u8 = 6;

pub const KIND_HEARTBEAT: u8 = 7;

/// How many bytes a Data frame carries at most.
pub const MAX_PAYLOAD: usize = 16_384;

/// How much one Window frame raises a credit at most.
pub const MAX_AMOUNT: u32 = 65_536;

/// The size of the longest frame: seven bytes before the payload, and the longest payload.
pub const MAX_FRAME: usize = 16_391;
