//! What happened to a disk in memory.
ghost use Rattle.std.specs.Prelude.{◌≡◌, ◌+◌, ◌-◌, ◌^◌, ◌<◌, ◌≤◌, ◌++◌, length, take, drop, replicate, OnOk, OnErr};
ghost use Rattle.disk_model.specs.Content.{written_over};

use crate::disk::MOST_BYTES;
use std::alloc::AllocError;

/// A change that was made, a write maybe in part, or a sync.
#[derive(Debug, Drop)]
pub enum Event {
    /// A write of so many bytes at a place, of which these were written.
    Wrote(u64, u64, Vec<u8>),
    /// A cut to a length.
    CutTo(u64),
    Synced,
}

/// Writes `made` over what is there from `place` on, and past the end. Zeros fill a gap. There is no
/// memory for what would reach past `MOST_BYTES`.
pub fn overwrite(bytes: &mut Vec<u8>, place: u64, made: &[u8]) -> Result<(), AllocError>
    ensures ok { OnOk result (bytes.new.items ≡ written_over bytes.old.items place made.now) }
    ensures err { OnErr result (bytes.new.items ≡ bytes.old.items) }
{
    if made.is_empty() {
        return Ok(());
    }
    let count = made.len() as u64;
    if place > MOST_BYTES || count > MOST_BYTES - place {
        return Err(AllocError);
    }
    let place = place as usize;
    grow(bytes, place + made.len())?;
    put(bytes, place, made);
    Ok(())
}

// Zeros behind the end, up to a length.
fn grow(bytes: &mut Vec<u8>, end: usize) -> Result<(), AllocError>
    ensures ok { OnOk result (bytes.new.items ≡ bytes.old.items ++ replicate (end - length bytes.old.items) 0) }
    ensures err { OnErr result (bytes.new.items ≡ bytes.old.items) }
{
    if end > bytes.len() {
        bytes.resize(end, 0)?;
    }
    Ok(())
}

// Writes `made` into the middle.
fn put(bytes: &mut [u8], place: usize, made: &[u8])
    requires { place + length made.now ≤ length bytes.old }
    ensures { bytes.new ≡ take place bytes.old ++ made.now ++ drop (place + length made.now) bytes.old }
{
    bytes[place..place + made.len()].copy_from_slice(made);
}

/// Takes away all behind the first `length` bytes.
pub fn cut_to(bytes: &mut Vec<u8>, length: u64)
    ensures { bytes.new.items ≡ take length bytes.old.items }
{
    if length < bytes.len() as u64 {
        bytes.truncate(length as usize);
    }
}
