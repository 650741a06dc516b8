//! What a crash makes of a disk in memory.
ghost use Rattle.std.specs.Prelude.{◌≡◌, ℕ, ◌+◌, ◌≤◌, length, min, OnOk};
ghost use Rattle.disk_model.specs.Content.{TornWrite, TornCut};
ghost use Rattle.disk_model.specs.Replay.{TearsEvent};

use crate::event::{Event, cut_to, overwrite};
use std::alloc::{AllocError, Global};

/// How a crash tears the changes that no sync has made sure of.
#[derive(Clone, Copy, Debug, PartialEq, Eq)]
pub enum Tear {
    /// Nothing of a change is on the disk.
    Nothing,
    /// All that was made of it is.
    Whole,
    /// The first half of a write is, and half of what a cut took away is back.
    Half,
    /// Each byte of a write's range has this value.
    Filled(u8),
}

/// An event happens to the bytes that reads give, and, torn, to an image that a crash may leave.
pub fn tear_event(
    alloc: Global,
    bytes: &mut Vec<u8>,
    image: &mut Vec<u8>,
    event: &Event,
    tear: Tear,
) -> Result<(), AllocError>
    ensures { OnOk result (TearsEvent event.now bytes.old.items image.old.items bytes.new.items image.new.items) }
{
    match event {
        Event::Wrote(place, count, made) => {
            let (place, count) = (*place, *count);
            let made = &made[..made.len().min(count as usize)];
            let length = bytes.len() as u64;
            overwrite(bytes, place, made)?;
            if place <= image.len() as u64 {
                tear_write(alloc, image, place, count, made, tear)?;
            }
            Ok(())
        }
        Event::CutTo(length) => {
            cut_to(bytes, *length);
            tear_cut(image, *length, tear);
            Ok(())
        }
        Event::Synced => {
            *image = Vec::from_slice(alloc, bytes)?;
            Ok(())
        }
    }
}

// Makes a write to an image in part.
fn tear_write(
    alloc: Global,
    image: &mut Vec<u8>,
    place: u64,
    count: u64,
    made: &[u8],
    tear: Tear,
) -> Result<(), AllocError>
    requires place { place ≤ length image.old.items }
    requires within { length made.now ≤ count }
    ensures { OnOk result (TornWrite place (place + count) image.old.items image.new.items) }
{
    match tear {
        Tear::Nothing => Ok(()),
        Tear::Whole => overwrite(image, place, made),
        Tear::Half => overwrite(image, place, &made[..made.len().div_ceil(2)]),
        Tear::Filled(byte) => {
            let filled = vec![in alloc; byte; count as usize]?;
            overwrite(image, place, &filled)
        }
    }
}

// Makes a cut to an image in part.
fn tear_cut(image: &mut Vec<u8>, length: u64, tear: Tear)
    ensures { TornCut length image.old.items image.new.items }
{
    let end = image.len() as u64;
    if length < end {
        match tear {
            Tear::Nothing | Tear::Filled(_) => {}
            Tear::Whole => cut_to(image, length),
            Tear::Half => cut_to(image, length + (end - length) / 2),
        }
    }
}
