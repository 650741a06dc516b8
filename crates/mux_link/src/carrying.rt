//! Bytes that go from one side to the other.
ghost use Rattle.std.specs.Prelude.{◌≡◌, ◌<◌, ◌≤◌, false, length, IfOk, OnErr};
ghost use Rattle.mux_link.specs.Posts.{seen};
ghost use Rattle.mux_link.specs.Moves.{AreJoined, Went, Carried, Moves};

use crate::post::Post;
use crate::reply::LinkReply;
use mux_frames::{FeedError, Next};
use std::alloc::{AllocError, Global};

/// Moves up to `most` of the bytes that wait at one side to the other, unless the link was cut.
pub(crate) fn move_over(alloc: Global, from: &mut Post, to: &mut Post, most: u64) -> LinkReply
    requires { AreJoined (seen from.old) (seen to.old) }
    ensures { Moves (seen from.old) (seen to.old) most result (seen from.new) (seen to.new) }
{
    if from.end.is_cut() || to.end.is_cut() {
        return LinkReply::Moved(0);
    }
    match carry(alloc, from, to, most) {
        Ok(count) => LinkReply::Moved(count),
        Err(_) => LinkReply::NoMemory,
    }
}

/// Moves them part by part, so that where memory runs out each part went over whole or not at all.
fn carry(alloc: Global, from: &mut Post, to: &mut Post, most: u64) -> Result<u64, AllocError>
    requires joined { AreJoined (seen from.old) (seen to.old) }
    requires linked { from.old.end.is_cut ≡ false }
    requires linked_there { to.old.end.is_cut ≡ false }
    ensures { Carried (seen from.old) (seen to.old) most result (seen from.new) (seen to.new) }
{
    let count = most.min(from.end.waiting());
    let mut left = count;
    while left > 0 {
        left -= carry_part(alloc, from, to, left)?;
    }
    Ok(count)
}

/// Moves some of the next `left` bytes, those of one frame at most, and answers how many. A whole frame
/// is taken before its last bytes leave the side where they wait.
fn carry_part(alloc: Global, from: &mut Post, to: &mut Post, left: u64) -> Result<u64, AllocError>
    requires joined { AreJoined (seen from.old) (seen to.old) }
    requires linked { from.old.end.is_cut ≡ false }
    requires linked_there { to.old.end.is_cut ≡ false }
    requires some { 0 < left }
    requires within { left ≤ length from.old.end.waiting }
    ensures ok { IfOk result (λ count. (0 < count) × (count ≤ left)
        × Went (seen from.old) (seen to.old) count (seen from.new) (seen to.new)) }
    ensures err { OnErr result ((from.new ≡ from.old) × (to.new ≡ to.old)) }
{
    let piece = from.end.next_piece(left);
    match to.reader.next_frame(alloc, piece) {
        Ok(Next::Frame(frame, used)) => {
            to.end.take_frame(frame)?;
            to.reader.pass(used);
            from.end.advance(used);
            Ok(used as u64)
        }
        Ok(Next::Partial) => {
            let count = piece.len();
            to.reader.hold(alloc, piece)?;
            from.end.advance(count);
            Ok(count as u64)
        }
        Err(FeedError::Memory) => Err(AllocError),
        Err(FeedError::BadFrame { .. }) => unreachable!(),
    }
}
