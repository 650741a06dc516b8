//! Pieces of contents.
ghost use Rattle.std.specs.Prelude.{◌≡◌, take, drop, IfOk};
ghost use Rattle.roots_api.specs.Steps.{piece_of};

use roots_api::{Answer, Content, MAX_FETCH, MAX_PIECE};
use std::alloc::{AllocError, Global};

/// A piece of a content, from a byte of it on, or that it is too large. Cost: the bytes of the piece.
pub(crate) fn piece_of(alloc: Global, content: &[u8], offset: u64) -> Result<Answer, AllocError>
    ensures { IfOk result (λ answer. answer ≡ piece_of content.now offset) }
{
    let len = content.len() as u64;
    if MAX_FETCH < len {
        return Ok(Answer::TooLarge(len));
    }
    let bytes = Content::of(alloc, front(behind(content, offset)))?;
    let last = len <= offset.saturating_add(MAX_PIECE as u64);
    Ok(Answer::Piece { bytes, last })
}

// What stands behind the first bytes.
fn behind(content: &[u8], offset: u64) -> &[u8]
    ensures { result.now ≡ drop offset content.now }
{
    match usize::try_from(offset) {
        Ok(offset) if offset <= content.len() => &content[offset..],
        _ => &[],
    }
}

// The first bytes, as many as a piece has at most.
fn front(content: &[u8]) -> &[u8]
    ensures { result.now ≡ take MAX_PIECE content.now }
{
    if content.len() <= MAX_PIECE {
        content
    } else {
        &content[..MAX_PIECE]
    }
}
