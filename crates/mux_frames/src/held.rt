//! The bytes that a reader holds back.
ghost use Rattle.std.specs.Prelude.{◌≡◌, ◌≤◌, ◌++◌, length, drop, OnOk, OnErr};
ghost use Rattle.mux_frames.specs.Held.{held_bytes};

use crate::rest::Rest;
use std::alloc::{AllocError, Global};

/// The bytes, of which there may be none.
pub(crate) fn slice_of(held: &Option<Vec<u8>>) -> &[u8]
    ensures { result.now ≡ held_bytes held.now }
{
    match held {
        Some(bytes) => bytes.as_slice(),
        None => &[],
    }
}

/// Adds the piece, and takes away the first `used` bytes.
pub(crate) fn keep(
    alloc: Global,
    held: &mut Option<Vec<u8>>,
    piece: &[u8],
    used: usize,
) -> Result<(), AllocError>
    requires { used ≤ length (held_bytes held.old ++ piece.now) }
    ensures ok { OnOk result (held_bytes held.new ≡ drop used (held_bytes held.old ++ piece.now)) }
    ensures err { OnErr result (held_bytes held.new ≡ held_bytes held.old) }
{
    if used == 0 {
        return append(alloc, held, piece);
    }
    let rest = Rest {
        front: slice_of(held),
        back: piece,
    };
    let bytes = rest.skip(used).to_vec(alloc)?;
    *held = Some(bytes);
    Ok(())
}

/// Adds the piece.
pub(crate) fn append(
    alloc: Global,
    held: &mut Option<Vec<u8>>,
    piece: &[u8],
) -> Result<(), AllocError>
    ensures ok { OnOk result (held_bytes held.new ≡ held_bytes held.old ++ piece.now) }
    ensures err { OnErr result (held_bytes held.new ≡ held_bytes held.old) }
{
    match held {
        Some(bytes) => bytes.extend_from_slice(piece),
        None => {
            *held = Some(Vec::from_slice(alloc, piece)?);
            Ok(())
        }
    }
}
