//! The bytes that are still to be read: those that were held back, and then those of the piece.
use std::alloc::{AllocError, Global};

/// Bytes in two parts, one behind the other. Nothing here but `to_vec` copies them.
#[derive(Clone, Copy)]
pub(crate) struct Rest<'a> {
    pub(crate) front: &'a [u8],
    pub(crate) back: &'a [u8],
}

impl<'a> Rest<'a> {
    ghost use Rattle.std.specs.Prelude.{◌≡◌, ◌≤◌, ◌<◌, ◌^◌, length, take, drop, slice_index, IfOk};
    ghost use Rattle.mux_frames.specs.Bytes.{bytes_of};

    pub(crate) fn len(&self) -> usize
        ensures count { result ≡ length (bytes_of self.now) }
        ensures bound { result < 2 ^ 64 }
    {
        self.front.len() + self.back.len()
    }

    pub(crate) fn byte(&self, index: usize) -> u8
        requires { index < length (bytes_of self.now) }
        ensures { result ≡ slice_index (bytes_of self.now) index }
    {
        if index < self.front.len() {
            self.front[index]
        } else {
            self.back[index - self.front.len()]
        }
    }

    /// All but the first `count` bytes.
    pub(crate) fn skip(&self, count: usize) -> Rest<'a>
        requires { count ≤ length (bytes_of self.now) }
        ensures { bytes_of result ≡ drop count (bytes_of self.now) }
    {
        let (front, back) = (self.front, self.back);
        if count < front.len() {
            Rest {
                front: &front[count..],
                back,
            }
        } else {
            Rest {
                front: &[],
                back: &back[count - front.len()..],
            }
        }
    }

    /// The first `count` bytes.
    pub(crate) fn first(&self, count: usize) -> Rest<'a>
        requires { count ≤ length (bytes_of self.now) }
        ensures { bytes_of result ≡ take count (bytes_of self.now) }
    {
        let (front, back) = (self.front, self.back);
        if count < front.len() {
            Rest {
                front: &front[..count],
                back: &[],
            }
        } else {
            Rest {
                front,
                back: &back[..count - front.len()],
            }
        }
    }

    /// A copy of the bytes.
    pub(crate) fn to_vec(&self, alloc: Global) -> Result<Vec<u8>, AllocError>
        ensures { IfOk result (λ v. v.items ≡ bytes_of self.now) }
    {
        let mut bytes = Vec::with_capacity(alloc, self.len())?;
        bytes.extend_from_slice(self.front)?;
        bytes.extend_from_slice(self.back)?;
        Ok(bytes)
    }
}
