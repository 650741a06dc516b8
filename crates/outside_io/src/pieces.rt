//! Bytes in pieces, read from the front.
ghost use Rattle.std.specs.Prelude.{◌≡◌, ℕ, ◌++◌, ◌≤◌, length, map, min, take, drop};
ghost use Rattle.outside_io.specs.MemInput.{HasNoEmpty, after_taking, first_piece};

use std::marker::Model;

/// Pieces of bytes, none of them empty, of which the front was read.
#[derive(Drop)]
pub struct Pieces {
    pieces: Vec<Vec<u8>>,
    // how many pieces were read whole
    read: usize,
    // how many bytes were read of the next one
    place: usize,
}

impl Model for Pieces {
    ghost use Rattle.std.specs.Prelude.{ℕ, List, map, drop};
    ghost use Rattle.outside_io.specs.MemInput.{HasNoEmpty, without_front};

    ghost Value = { List (List ℕ) };

    ghost view = { λ p. without_front p.place (drop p.read (map (λ piece. piece.items) p.pieces.items)) };

    ghost invariant = { λ p. HasNoEmpty (without_front p.place (drop p.read (map (λ piece. piece.items) p.pieces.items))) };
}

impl Pieces {
    /// These pieces, of which nothing was read.
    pub fn new(pieces: Vec<Vec<u8>>) -> Pieces
        requires { HasNoEmpty (map (λ piece. piece.items) pieces.items) }
        ensures { result ≡ map (λ piece. piece.items) pieces.items }
    {
        Pieces {
            pieces,
            read: 0,
            place: 0,
        }
    }

    /// Moves of the first piece what fits to the front of `into`, and answers how much that is.
    pub fn take(&mut self, into: &mut [u8]) -> usize
        ensures count { result ≡ min (length (first_piece self.old)) (length into.old) }
        ensures copied { into.new ≡ take result (first_piece self.old) ++ drop result into.old }
        ensures left { self.new ≡ after_taking result self.old }
        ensures whole { HasNoEmpty self.old × HasNoEmpty self.new }
    {
        let count = copy_front(self.first(), into);
        self.pass(count);
        count
    }

    // What is left of the first piece.
    fn first(&self) -> &[u8]
        ensures first { result.now ≡ first_piece self.now }
        ensures whole { HasNoEmpty self.now }
    {
        if self.read >= self.pieces.len() {
            return &[];
        }
        let (_, rest) = self.pieces[self.read].split_at(self.place);
        rest
    }

    // Drops bytes at the front of the first piece.
    fn pass(&mut self, count: usize)
        requires { count ≤ length (first_piece self.old) }
        ensures left { self.new ≡ after_taking count self.old }
        ensures whole { HasNoEmpty self.new }
    {
        if self.read >= self.pieces.len() {
            return;
        }
        let len = self.pieces[self.read].len();
        let end = self.place + count;
        if end == len {
            self.read += 1;
            self.place = 0;
        } else {
            self.place = end;
        }
    }
}

// Copies what fits, and answers how much that is.
fn copy_front(from: &[u8], into: &mut [u8]) -> usize
    ensures count { result ≡ min (length from.now) (length into.old) }
    ensures copied { into.new ≡ take result from.now ++ drop result into.old }
{
    let count = from.len().min(into.len());
    into[..count].copy_from_slice(&from[..count]);
    count
}
