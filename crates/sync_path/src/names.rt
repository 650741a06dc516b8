//! The names of a path, one after another.
ghost use Rattle.std.specs.Prelude.{◌≡◌, [], MatchOption};
ghost use Rattle.std.specs.Iterator.{YieldsFirstRef, item_count};
ghost use Rattle.sync_path.specs.Buffer.{buffer_of, names_in, SplitsFirst};

use std::marker::Model;

/// The names of a path that are left to come, in order. Contracts see them as a list of names.
///
/// A step takes no memory, and costs the length of the name.
#[derive(Drop)]
pub struct Names<'a> {
    rest: &'a str,
}

impl<'a> Model for Names<'a> {
    ghost use Rattle.std.specs.Prelude.{◌≡◌, ℕ, List};
    ghost use Rattle.sync_path.specs.Buffer.{buffer_of, names_in};

    ghost Value = { List (List ℕ) };

    ghost view = { λ names. names_in names.rest.now };

    ghost invariant = { λ names. buffer_of (names_in names.rest.now) ≡ names.rest.now };
}

impl<'a> Names<'a> {
    // The names in a buffer.
    pub(crate) fn over(buffer: &'a str) -> Names<'a>
        requires { buffer_of (names_in buffer.now) ≡ buffer.now }
        ensures { result ≡ names_in buffer.now }
    {
        Names { rest: buffer }
    }

    /// Another walk over the names that are left, which goes on by itself. It takes no memory.
    pub fn copy(&self) -> Names<'a>
        ensures { result ≡ self.now }
    {
        Names { rest: self.rest }
    }
}

impl<'a> Iterator for Names<'a> {
    type Item = &'a str;

    ghost next_gives = { YieldsFirstRef (λ names. names) };

    ghost remaining = { item_count (λ names. names) };

    fn next(&mut self) -> Option<&'a str> {
        match first_name(self.rest) {
            Some((name, rest)) => {
                self.rest = rest;
                Some(name)
            }
            None => None,
        }
    }
}

// The first name of a buffer, and the buffer of the others.
fn first_name(buffer: &str) -> Option<(&str, &str)>
    requires { buffer_of (names_in buffer.now) ≡ buffer.now }
    ensures { MatchOption result (names_in buffer.now ≡ []) (λ parts. SplitsFirst buffer.now parts.0.now parts.1.now) }
{
    buffer.split_once('\0')
}
