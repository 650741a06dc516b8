//! The names that a user gives.
ghost use Rattle.std.specs.Prelude.{◌≡◌, ◌==◌, IfOk, IsTrue, true};
ghost use Rattle.std.specs.List.{list_all};
ghost use Rattle.command_words.specs.Ascii.{is_label_byte};
ghost use Rattle.command_words.specs.GivenName.{begins_with_letter, has_kept_prefix, is_given_name, IsGivenName};
ghost use Rattle.command_words.specs.Kept.{kept};

use crate::ascii::{as_text, has_name_bytes, is_letter};
use std::alloc::{AllocError, Global};
use std::marker::Model;

/// The greatest length of a name, in bytes.
pub const MAX_GIVEN_NAME_LEN: usize = 64;

/// A name that a user gives to a session or a client: a letter, then letters, digits, `-` and `_`, at most 64 in all, which don't
/// begin with `sync_` or `fwrd_`. Letters are ASCII. Contracts see its bytes.
#[derive(Debug, Drop)]
pub struct GivenName {
    text: String,
}

impl Model for GivenName {
    ghost use Rattle.std.specs.Prelude.{ℕ, List, string_bytes};
    ghost use Rattle.command_words.specs.GivenName.{IsGivenName};

    ghost Value = { List ℕ };

    ghost view = { λ n. string_bytes n.text };

    ghost invariant = { λ n. IsGivenName (string_bytes n.text) };
}

impl GivenName {
    /// The name that this word is, if it is one. Cost: its length.
    pub fn read(alloc: Global, word: &[u8]) -> Result<Option<GivenName>, AllocError>
        ensures { IfOk result (λ found. found ≡ kept is_given_name word.now) }
    {
        if !is_given_name(word) {
            return Ok(None);
        }
        Ok(Some(GivenName {
            text: String::from_str(alloc, as_text(word))?,
        }))
    }

    /// The name as text. It takes no memory.
    pub fn as_str(&self) -> &str
        ensures value { result.now ≡ self.now }
        ensures name { IsGivenName self.now }
    {
        self.text.as_str()
    }

    /// An equal name. Cost: its length.
    pub fn copy(&self, alloc: Global) -> Result<GivenName, AllocError>
        ensures { IfOk result (λ name. name ≡ self.now) }
    {
        Ok(GivenName {
            text: String::from_str(alloc, self.as_str())?,
        })
    }
}

// Whether the word is a name.
fn is_given_name(word: &[u8]) -> bool
    ensures value { result ≡ is_given_name word.now }
    ensures bytes { IsTrue result → list_all is_label_byte word.now ≡ true }
{
    begins_with_letter(word)
        && has_name_bytes(word)
        && word.len() <= MAX_GIVEN_NAME_LEN
        && !has_kept_prefix(word)
}

// Whether the first byte is a letter.
fn begins_with_letter(word: &[u8]) -> bool
    ensures { result ≡ begins_with_letter word.now }
{
    match word {
        [] => false,
        [first, ..] => is_letter(*first),
    }
}

// Whether the word begins as an identifier does.
fn has_kept_prefix(word: &[u8]) -> bool
    ensures { result ≡ has_kept_prefix word.now }
{
    word.starts_with(b"sync_".as_slice()) || word.starts_with(b"fwrd_".as_slice())
}

impl PartialEq for GivenName {
    ghost use Rattle.std.specs.Cmp.{partial_equiv_from_equiv};
    ghost use Rattle.std.specs.Cmp.Lexicographic.{nat_list_eq_equiv};
    ghost use lib.Pointwise.{pointwise};

    ghost eq = { pointwise ◌==◌ };

    ghost laws = { partial_equiv_from_equiv nat_list_eq_equiv };

    fn eq(&self, other: &GivenName) -> bool {
        self.as_str() == other.as_str()
    }
}

impl Eq for GivenName {
    ghost use Rattle.std.specs.Cmp.Lexicographic.{nat_list_eq_equiv};

    ghost laws = { nat_list_eq_equiv };
}
