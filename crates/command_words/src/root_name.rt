//! The names of roots.
ghost use Rattle.std.specs.Prelude.{◌≡◌, IfOk};
ghost use Rattle.command_words.specs.Kept.{kept};
ghost use Rattle.command_words.specs.RootName.{has_root_name_form, has_root_name_len, is_root_name, IsRootName};

use std::alloc::{AllocError, Global};
use std::marker::Model;

/// The greatest length of a root's name, in bytes.
pub const MAX_ROOT_NAME_LEN: usize = 4096;

/// The name of a root: 1 to 4,096 bytes of UTF-8 that don't begin with `--`. Contracts see its bytes.
#[derive(Debug, Drop)]
pub struct RootName {
    text: String,
}

impl Model for RootName {
    ghost use Rattle.std.specs.Prelude.{ℕ, List, string_bytes};
    ghost use Rattle.command_words.specs.RootName.{IsRootName};

    ghost Value = { List ℕ };

    ghost view = { λ n. string_bytes n.text };

    ghost invariant = { λ n. IsRootName (string_bytes n.text) };
}

impl RootName {
    /// The name that this word is, if it is one. Cost: its length.
    pub fn read(alloc: Global, word: &[u8]) -> Result<Option<RootName>, AllocError>
        ensures { IfOk result (λ found. found ≡ kept is_root_name word.now) }
    {
        match str::from_utf8(word) {
            Ok(text) => RootName::of_text(alloc, text),
            Err(_) => Ok(None),
        }
    }

    // The name that this text is, if it is one.
    fn of_text(alloc: Global, text: &str) -> Result<Option<RootName>, AllocError>
        ensures { IfOk result (λ found. found ≡ kept is_root_name text.now) }
    {
        if !is_root_name(text) {
            return Ok(None);
        }
        Ok(Some(RootName {
            text: String::from_str(alloc, text)?,
        }))
    }

    /// The name as text. It takes no memory.
    pub fn as_str(&self) -> &str
        ensures value { result.now ≡ self.now }
        ensures name { IsRootName self.now }
    {
        self.text.as_str()
    }

    /// An equal name. Cost: its length.
    pub fn copy(&self, alloc: Global) -> Result<RootName, AllocError>
        ensures { IfOk result (λ name. name ≡ self.now) }
    {
        Ok(RootName {
            text: String::from_str(alloc, self.as_str())?,
        })
    }
}

// Whether the text is a root's name.
fn is_root_name(text: &str) -> bool
    ensures { result ≡ is_root_name text.now }
{
    has_root_name_form(text.as_bytes())
}

// Whether the bytes have the length of a root's name, and don't begin as an option does.
fn has_root_name_form(word: &[u8]) -> bool
    ensures { result ≡ has_root_name_form word.now }
{
    has_root_name_len(word) && !word.starts_with(b"--".as_slice())
}

// Whether a root's name may have as many bytes.
fn has_root_name_len(word: &[u8]) -> bool
    ensures { result ≡ has_root_name_len word.now }
{
    1 <= word.len() && word.len() <= MAX_ROOT_NAME_LEN
}
