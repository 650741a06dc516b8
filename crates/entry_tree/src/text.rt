//! The text of a symbolic link.
ghost use Rattle.std.specs.Prelude.{◌≡◌, ◌↔◌, ◌==◌, OnOk, IfOk, Err};
ghost use Rattle.entry_tree.specs.Text.{is_text, has_text_len, IsText};
ghost use Rattle.entry_tree.specs.declared.text.TextError.TheVariants.{BadLength, Memory};

use std::alloc::{AllocError, Global};
use std::marker::Model;
use thiserror::Error;

/// The greatest length of a link's text, in bytes.
pub const MAX_TEXT_LEN: usize = 4096;

/// The text of a symbolic link: UTF-8 of 1 to 4,096 bytes, which may be any. Contracts see its bytes.
#[derive(Debug, Drop)]
pub struct Text {
    text: String,
}

impl Model for Text {
    ghost use Rattle.std.specs.Prelude.{ℕ, List, string_bytes};
    ghost use Rattle.entry_tree.specs.Text.{IsText};

    ghost Value = { List ℕ };

    ghost view = { λ t. string_bytes t.text };

    ghost invariant = { λ t. IsText (string_bytes t.text) };
}

/// Why a text was not read.
#[derive(Clone, Copy, Debug, PartialEq, Eq, Error)]
pub enum TextError {
    /// The text is empty or has more than 4,096 bytes.
    #[error("a text of no bytes or of more than 4096")]
    BadLength,
    /// There was no memory.
    #[error("out of memory")]
    Memory,
}

impl From<AllocError> for TextError {
    ghost use Rattle.entry_tree.specs.declared.text.TextError.TheVariants.{Memory};

    ghost from_gives = { λ _ e. e ≡ Memory };

    fn from(_error: AllocError) -> TextError {
        TextError::Memory
    }
}

impl Text {
    /// Takes the whole of `text`, if it has 1 to 4,096 bytes. Cost: its length.
    pub fn read(alloc: Global, text: &str) -> Result<Text, TextError>
        ensures value { IfOk result (λ t. t ≡ text.now) }
        ensures accepted { OnOk result (IsText text.now) }
        ensures refused { (result ≡ Err BadLength) ↔ (¬ IsText text.now) }
        ensures memory { result ≡ Err Memory → IsText text.now }
    {
        if !is_text(text) {
            return Err(TextError::BadLength);
        }
        match String::from_str(alloc, text) {
            Ok(text) => Ok(Text { text }),
            Err(_) => Err(TextError::Memory),
        }
    }

    /// The text as it stands.
    pub fn as_str(&self) -> &str
        ensures value { result.now ≡ self.now }
        ensures text { IsText self.now }
    {
        self.text.as_str()
    }

    /// Another text with the same bytes. Cost: their number.
    pub fn copy(&self, alloc: Global) -> Result<Text, AllocError>
        ensures value { IfOk result (λ t. t ≡ self.now) }
    {
        match String::from_str(alloc, self.as_str()) {
            Ok(text) => Ok(Text { text }),
            Err(error) => Err(error),
        }
    }
}

// Whether this makes a text.
pub(crate) fn is_text(text: &str) -> bool
    ensures { result ≡ is_text text.now }
{
    has_text_len(text)
}

// Whether this, which is UTF-8 by its type, has 1 to 4,096 bytes.
fn has_text_len(text: &str) -> bool
    ensures { result ≡ has_text_len text.now }
{
    1 <= text.len() && text.len() <= MAX_TEXT_LEN
}

impl PartialEq for Text {
    ghost use Rattle.std.specs.Cmp.{partial_equiv_from_equiv};
    ghost use Rattle.std.specs.Cmp.Lexicographic.{nat_list_eq_equiv};
    ghost use lib.Pointwise.{pointwise};

    ghost eq = { pointwise ◌==◌ };

    ghost laws = { partial_equiv_from_equiv nat_list_eq_equiv };

    fn eq(&self, other: &Text) -> bool {
        self.as_str() == other.as_str()
    }
}

impl Eq for Text {
    ghost use Rattle.std.specs.Cmp.Lexicographic.{nat_list_eq_equiv};

    ghost laws = { nat_list_eq_equiv };
}
