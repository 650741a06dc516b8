//! The keys and values of labels.
ghost use Rattle.std.specs.Prelude.{◌≡◌, ◌==◌, IfOk, IsTrue, Some, true};
ghost use Rattle.std.specs.List.{list_all};
ghost use Rattle.command_words.specs.Ascii.{is_label_byte};
ghost use Rattle.command_words.specs.Kept.{kept};
ghost use Rattle.command_words.specs.LabelText.{is_label_text, IsLabelText};

use crate::ascii::{as_text, has_label_bytes};
use std::alloc::{AllocError, Global};
use std::marker::Model;

/// The greatest length of a label's key, and of its value, in bytes.
pub const MAX_LABEL_TEXT_LEN: usize = 63;

/// A label's key or value: 1 to 63 ASCII letters, digits, `-`, `_` and `.`. Contracts see its bytes.
#[derive(Debug, Drop)]
pub struct LabelText {
    text: String,
}

impl Model for LabelText {
    ghost use Rattle.std.specs.Prelude.{ℕ, List, string_bytes};
    ghost use Rattle.command_words.specs.LabelText.{IsLabelText};

    ghost Value = { List ℕ };

    ghost view = { λ t. string_bytes t.text };

    ghost invariant = { λ t. IsLabelText (string_bytes t.text) };
}

impl LabelText {
    /// The text that these bytes are, if they are one. Cost: their number.
    pub fn read(alloc: Global, bytes: &[u8]) -> Result<Option<LabelText>, AllocError>
        ensures { IfOk result (λ found. found ≡ kept is_label_text bytes.now) }
    {
        if !is_label_text(bytes) {
            return Ok(None);
        }
        Ok(Some(LabelText {
            text: String::from_str(alloc, as_text(bytes))?,
        }))
    }

    /// The text. It takes no memory.
    pub fn as_str(&self) -> &str
        ensures value { result.now ≡ self.now }
        ensures text { IsLabelText self.now }
    {
        self.text.as_str()
    }

    /// An equal text. Cost: its length.
    pub fn copy(&self, alloc: Global) -> Result<LabelText, AllocError>
        ensures { IfOk result (λ text. text ≡ self.now) }
    {
        Ok(LabelText {
            text: String::from_str(alloc, self.as_str())?,
        })
    }
}

// Whether the bytes are such a text.
fn is_label_text(bytes: &[u8]) -> bool
    ensures value { result ≡ is_label_text bytes.now }
    ensures bytes { IsTrue result → list_all is_label_byte bytes.now ≡ true }
{
    1 <= bytes.len() && bytes.len() <= MAX_LABEL_TEXT_LEN && has_label_bytes(bytes)
}

impl PartialEq for LabelText {
    ghost use Rattle.std.specs.Cmp.{partial_equiv_from_equiv};
    ghost use Rattle.std.specs.Cmp.Lexicographic.{nat_list_eq_equiv};
    ghost use lib.Pointwise.{pointwise};

    ghost eq = { pointwise ◌==◌ };

    ghost laws = { partial_equiv_from_equiv nat_list_eq_equiv };

    fn eq(&self, other: &LabelText) -> bool {
        self.as_str() == other.as_str()
    }
}

impl Eq for LabelText {
    ghost use Rattle.std.specs.Cmp.Lexicographic.{nat_list_eq_equiv};

    ghost laws = { nat_list_eq_equiv };
}
