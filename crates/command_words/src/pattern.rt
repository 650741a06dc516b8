//! The texts of ignore patterns.
ghost use Rattle.std.specs.Prelude.{◌≡◌, IfOk, IsTrue};
ghost use Rattle.std.specs.Str.{is_utf8};
ghost use Rattle.command_words.specs.Kept.{kept};

use std::alloc::{AllocError, Global};
use std::marker::Model;

/// The text of an ignore pattern, as a line gives it: any UTF-8, also none. Whether it is a pattern is asked later. Contracts see
/// its bytes.
#[derive(Debug, Drop)]
pub struct PatternText {
    text: String,
}

impl Model for PatternText {
    ghost use Rattle.std.specs.Prelude.{ℕ, List, string_bytes, IsTrue};
    ghost use Rattle.std.specs.Str.{is_utf8};

    ghost Value = { List ℕ };

    ghost view = { λ p. string_bytes p.text };

    ghost invariant = { λ p. IsTrue (is_utf8 (string_bytes p.text)) };
}

impl PatternText {
    /// The text that these bytes are, if they are UTF-8. Cost: their number.
    pub fn read(alloc: Global, bytes: &[u8]) -> Result<Option<PatternText>, AllocError>
        ensures { IfOk result (λ found. found ≡ kept is_utf8 bytes.now) }
    {
        match str::from_utf8(bytes) {
            Ok(text) => PatternText::of_text(alloc, text),
            Err(_) => Ok(None),
        }
    }

    // The text, which is UTF-8 by its type.
    fn of_text(alloc: Global, text: &str) -> Result<Option<PatternText>, AllocError>
        ensures { IfOk result (λ found. found ≡ kept is_utf8 text.now) }
    {
        Ok(Some(PatternText {
            text: String::from_str(alloc, text)?,
        }))
    }

    /// The text. It takes no memory.
    pub fn as_str(&self) -> &str
        ensures value { result.now ≡ self.now }
        ensures text { IsTrue (is_utf8 self.now) }
    {
        self.text.as_str()
    }

    /// An equal text. Cost: its length.
    pub fn copy(&self, alloc: Global) -> Result<PatternText, AllocError>
        ensures { IfOk result (λ pattern. pattern ≡ self.now) }
    {
        Ok(PatternText {
            text: String::from_str(alloc, self.as_str())?,
        })
    }
}
