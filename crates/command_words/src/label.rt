//! The labels of sessions.
ghost use Rattle.std.specs.Prelude.{◌≡◌, ◌++◌, ◌↔◌, Some, IfOk, OnOk, string_bytes};
ghost use Rattle.line_words.specs.Spelling.{escaped};
ghost use Rattle.command_words.specs.Label.{IsLabel, label_word};
ghost use Rattle.command_words.specs.declared.label.Label.{Label};

use crate::cut::cut;
use crate::label_text::LabelText;
use line_words::write_word;
use std::alloc::{AllocError, Global};

/// A label of a session: a key and a value.
#[derive(Debug, Drop)]
pub struct Label {
    pub key: LabelText,
    pub value: LabelText,
}

/// The label that a word spells, if it spells one: `KEY=VALUE`. Cost: its length.
pub fn read_label(alloc: Global, word: &[u8]) -> Result<Option<Label>, AllocError>
    ensures { IfOk result (λ found. (label : Label) → (found ≡ Some label) ↔ (IsLabel label × (word.now ≡ label_word label))) }
{
    let Some((key, value)) = cut(word, b'=') else {
        return Ok(None);
    };
    let Some(key) = LabelText::read(alloc, key)? else {
        return Ok(None);
    };
    let Some(value) = LabelText::read(alloc, value)? else {
        return Ok(None);
    };
    Ok(Some(Label { key, value }))
}

/// Writes the word of a label behind a text. Cost: its length.
pub fn write_label(text: &mut String, label: &Label) -> Result<(), AllocError>
    ensures { OnOk result (string_bytes text.new ≡ string_bytes text.old ++ escaped (label_word label.now)) }
{
    write_word(text, label.key.as_str().as_bytes())?;
    write_word(text, b"=".as_slice())?;
    write_word(text, label.value.as_str().as_bytes())
}

impl Label {
    /// An equal label. Cost: its length.
    pub fn copy(&self, alloc: Global) -> Result<Label, AllocError>
        ensures { IfOk result (λ label. label ≡ self.now) }
    {
        Ok(Label {
            key: self.key.copy(alloc)?,
            value: self.value.copy(alloc)?,
        })
    }
}
