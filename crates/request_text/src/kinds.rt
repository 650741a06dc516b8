//! The kinds of words of a line, each with one clause: what is found is exactly what the word is.
ghost use Rattle.std.specs.Prelude.{◌≡◌, ◌↔◌, ◌++◌, ℕ, List, IfOk, MatchOption, Some, string_bytes};
ghost use Rattle.command_words.specs.Contents.{contents_word};
ghost use Rattle.command_words.specs.declared.label.Label.{Label};
ghost use Rattle.request_text.specs.Places.{IsEndpointOf, IsLabelOption, IsLink, IsPathOf, IsRoot, IsSettingOf};
ghost use Rattle.request_text.specs.SettingWords.{label_in};
ghost use Rattle.request_text.specs.declared.setting.Setting.{Setting};

use crate::setting::Setting;
use crate::setting_words::read_setting;
use command_words::{Endpoint, Label, RootName};
use entry_tree::{Text, TextError, read_path};
use std::alloc::{AllocError, Global};
use sync_path::Path;

/// The root that a word names.
pub(crate) fn next_root(alloc: Global, word: &[u8]) -> Result<Option<RootName>, AllocError>
    ensures { IfOk result (λ found. (root : List ℕ) → (found ≡ Some root) ↔ IsRoot word.now root) }
{
    RootName::read(alloc, word)
}

/// The path that a word is.
pub(crate) fn next_path(alloc: Global, word: &[u8]) -> Result<Option<Path>, AllocError>
    ensures { IfOk result (λ found. (path : List (List ℕ)) → (found ≡ Some path) ↔ IsPathOf word.now path) }
{
    read_path(alloc, word)
}

/// The endpoint that a word is.
pub(crate) fn next_endpoint(alloc: Global, word: &[u8]) -> Result<Option<Endpoint>, AllocError>
    ensures { IfOk result (λ found. (endpoint : List ℕ) → (found ≡ Some endpoint) ↔ IsEndpointOf word.now endpoint) }
{
    Endpoint::read(alloc, word)
}

/// The text of a link that a word carries behind `=`.
pub(crate) fn next_link(alloc: Global, word: &[u8]) -> Result<Option<Text>, AllocError>
    ensures { IfOk result (λ found. (text : List ℕ) → (found ≡ Some text) ↔ IsLink word.now text) }
{
    match behind_equals(word) {
        Some(bytes) => match str::from_utf8(bytes) {
            Ok(text) => link_of(alloc, text),
            Err(_) => Ok(None),
        },
        None => Ok(None),
    }
}

// The text of a link that this is.
fn link_of(alloc: Global, text: &str) -> Result<Option<Text>, AllocError>
    ensures { IfOk result (λ found. (link : List ℕ) → (found ≡ Some link) ↔ IsLink (contents_word text.now) link) }
{
    match Text::read(alloc, text) {
        Ok(text) => Ok(Some(text)),
        Err(TextError::BadLength) => Ok(None),
        Err(TextError::Memory) => Err(AllocError),
    }
}

// What stands behind `=`.
fn behind_equals(word: &[u8]) -> Option<&[u8]>
    ensures { MatchOption result ((bytes : List ℕ) → word.now ≡ contents_word bytes → ⊥) (λ bytes. word.now ≡ contents_word bytes.now) }
{
    match word.split_first() {
        Some((b'=', bytes)) => Some(bytes),
        _ => None,
    }
}

/// The label that the option of a list names.
pub(crate) fn next_label(alloc: Global, word: &[u8]) -> Result<Option<Label>, AllocError>
    ensures { IfOk result (λ found. (label : Label) → (found ≡ Some label) ↔ IsLabelOption word.now label) }
{
    match read_setting(alloc, word)? {
        Some(setting) => Ok(label_in(setting)),
        None => Ok(None),
    }
}

// The label of an option that gives one.
fn label_in(setting: Setting) -> Option<Label>
    ensures { result ≡ label_in setting }
{
    match setting {
        Setting::Labelled(label) => Some(label),
        Setting::Name(_) => None,
        Setting::InMode(_) => None,
        Setting::IgnoreVcs => None,
        Setting::Ignore(_) => None,
        Setting::Paused => None,
        Setting::Entries(_) => None,
        Setting::Size(_) => None,
    }
}
