//! How the word of an option is read.
ghost use Rattle.std.specs.Prelude.{◌≡◌, ◌++◌, ◌↔◌, IfOk, Some, true, nat_eq};
ghost use Rattle.std.specs.List.{starts_with};
ghost use Rattle.request_text.specs.Places.{IsSettingOf};
ghost use Rattle.request_text.specs.SettingWords.{kind_by, kind_prefix};
ghost use Rattle.request_text.specs.declared.setting.Setting.{Setting};
ghost use Rattle.request_text.specs.declared.setting_words.SettingKind.TheVariants as kinds;

use crate::setting::Setting;
use command_words::{EntryLimit, GivenName, PatternText, SizeLimit, mode_by, read_label};
use std::alloc::{AllocError, Global};

/// Which option it is.
#[derive(Clone, Copy, Debug, PartialEq, Eq)]
pub(crate) enum SettingKind {
    Name,
    Label,
    Mode,
    IgnoreVcs,
    Ignore,
    Paused,
    Entries,
    Size,
}

/// The option that a word is. Cost: its length.
pub(crate) fn read_setting(alloc: Global, word: &[u8]) -> Result<Option<Setting>, AllocError>
    ensures { IfOk result (λ found. (setting : Setting) → (found ≡ Some setting) ↔ IsSettingOf word.now setting) }
{
    match kind_by(word) {
        Some(kind) => read_value(alloc, kind, behind(word, kind)),
        None => Ok(None),
    }
}

// The option of a kind that has this value.
fn read_value(alloc: Global, kind: SettingKind, value: &[u8]) -> Result<Option<Setting>, AllocError>
    ensures { IfOk result (λ found. (setting : Setting) → (found ≡ Some setting) ↔ IsSettingOf (kind_prefix kind ++ value.now) setting) }
{
    match kind {
        SettingKind::Name => read_name(alloc, value),
        SettingKind::Label => read_labelled(alloc, value),
        SettingKind::Mode => Ok(read_mode(value)),
        SettingKind::IgnoreVcs => Ok(read_ignore_vcs(value)),
        SettingKind::Ignore => read_ignore(alloc, value),
        SettingKind::Paused => Ok(read_paused(value)),
        SettingKind::Entries => Ok(read_entries(value)),
        SettingKind::Size => Ok(read_size(value)),
    }
}

// The option of a name.
fn read_name(alloc: Global, value: &[u8]) -> Result<Option<Setting>, AllocError>
    ensures { IfOk result (λ found. (setting : Setting) → (found ≡ Some setting) ↔ IsSettingOf (kind_prefix kinds.Name ++ value.now) setting) }
{
    match GivenName::read(alloc, value)? {
        Some(found) => Ok(Some(Setting::Name(found))),
        None => Ok(None),
    }
}

// The option of a label.
fn read_labelled(alloc: Global, value: &[u8]) -> Result<Option<Setting>, AllocError>
    ensures { IfOk result (λ found. (setting : Setting) → (found ≡ Some setting) ↔ IsSettingOf (kind_prefix kinds.Label ++ value.now) setting) }
{
    match read_label(alloc, value)? {
        Some(found) => Ok(Some(Setting::Labelled(found))),
        None => Ok(None),
    }
}

// The option of a mode.
fn read_mode(value: &[u8]) -> Option<Setting>
    ensures { (setting : Setting) → (result ≡ Some setting) ↔ IsSettingOf (kind_prefix kinds.Mode ++ value.now) setting }
{
    match mode_by(value) {
        Some(found) => Some(Setting::InMode(found)),
        None => None,
    }
}

// The option that passes over the folders of version control.
fn read_ignore_vcs(value: &[u8]) -> Option<Setting>
    ensures { (setting : Setting) → (result ≡ Some setting) ↔ IsSettingOf (kind_prefix kinds.IgnoreVcs ++ value.now) setting }
{
    if value.is_empty() {
        return Some(Setting::IgnoreVcs);
    }
    None
}

// The option of an ignore pattern.
fn read_ignore(alloc: Global, value: &[u8]) -> Result<Option<Setting>, AllocError>
    ensures { IfOk result (λ found. (setting : Setting) → (found ≡ Some setting) ↔ IsSettingOf (kind_prefix kinds.Ignore ++ value.now) setting) }
{
    match PatternText::read(alloc, value)? {
        Some(found) => Ok(Some(Setting::Ignore(found))),
        None => Ok(None),
    }
}

// The option that a session begins paused.
fn read_paused(value: &[u8]) -> Option<Setting>
    ensures { (setting : Setting) → (result ≡ Some setting) ↔ IsSettingOf (kind_prefix kinds.Paused ++ value.now) setting }
{
    if value.is_empty() {
        return Some(Setting::Paused);
    }
    None
}

// The option of a limit of entries.
fn read_entries(value: &[u8]) -> Option<Setting>
    ensures { (setting : Setting) → (result ≡ Some setting) ↔ IsSettingOf (kind_prefix kinds.Entries ++ value.now) setting }
{
    match EntryLimit::read(value) {
        Some(found) => Some(Setting::Entries(found)),
        None => None,
    }
}

// The option of a limit of sizes.
fn read_size(value: &[u8]) -> Option<Setting>
    ensures { (setting : Setting) → (result ≡ Some setting) ↔ IsSettingOf (kind_prefix kinds.Size ++ value.now) setting }
{
    match SizeLimit::read(value) {
        Some(found) => Some(Setting::Size(found)),
        None => None,
    }
}

// What stands behind the beginning of a word of this kind.
fn behind(word: &[u8], kind: SettingKind) -> &[u8]
    requires { kind_by word.now ≡ Some kind }
    ensures { word.now ≡ kind_prefix kind ++ result.now }
{
    let (_, value) = word.split_at(kind_prefix(kind).len());
    value
}

// What the words of a kind of option begin with.
fn kind_prefix(kind: SettingKind) -> &'static str
    ensures { result.now ≡ kind_prefix kind }
{
    match kind {
        SettingKind::Name => "--name=",
        SettingKind::Label => "--label=",
        SettingKind::Mode => "--mode=",
        SettingKind::IgnoreVcs => "--ignore-vcs",
        SettingKind::Ignore => "--ignore=",
        SettingKind::Paused => "--paused",
        SettingKind::Entries => "--max-entry-count=",
        SettingKind::Size => "--max-staging-file-size=",
    }
}

// The kind of option that a word begins.
fn kind_by(word: &[u8]) -> Option<SettingKind>
    ensures { result ≡ kind_by word.now }
{
    if word.starts_with(b"--name=".as_slice()) {
        return Some(SettingKind::Name);
    }
    if word.starts_with(b"--label=".as_slice()) {
        return Some(SettingKind::Label);
    }
    if word.starts_with(b"--mode=".as_slice()) {
        return Some(SettingKind::Mode);
    }
    if word.starts_with(b"--ignore-vcs".as_slice()) {
        return Some(SettingKind::IgnoreVcs);
    }
    if word.starts_with(b"--ignore=".as_slice()) {
        return Some(SettingKind::Ignore);
    }
    if word.starts_with(b"--paused".as_slice()) {
        return Some(SettingKind::Paused);
    }
    if word.starts_with(b"--max-entry-count=".as_slice()) {
        return Some(SettingKind::Entries);
    }
    if word.starts_with(b"--max-staging-file-size=".as_slice()) {
        return Some(SettingKind::Size);
    }
    None
}
