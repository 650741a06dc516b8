//! How the options of a request are written.
ghost use Rattle.std.specs.Prelude.{◌≡◌, ◌++◌, ◌∷◌, [], OnOk, map, string_bytes};
ghost use Rattle.command_words.specs.Piece.{next_word, next_words};
ghost use Rattle.request_text.specs.Settings.{entries_settings, flag, forward_settings, limit_settings, mode_settings, name_settings, setting_word, setting_words, size_settings, sync_settings};
ghost use Rattle.request_text.specs.declared.setting.Setting.{Setting};
ghost use Rattle.request_text.specs.declared.setting.Setting.TheVariants as settings;

use crate::create::{ForwardCreate, SyncCreate};
use crate::limits::{MAX_ENTRY_LIMIT, MAX_SIZE_LIMIT};
use command_words::{GivenName, Label, PatternText, Piece, mode_word, write_label, write_pieces};
use line_words::write_word;
use mode_rules::Mode;
use std::alloc::AllocError;

/// Writes the options of a new synchronisation session, each behind a space. Cost: their lengths.
pub(crate) fn write_sync_settings(text: &mut String, create: &SyncCreate) -> Result<(), AllocError>
    ensures { OnOk result (string_bytes text.new ≡ string_bytes text.old ++ next_words (setting_words (sync_settings create.now))) }
{
    write_name(text, &create.name)?;
    write_labels(text, create.labels.as_slice())?;
    write_mode(text, create.mode)?;
    write_ignore_vcs(text, create.ignore_vcs)?;
    write_ignores(text, create.ignores.as_slice())?;
    write_paused(text, create.paused)?;
    write_limits(text, create)
}

/// Writes the options of a new forwarding session, each behind a space. Cost: their lengths.
pub(crate) fn write_forward_settings(
    text: &mut String,
    create: &ForwardCreate,
) -> Result<(), AllocError>
    ensures { OnOk result (string_bytes text.new ≡ string_bytes text.old ++ next_words (setting_words (forward_settings create.now))) }
{
    write_name(text, &create.name)?;
    write_paused(text, create.paused)
}

/// Writes a label as an option, behind a space. Cost: its length.
pub(crate) fn write_label_setting(text: &mut String, label: &Label) -> Result<(), AllocError>
    ensures { OnOk result (string_bytes text.new ≡ string_bytes text.old ++ next_word (setting_word (settings.Labelled label.now))) }
{
    text.push(' ')?;
    text.push_str("--label=")?;
    write_label(text, label)
}

// Writes the option of a name, if there is one.
fn write_name(text: &mut String, name: &Option<GivenName>) -> Result<(), AllocError>
    ensures { OnOk result (string_bytes text.new ≡ string_bytes text.old ++ next_words (setting_words (name_settings name.now))) }
{
    match name {
        None => Ok(()),
        Some(name) => write_pieces(text, &[Piece::Setting("--name=", name.as_str())]),
    }
}

// Writes the options of labels.
fn write_labels(text: &mut String, labels: &[Label]) -> Result<(), AllocError>
    ensures { OnOk result (string_bytes text.new ≡ string_bytes text.old ++ next_words (setting_words (map settings.Labelled labels.now))) }
{
    for label in labels {
        write_label_setting(text, label)?;
    }
    Ok(())
}

// Writes the option of a mode, unless it is the default.
fn write_mode(text: &mut String, mode: Mode) -> Result<(), AllocError>
    ensures { OnOk result (string_bytes text.new ≡ string_bytes text.old ++ next_words (setting_words (mode_settings mode))) }
{
    match mode {
        Mode::TwoWaySafe => Ok(()),
        Mode::TwoWayResolved => write_pieces(
            text,
            &[Piece::Setting("--mode=", "two-way-resolved")],
        ),
        Mode::OneWaySafe => write_pieces(text, &[Piece::Setting("--mode=", "one-way-safe")]),
        Mode::OneWayReplica => write_pieces(text, &[Piece::Setting("--mode=", "one-way-replica")]),
    }
}

// Writes the option that passes over the folders of version control, if it is on.
fn write_ignore_vcs(text: &mut String, on: bool) -> Result<(), AllocError>
    ensures { OnOk result (string_bytes text.new ≡ string_bytes text.old ++ next_words (setting_words (flag settings.IgnoreVcs on))) }
{
    if on {
        return write_pieces(text, &[Piece::Text("--ignore-vcs")]);
    }
    Ok(())
}

// Writes the options of ignore patterns.
fn write_ignores(text: &mut String, ignores: &[PatternText]) -> Result<(), AllocError>
    ensures { OnOk result (string_bytes text.new ≡ string_bytes text.old ++ next_words (setting_words (map settings.Ignore ignores.now))) }
{
    for ignore in ignores {
        write_ignore(text, ignore)?;
    }
    Ok(())
}

// Writes the option of an ignore pattern.
fn write_ignore(text: &mut String, ignore: &PatternText) -> Result<(), AllocError>
    ensures { OnOk result (string_bytes text.new ≡ string_bytes text.old ++ next_word (setting_word (settings.Ignore ignore.now))) }
{
    text.push(' ')?;
    text.push_str("--ignore=")?;
    write_word(text, ignore.as_str().as_bytes())
}

// Writes the option that a session begins paused, if it is on.
fn write_paused(text: &mut String, on: bool) -> Result<(), AllocError>
    ensures { OnOk result (string_bytes text.new ≡ string_bytes text.old ++ next_words (setting_words (flag settings.Paused on))) }
{
    if on {
        return write_pieces(text, &[Piece::Text("--paused")]);
    }
    Ok(())
}

// Writes the options of both limits, each unless it is the default.
fn write_limits(text: &mut String, create: &SyncCreate) -> Result<(), AllocError>
    ensures { OnOk result (string_bytes text.new ≡ string_bytes text.old ++ next_words (setting_words (limit_settings create.now))) }
{
    write_entries(text, create.entries.get())?;
    write_size(text, create.size.get())
}

// Writes the option of the limit of entries, unless it is the default.
fn write_entries(text: &mut String, most: u64) -> Result<(), AllocError>
    ensures { OnOk result (string_bytes text.new ≡ string_bytes text.old ++ next_words (setting_words (entries_settings most))) }
{
    if most == MAX_ENTRY_LIMIT {
        return Ok(());
    }
    let mut digits = itoa::Buffer::new();
    let setting = Piece::Setting("--max-entry-count=", digits.format(most));
    write_pieces(text, &[setting])
}

// Writes the option of the limit of sizes, unless it is the default.
fn write_size(text: &mut String, most: u64) -> Result<(), AllocError>
    ensures { OnOk result (string_bytes text.new ≡ string_bytes text.old ++ next_words (setting_words (size_settings most))) }
{
    if most == MAX_SIZE_LIMIT {
        return Ok(());
    }
    let mut digits = itoa::Buffer::new();
    let setting = Piece::Setting("--max-staging-file-size=", digits.format(most));
    write_pieces(text, &[setting])
}
