//! The options that a line has given so far.
ghost use Rattle.std.specs.Prelude.{◌≡◌, IfOk};
ghost use Rattle.request_text.specs.Given.{forward_create, no_forward_options, no_sync_options, or_default, sync_create, with_forward_setting, with_setting};
ghost use Rattle.request_text.specs.declared.limits.TheConstants.{MAX_ENTRY_LIMIT, MAX_SIZE_LIMIT};
ghost use Rattle.request_text.specs.declared.setting.Setting.TheVariants as settings;
ghost use Rattle.mode_rules.specs.declared.mode.Mode.TheVariants as modes;

use crate::create::{ForwardCreate, SyncCreate};
use crate::limits::{MAX_ENTRY_LIMIT, MAX_SIZE_LIMIT};
use crate::patterns::Patterns;
use crate::setting::Setting;
use command_words::{
    Endpoint, EntryLimit, GivenName, Label, Labels, PatternText, RootName, SizeLimit,
};
use mode_rules::Mode;
use std::alloc::{AllocError, Global};

/// The options of a new synchronisation session that were given so far, each at most once.
#[derive(Debug, Drop)]
pub struct SyncOptions {
    pub name: Option<GivenName>,
    pub labels: Labels,
    pub mode: Option<Mode>,
    pub ignore_vcs: bool,
    pub ignores: Patterns,
    pub paused: bool,
    pub entries: Option<EntryLimit>,
    pub size: Option<SizeLimit>,
}

/// The options of a new forwarding session that were given so far, each at most once.
#[derive(Debug, Drop)]
pub struct ForwardOptions {
    pub name: Option<GivenName>,
    pub paused: bool,
}

/// No options. It takes no memory.
pub(crate) fn no_sync_options(alloc: Global) -> SyncOptions
    ensures { result ≡ no_sync_options }
{
    SyncOptions {
        name: None,
        labels: Labels::new(alloc),
        mode: None,
        ignore_vcs: false,
        ignores: Patterns::new(alloc),
        paused: false,
        entries: None,
        size: None,
    }
}

/// No options. It takes no memory.
pub(crate) fn no_forward_options() -> ForwardOptions
    ensures { result ≡ no_forward_options }
{
    ForwardOptions {
        name: None,
        paused: false,
    }
}

/// What is given with one option more, if it may stand there.
pub(crate) fn with_setting(
    given: SyncOptions,
    setting: Setting,
) -> Result<Option<SyncOptions>, AllocError>
    ensures { IfOk result (λ found. found ≡ with_setting given setting) }
{
    match setting {
        Setting::Name(name) => Ok(with_name(given, name)),
        Setting::Labelled(label) => with_label(given, label),
        Setting::InMode(mode) => Ok(with_mode(given, mode)),
        Setting::IgnoreVcs => Ok(with_ignore_vcs(given)),
        Setting::Ignore(pattern) => with_ignore(given, pattern),
        Setting::Paused => Ok(with_paused(given)),
        Setting::Entries(most) => Ok(with_entries(given, most)),
        Setting::Size(most) => Ok(with_size(given, most)),
    }
}

// With a name.
fn with_name(mut given: SyncOptions, name: GivenName) -> Option<SyncOptions>
    ensures { result ≡ with_setting given (settings.Name name) }
{
    if given.name.is_some() {
        return None;
    }
    given.name = Some(name);
    Some(given)
}

// With a label.
fn with_label(mut given: SyncOptions, label: Label) -> Result<Option<SyncOptions>, AllocError>
    ensures { IfOk result (λ found. found ≡ with_setting given (settings.Labelled label)) }
{
    if given.labels.insert(label)? {
        Ok(Some(given))
    } else {
        Ok(None)
    }
}

// With a mode.
fn with_mode(mut given: SyncOptions, mode: Mode) -> Option<SyncOptions>
    ensures { result ≡ with_setting given (settings.InMode mode) }
{
    if given.mode.is_some() {
        return None;
    }
    given.mode = Some(mode);
    Some(given)
}

// Without the folders of version control.
fn with_ignore_vcs(mut given: SyncOptions) -> Option<SyncOptions>
    ensures { result ≡ with_setting given settings.IgnoreVcs }
{
    if given.ignore_vcs {
        return None;
    }
    given.ignore_vcs = true;
    Some(given)
}

// With an ignore pattern.
fn with_ignore(
    mut given: SyncOptions,
    pattern: PatternText,
) -> Result<Option<SyncOptions>, AllocError>
    ensures { IfOk result (λ found. found ≡ with_setting given (settings.Ignore pattern)) }
{
    if given.ignores.push(pattern)? {
        Ok(Some(given))
    } else {
        Ok(None)
    }
}

// Begun paused.
fn with_paused(mut given: SyncOptions) -> Option<SyncOptions>
    ensures { result ≡ with_setting given settings.Paused }
{
    if given.paused {
        return None;
    }
    given.paused = true;
    Some(given)
}

// With a limit of entries.
fn with_entries(mut given: SyncOptions, most: EntryLimit) -> Option<SyncOptions>
    ensures { result ≡ with_setting given (settings.Entries most) }
{
    if given.entries.is_some() {
        return None;
    }
    given.entries = Some(most);
    Some(given)
}

// With a limit of sizes.
fn with_size(mut given: SyncOptions, most: SizeLimit) -> Option<SyncOptions>
    ensures { result ≡ with_setting given (settings.Size most) }
{
    if given.size.is_some() {
        return None;
    }
    given.size = Some(most);
    Some(given)
}

/// What is given with one option more, if it may stand there.
pub(crate) fn with_forward_setting(
    given: ForwardOptions,
    setting: Setting,
) -> Option<ForwardOptions>
    ensures { result ≡ with_forward_setting given setting }
{
    match setting {
        Setting::Name(name) => forward_name(given, name),
        Setting::Paused => forward_paused(given),
        Setting::Labelled(_) => None,
        Setting::InMode(_) => None,
        Setting::IgnoreVcs => None,
        Setting::Ignore(_) => None,
        Setting::Entries(_) => None,
        Setting::Size(_) => None,
    }
}

// With a name.
fn forward_name(mut given: ForwardOptions, name: GivenName) -> Option<ForwardOptions>
    ensures { result ≡ with_forward_setting given (settings.Name name) }
{
    if given.name.is_some() {
        return None;
    }
    given.name = Some(name);
    Some(given)
}

// Begun paused.
fn forward_paused(mut given: ForwardOptions) -> Option<ForwardOptions>
    ensures { result ≡ with_forward_setting given settings.Paused }
{
    if given.paused {
        return None;
    }
    given.paused = true;
    Some(given)
}

/// The session that is made with what was given.
pub(crate) fn sync_create(given: SyncOptions, alpha: RootName, beta: RootName) -> SyncCreate
    ensures { result ≡ sync_create given alpha beta }
{
    SyncCreate {
        name: given.name,
        labels: given.labels,
        mode: mode_of(given.mode),
        ignore_vcs: given.ignore_vcs,
        ignores: given.ignores,
        paused: given.paused,
        entries: entries_of(given.entries),
        size: size_of(given.size),
        alpha,
        beta,
    }
}

// The mode that was given, or the default.
fn mode_of(given: Option<Mode>) -> Mode
    ensures { result ≡ or_default modes.TwoWaySafe given }
{
    match given {
        Some(mode) => mode,
        None => Mode::TwoWaySafe,
    }
}

// The limit that was given, or the default.
fn entries_of(given: Option<EntryLimit>) -> EntryLimit
    ensures { result ≡ or_default MAX_ENTRY_LIMIT given }
{
    match given {
        Some(most) => most,
        None => match EntryLimit::of(MAX_ENTRY_LIMIT) {
            Some(most) => most,
            None => unreachable!(),
        },
    }
}

// The limit that was given, or the default.
fn size_of(given: Option<SizeLimit>) -> SizeLimit
    ensures { result ≡ or_default MAX_SIZE_LIMIT given }
{
    match given {
        Some(most) => most,
        None => match SizeLimit::of(MAX_SIZE_LIMIT) {
            Some(most) => most,
            None => unreachable!(),
        },
    }
}

/// The session that is made with what was given.
pub(crate) fn forward_create(
    given: ForwardOptions,
    source: Endpoint,
    dest: Endpoint,
) -> ForwardCreate
    ensures { result ≡ forward_create given source dest }
{
    ForwardCreate {
        name: given.name,
        paused: given.paused,
        source,
        dest,
    }
}
