//! The options of lines that create a session.

use command_words::{EntryLimit, GivenName, Label, PatternText, SizeLimit};
use mode_rules::Mode;

/// An option of a line that creates a session.
#[derive(Debug, Drop)]
pub enum Setting {
    /// `--name=NAME`
    Name(GivenName),
    /// `--label=KEY=VALUE`
    Labelled(Label),
    /// `--mode=MODE`
    InMode(Mode),
    /// `--ignore-vcs`
    IgnoreVcs,
    /// `--ignore=PATTERN`
    Ignore(PatternText),
    /// `--paused`
    Paused,
    /// `--max-entry-count=N`
    Entries(EntryLimit),
    /// `--max-staging-file-size=N`
    Size(SizeLimit),
}
