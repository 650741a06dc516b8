//! Where a reader of a whole line is.
ghost use Rattle.std.specs.Prelude.{◌≡◌};

use crate::place::Place;
use command_words::{Client, GivenName};

/// What was read of a line so far.
#[derive(Debug, Drop)]
pub(crate) enum State {
    /// Nothing.
    Start,
    /// `@CLIENT`
    Named(GivenName),
    /// The client, if the line names one, and a part of the request.
    Behind(Option<Client>, Place),
}
