//! What changes a session's standing.
ghost use Rattle.std.specs.Prelude.{◌≡◌};
ghost use Rattle.session_table.specs.Standings.{change_by};

use crate::standings::{begun, flushed, paused, reset, resumed};
use session_control::Standing;

/// What changes a session's standing.
#[derive(Clone, Copy, Debug, PartialEq, Eq)]
pub(crate) enum Change {
    Flush,
    Pause,
    Resume,
    Reset,
    Begin,
}

/// What a change makes of a standing.
pub(crate) fn change_standing(change: Change, standing: Standing) -> Standing
    ensures { result ≡ change_by change standing }
{
    match change {
        Change::Flush => flushed(standing),
        Change::Pause => paused(standing),
        Change::Resume => resumed(standing),
        Change::Reset => reset(standing),
        Change::Begin => begun(standing),
    }
}
