//! How commands and cycles change a session's standing.
ghost use Rattle.std.specs.Prelude.{◌≡◌};
ghost use Rattle.session_table.specs.Standings.{after, begun, ended, flushed, halt_after, paused, reset, resumed};

use mode_rules::{Halt, Outcome};
use session_control::{Standing, Wish};

/// The number behind this one. The last number stays.
pub(crate) fn after(number: u64) -> u64
    ensures { result ≡ after number }
{
    number.saturating_add(1)
}

/// A whole new cycle is wanted.
pub(crate) fn flushed(standing: Standing) -> Standing
    ensures { result ≡ flushed standing }
{
    Standing {
        wanted: after(standing.begun),
        ..standing
    }
}

/// It is to do nothing.
pub(crate) fn paused(standing: Standing) -> Standing
    ensures { result ≡ paused standing }
{
    Standing {
        wish: Wish::Paused,
        ..standing
    }
}

/// It goes on with a whole new cycle, also from a halt.
pub(crate) fn resumed(standing: Standing) -> Standing
    ensures { result ≡ resumed standing }
{
    Standing {
        wish: Wish::Run,
        halted: None,
        wanted: after(standing.begun),
        ..standing
    }
}

/// It was reset once more, and a whole new cycle is wanted, also after a halt.
pub(crate) fn reset(standing: Standing) -> Standing
    ensures { result ≡ reset standing }
{
    Standing {
        resets: after(standing.resets),
        halted: None,
        wanted: after(standing.begun),
        ..standing
    }
}

/// The cycle behind the last that finished is in course.
pub(crate) fn begun(standing: Standing) -> Standing
    ensures { result ≡ begun standing }
{
    Standing {
        begun: after(standing.finished),
        ..standing
    }
}

/// The cycle in course has ended so.
pub(crate) fn ended(standing: Standing, outcome: Outcome) -> Standing
    ensures { result ≡ ended outcome standing }
{
    Standing {
        finished: standing.begun,
        halted: halt_after(outcome, standing.halted),
        ..standing
    }
}

// Why a session is halted behind a cycle: a cycle that halts says so, and any other leaves what was.
fn halt_after(outcome: Outcome, halted: Option<Halt>) -> Option<Halt>
    ensures { result ≡ halt_after outcome halted }
{
    match outcome {
        Outcome::Halted(halt) => Some(halt),
        _ => halted,
    }
}
