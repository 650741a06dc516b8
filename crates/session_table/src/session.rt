//! A live session.
ghost use Rattle.std.specs.Prelude.{◌≡◌};
ghost use Rattle.session_table.specs.Standings.{new_session};

use crate::create::Create;
use mode_rules::CycleReport;
use session_control::{Standing, Wish};

/// How many sessions may be live.
pub const MAX_SESSIONS: usize = 256;

/// A session's identifier, and what it was made of.
#[derive(Debug, Drop)]
pub struct Row {
    pub id: u128,
    pub create: Create,
}

/// A live session: what it was made of, how it stands, and its last report in this run.
#[derive(Debug, Drop)]
pub(crate) struct Session {
    pub(crate) row: Row,
    pub(crate) standing: Standing,
    pub(crate) report: Option<CycleReport>,
}

impl Session {
    /// A new session.
    pub(crate) fn new(id: u128, create: Create) -> Session
        ensures { result ≡ new_session id create }
    {
        let wish = if create.is_paused() {
            Wish::Paused
        } else {
            Wish::Run
        };
        Session {
            row: Row { id, create },
            standing: Standing {
                wish,
                begun: 0,
                finished: 0,
                wanted: 1,
                resets: 0,
                halted: None,
            },
            report: None,
        }
    }
}
