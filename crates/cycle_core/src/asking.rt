//! What a cycle asks where it stands, and its phase there.
ghost use Rattle.std.specs.Prelude.{◌≡◌};
ghost use Rattle.std.specs.Option.{option_map};
ghost use Rattle.cycle_core.specs.Going.{asked, phase_of};
ghost use Rattle.cycle_core.specs.Requests.{asked_in};

use crate::request::Request;
use crate::stand::{Applying, Stand};
use entry_tree::Side;
use mode_rules::Phase;

impl Stand {
    /// What is asked. It takes no memory. Cost: O(1).
    pub(crate) fn request(&self) -> Option<Request<'_>>
        ensures { option_map asked_in result ≡ asked self.now }
    {
        match self {
            Stand::Forgets(frame) => Some(Request::Keep(frame)),
            Stand::Scans(scanning) => Some(Request::Ask(scanning.side, &scanning.asked)),
            Stand::Stages(supply) => Some(Request::Ask(supply.side, &supply.asked)),
            Stand::Changes(applying) => applying.request(),
            Stand::Clears { side, op, .. } => Some(Request::Ask(*side, op)),
            Stand::Commits { frame, .. } => Some(Request::Keep(frame)),
        }
    }

    /// The phase. It takes no memory.
    pub(crate) fn phase(&self) -> Phase
        ensures { result ≡ phase_of self.now }
    {
        match self {
            Stand::Forgets(_) => Phase::Forget,
            Stand::Scans(scanning) => match scanning.side {
                Side::Alpha => Phase::ScanAlpha,
                Side::Beta => Phase::ScanBeta,
            },
            Stand::Stages(_) => Phase::Stage,
            Stand::Changes(_) => Phase::Change,
            Stand::Clears { .. } => Phase::Clear,
            Stand::Commits { .. } => Phase::Commit,
        }
    }
}

impl Applying {
    // The operation of the change in course.
    fn request(&self) -> Option<Request<'_>>
        ensures { option_map asked_in result ≡ asked (Stand.Changes self.now) }
    {
        match self.work.changing.next() {
            Some((side, op)) => Some(Request::Ask(side, op)),
            None => None,
        }
    }
}
