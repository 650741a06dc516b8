//! What is decided at a path.
ghost use Rattle.std.specs.Prelude.{◌≡◌};
ghost use Rattle.std.specs.Option.{option_copied};
ghost use Rattle.mode_rules.specs.Trees.{holds_tracked, is_blocked};
ghost use Rattle.mode_rules.specs.Verdicts.{first_case, by_mode, reason_of};

use crate::comparing::{Comparison, is_same};
use crate::conflict::Reason;
use crate::mode::Mode;
use entry_tree::Atom;

/// What is decided at a path whose parents are folders on both sides.
#[derive(Clone, Copy, Debug, PartialEq, Eq)]
pub enum Verdict {
    /// Nothing changes, and the ancestor stays, at and below the path.
    Left,
    /// The same, and it is a conflict, since one side holds something there that the session leaves alone.
    Blocked,
    /// Both sides hold nothing: the ancestor drops all at and below the path.
    Gone,
    /// Both sides hold the same: the ancestor takes it, and below a folder each path is decided on its own.
    Agreed,
    /// Alpha becomes what beta is, at and below the path.
    AlphaTakes,
    /// Beta becomes what alpha is, at and below the path.
    BetaTakes,
    /// Alpha is emptied, at and below the path.
    AlphaEmptied,
    /// Beta is emptied, at and below the path.
    BetaEmptied,
    /// Beta keeps what is its own, and the ancestor drops all at and below the path.
    BetaKeeps,
    /// Both sides have changed: nothing changes, the ancestor stays, and it is a conflict.
    Both,
}

impl Verdict {
    /// Why this is a conflict, if it is one.
    pub fn reason(self) -> Option<Reason>
        ensures { result ≡ reason_of self }
    {
        match self {
            Verdict::Blocked => Some(Reason::Blocked),
            Verdict::Both => Some(Reason::Both),
            Verdict::Left
            | Verdict::Gone
            | Verdict::Agreed
            | Verdict::AlphaTakes
            | Verdict::BetaTakes
            | Verdict::AlphaEmptied
            | Verdict::BetaEmptied
            | Verdict::BetaKeeps => None,
        }
    }
}

/// What is decided at a path, by what alpha and beta hold there and how they stand to the ancestor at and below it: the first case that holds.
pub fn first_case(
    mode: Mode,
    at_alpha: Option<&Atom>,
    at_beta: Option<&Atom>,
    alpha: Comparison,
    beta: Comparison,
) -> Verdict
    ensures { result ≡ first_case mode (option_copied at_alpha.entry) (option_copied at_beta.entry) alpha beta }
{
    if is_blocked(at_alpha) || is_blocked(at_beta) {
        if holds_tracked(at_alpha) || holds_tracked(at_beta) {
            Verdict::Blocked
        } else {
            Verdict::Left
        }
    } else if at_alpha.is_none() && at_beta.is_none() {
        Verdict::Gone
    } else if is_same(at_alpha, at_beta) {
        Verdict::Agreed
    } else {
        by_mode(mode, at_alpha.is_some(), alpha, beta)
    }
}

// What the mode decides where the sides differ at the path.
fn by_mode(mode: Mode, alpha_holds: bool, alpha: Comparison, beta: Comparison) -> Verdict
    ensures { result ≡ by_mode mode alpha_holds alpha beta }
{
    match mode {
        Mode::TwoWaySafe => both_ways(alpha_holds, alpha, beta),
        Mode::TwoWayResolved if alpha.same => Verdict::AlphaTakes,
        Mode::TwoWayResolved => Verdict::BetaTakes,
        Mode::OneWaySafe if beta.less => Verdict::BetaTakes,
        Mode::OneWaySafe if alpha_holds => Verdict::Both,
        Mode::OneWaySafe => Verdict::BetaKeeps,
        Mode::OneWayReplica => Verdict::BetaTakes,
    }
}

// What is decided where nothing may be lost on either side.
fn both_ways(alpha_holds: bool, alpha: Comparison, beta: Comparison) -> Verdict
    ensures { result ≡ by_mode Mode.TwoWaySafe alpha_holds alpha beta }
{
    if alpha.same {
        Verdict::AlphaTakes
    } else if beta.same {
        Verdict::BetaTakes
    } else if alpha.less && beta.less {
        if alpha_holds {
            Verdict::AlphaEmptied
        } else {
            Verdict::BetaEmptied
        }
    } else if alpha.less {
        Verdict::AlphaTakes
    } else if beta.less {
        Verdict::BetaTakes
    } else {
        Verdict::Both
    }
}

// Whether something stands there that is not tracked.
fn is_blocked(atom: Option<&Atom>) -> bool
    ensures { result ≡ is_blocked (option_copied atom.entry) }
{
    match atom {
        Some(atom) => !atom.is_tracked(),
        None => false,
    }
}

// Whether a folder, a file or a link stands there.
pub(crate) fn holds_tracked(atom: Option<&Atom>) -> bool
    ensures { result ≡ holds_tracked (option_copied atom.entry) }
{
    match atom {
        Some(atom) => atom.is_tracked(),
        None => false,
    }
}
