//! Tests of kinds.
ghost use Rattle.std.specs.Prelude.{◌≡◌};
ghost use Rattle.session_table.specs.Finding.{same_kind};

use command_words::SessionKind;

/// Whether two kinds are the same.
pub(crate) fn same_kind(kind: SessionKind, other: SessionKind) -> bool
    ensures { result ≡ same_kind kind other }
{
    match kind {
        SessionKind::Sync => match other {
            SessionKind::Sync => true,
            SessionKind::Forward => false,
        },
        SessionKind::Forward => match other {
            SessionKind::Sync => false,
            SessionKind::Forward => true,
        },
    }
}
