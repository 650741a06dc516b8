//! What an answer means for a staging.
ghost use Rattle.std.specs.Prelude.{◌≡◌};
ghost use Rattle.stage_core.specs.Staging.{heard};

use mode_rules::Cause;
use roots_api::{Answer, Content};

/// What an answer means for a staging.
#[derive(Debug, Drop)]
pub enum Heard {
    /// It is done.
    Went,
    /// A piece of a file, and whether it is the last one.
    Got {
        /// The piece.
        bytes: Content,
        /// Whether it is the file's last.
        last: bool,
    },
    /// It wasn't done, and why.
    Missed(Cause),
    /// The root failed.
    Broke,
    /// The root is full.
    Filled,
}

impl Heard {
    /// What the answer means. A piece is moved, and not copied. It takes no memory.
    pub(crate) fn of(answer: Answer) -> Heard
        ensures { result ≡ heard answer }
    {
        match answer {
            Answer::Piece { bytes, last } => Heard::Got { bytes, last },
            Answer::Changed(_) => Heard::Missed(Cause::Changed),
            Answer::TooLarge(_) => Heard::Missed(Cause::TooLarge),
            Answer::NotStaged => Heard::Missed(Cause::NotStaged),
            Answer::DigestDiffers { wanted, got } => {
                Heard::Missed(Cause::DigestDiffers { wanted, got })
            }
            Answer::Full(_) => Heard::Filled,
            Answer::Failed => Heard::Broke,
            _ => Heard::Went,
        }
    }
}
