//! What an answer means for an operation that changes a tree.
ghost use Rattle.std.specs.Prelude.{◌≡◌};
ghost use Rattle.std.specs.Option.{option_copied};
ghost use Rattle.transition_plan.specs.Courses.{fate_of};

use mode_rules::Cause;
use roots_api::Answer;

/// What an answer means for an operation that changes a tree.
#[derive(Debug, Drop)]
pub enum Fate {
    /// The operation is done.
    Landed,
    /// The root is full or has failed, and is asked nothing further.
    Ended,
    /// The operation wasn't done, and why.
    Missed(Cause),
}

impl Fate {
    /// What the answer means; none stands for want of memory. It takes no memory.
    pub fn of(answer: Option<&Answer>) -> Fate
        ensures { result ≡ fate_of (option_copied answer.entry) }
    {
        match answer {
            None => Fate::Missed(Cause::NoMemory),
            Some(Answer::Done(_)) => Fate::Landed,
            Some(Answer::Differs(_)) => Fate::Missed(Cause::Differs),
            Some(Answer::NotEmpty) => Fate::Missed(Cause::NotEmpty),
            Some(Answer::NoParent(_)) => Fate::Missed(Cause::NoParent),
            Some(Answer::NoLink) => Fate::Missed(Cause::NoLink),
            Some(Answer::NoExec) => Fate::Missed(Cause::NoExec),
            Some(Answer::DigestDiffers { wanted, got }) => Fate::Missed(Cause::DigestDiffers {
                wanted: *wanted,
                got: *got,
            }),
            Some(Answer::NotStaged) => Fate::Missed(Cause::NotStaged),
            Some(_) => Fate::Ended,
        }
    }
}
