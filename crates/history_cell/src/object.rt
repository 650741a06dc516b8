//! What a cell holds.

/// A sequential object. Each call of `act` is one of its steps.
pub trait Object: Drop {
    /// What it is asked.
    type Op: Drop;

    /// What it answers.
    type Reply;

    // From the object before, at an operation, the reply may come and leave the object after.
    ghost acts: { Self → Self.Op → Self.Reply → Self → Type 0 };

    /// Makes one step.
    fn act(&mut self, op: Self::Op) -> Self::Reply
        ensures { acts self.old op result self.new };
}
