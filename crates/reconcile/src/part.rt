//! Which of three trees.

/// Which of the three trees that a decision looks at.
#[derive(Clone, Copy, Debug, PartialEq, Eq)]
pub(crate) enum Part {
    /// What both sides last agreed on.
    Ancestor,
    /// What was seen of alpha.
    Alpha,
    /// What was seen of beta.
    Beta,
}
