//! What a worker turns.
ghost use Rattle.std.specs.Prelude.{◌≡◌, ℕ};

/// What a task is to do after a turn.
#[derive(Debug, Clone, Copy, PartialEq, Eq)]
pub enum Course {
    /// It goes on, and is ready for its next turn.
    Again,

    /// It rests until it is called.
    Rest,

    /// It has ended.
    Gone,
}

/// A piece of work that is done turn by turn, by one worker at a time.
pub trait Task: Drop {
    /// The identifier, by which the task is called.
    ghost identity: { Self → ℕ };

    fn id(&self) -> u128
        ensures { result ≡ identity self.now };

    /// Makes one turn. The task keeps its identifier.
    fn turn(&mut self) -> Course
        ensures { identity self.new ≡ identity self.old };
}
