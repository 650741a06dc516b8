//! How a run ends.
ghost use Rattle.std.specs.Prelude.{◌≡◌};
ghost use Rattle.script_engine.specs.Status.{number_of};

/// How a run of a script ended. The program's exit status is its number.
#[derive(Clone, Copy, Debug, PartialEq, Eq)]
pub enum Status {
    /// The source was read to its end, and every reply was written.
    Ok,
    /// The words of the command line are no form; nothing was read or written.
    Usage,
    /// A read of the source failed.
    ReadFault,
    /// A write to the sink failed.
    WriteFault,
    /// Memory ran out.
    NoMemory,
    /// The source gave 2^30 bytes without its end.
    SourceSpent,
}

impl Status {
    /// The exit status: 0 for `Ok`, and 2 to 6 for the others in their order.
    pub fn number(self) -> u8
        ensures { result ≡ number_of self }
    {
        match self {
            Status::Ok => 0,
            Status::Usage => 2,
            Status::ReadFault => 3,
            Status::WriteFault => 4,
            Status::NoMemory => 5,
            Status::SourceSpent => 6,
        }
    }
}
