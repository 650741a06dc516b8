//! Why a file's content was not seen.
ghost use Rattle.std.specs.Prelude.{◌≡◌, IfSome, is_some};
ghost use Rattle.std.specs.Fmt.{decimal};
ghost use Rattle.entry_tree.specs.ProblemKind.{problem_number, is_problem_text};

/// Why a scan did not see the content of a file that it found.
#[derive(Clone, Copy, Debug, PartialEq, Eq)]
pub enum ProblemKind {
    /// The file changed while it was read.
    Changed = 1,
    /// The file has more bytes than a session carries.
    TooLarge = 2,
    /// The file could not be read.
    Failed = 3,
}

impl ProblemKind {
    /// The kind whose number this is; none where the text is another.
    pub fn read(digit: &[u8]) -> Option<ProblemKind>
        ensures value { IfSome result (λ kind. decimal (problem_number kind) ≡ digit.now) }
        ensures found { is_some result ≡ is_problem_text digit.now }
    {
        if digit == b"1".as_slice() {
            return Some(ProblemKind::Changed);
        }
        if digit == b"2".as_slice() {
            return Some(ProblemKind::TooLarge);
        }
        if digit == b"3".as_slice() {
            return Some(ProblemKind::Failed);
        }
        None
    }

    /// Its number as it is written.
    pub fn digit(self) -> [u8; 1]
        ensures { result ≡ decimal (problem_number self) }
    {
        match self {
            ProblemKind::Changed => *b"1",
            ProblemKind::TooLarge => *b"2",
            ProblemKind::Failed => *b"3",
        }
    }

    /// The number that stands for it in text, from 1 to 3.
    pub fn number(self) -> u8
        ensures { result ≡ problem_number self }
    {
        self as u8
    }
}
