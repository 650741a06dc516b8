//! Where in the text of a path its first bytes end.
ghost use Rattle.std.specs.Prelude.{◌≡◌};
ghost use Rattle.agent_proto.specs.PathPlaces.{name_start, is_good_name, is_name_end, behind_slash, behind_letter, path_step, can_end};

use crate::character::Begun;

/// Where in the text of a path its first bytes end.
#[derive(Clone, Copy, Debug)]
pub(crate) struct PathPlace {
    /// How much of a character's bytes has come.
    begun: Begun,
    /// How many bytes the name has so far.
    len: u8,
    /// Whether each of them is a `.`.
    dots: bool,
    /// How many names may stand behind this one.
    names: u8,
}

impl PathPlace {
    /// The place before a name, behind which so many may stand.
    pub(crate) fn start(names: u8) -> PathPlace
        ensures { result ≡ name_start names }
    {
        PathPlace {
            begun: Begun::Whole,
            len: 0,
            dots: true,
            names,
        }
    }

    /// The place behind this byte, if a path goes on with it.
    pub(crate) fn with(self, byte: u8) -> Option<PathPlace>
        ensures { result ≡ path_step self byte }
    {
        if byte == b'/' {
            self.behind_slash()
        } else {
            self.behind_letter(byte)
        }
    }

    // The place behind a `/`.
    fn behind_slash(self) -> Option<PathPlace>
        ensures { result ≡ behind_slash self }
    {
        if self.is_name_end() && self.names > 0 {
            Some(PathPlace::start(self.names - 1))
        } else {
            None
        }
    }

    // The place behind a byte of the name.
    fn behind_letter(self, byte: u8) -> Option<PathPlace>
        ensures { result ≡ behind_letter self byte }
    {
        if byte < 32 || self.len == 255 {
            return None;
        }
        match self.begun.with(byte) {
            Some(begun) => Some(PathPlace {
                begun,
                len: self.len + 1,
                dots: self.dots && byte == b'.',
                names: self.names,
            }),
            None => None,
        }
    }

    // Whether the bytes of the name are some, and not `.` or `..`.
    fn is_good_name(self) -> bool
        ensures { result ≡ is_good_name self }
    {
        self.len > 0 && !(self.dots && self.len <= 2)
    }

    /// Whether a name ends here.
    pub(crate) fn is_name_end(self) -> bool
        ensures { result ≡ is_name_end self }
    {
        self.begun.is_whole() && self.is_good_name()
    }

    /// Whether a path goes on from here with so many bytes, and ends with them.
    pub(crate) fn can_end(self, left: u32) -> bool
        ensures { result ≡ can_end self left }
    {
        let due = self.begun.bytes_due();
        let len = self.len as u32 + due;
        if left < due || len > 255 {
            return false;
        }
        if self.len as u64 + left as u64 > 255 + 256 * self.names as u64 {
            return false;
        }
        if left == due {
            due > 0 || self.is_good_name()
        } else {
            len < 255 || due + 1 < left
        }
    }
}
