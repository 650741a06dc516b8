//! The bytes of a text's characters, one behind the other.
ghost use Rattle.std.specs.Prelude.{◌≡◌};
ghost use Rattle.agent_proto.specs.Characters.{char_step, next_in, is_whole, bytes_due};

/// How much of a character's bytes has come.
#[derive(Clone, Copy, Debug)]
pub(crate) enum Begun {
    /// No character has begun that isn't whole.
    Whole,
    /// One byte is to come.
    One,
    /// Two bytes are to come.
    Two,
    /// Three bytes are to come.
    Three,
    /// Two bytes are to come, of which the next is from a0 on.
    AfterE0,
    /// Two bytes are to come, of which the next is at most 9f.
    AfterEd,
    /// Three bytes are to come, of which the next is from 90 on.
    AfterF0,
    /// Three bytes are to come, of which the next is at most 8f.
    AfterF4,
}

impl Begun {
    /// How much has come with this byte too, if a character goes on with it.
    pub(crate) fn with(self, byte: u8) -> Option<Begun>
        ensures { result ≡ char_step self byte }
    {
        match self {
            Begun::Whole => first(byte),
            Begun::One => next(0x80, 0xbf, byte, Begun::Whole),
            Begun::Two => next(0x80, 0xbf, byte, Begun::One),
            Begun::Three => next(0x80, 0xbf, byte, Begun::Two),
            Begun::AfterE0 => next(0xa0, 0xbf, byte, Begun::One),
            Begun::AfterEd => next(0x80, 0x9f, byte, Begun::One),
            Begun::AfterF0 => next(0x90, 0xbf, byte, Begun::Two),
            Begun::AfterF4 => next(0x80, 0x8f, byte, Begun::Two),
        }
    }

    /// Whether the last character is whole.
    pub(crate) fn is_whole(self) -> bool
        ensures { result ≡ is_whole self }
    {
        match self {
            Begun::Whole => true,
            _ => false,
        }
    }

    /// How many bytes are to come.
    pub(crate) fn bytes_due(self) -> u32
        ensures { result ≡ bytes_due self }
    {
        match self {
            Begun::Whole => 0,
            Begun::One => 1,
            Begun::Two | Begun::AfterE0 | Begun::AfterEd => 2,
            Begun::Three | Begun::AfterF0 | Begun::AfterF4 => 3,
        }
    }
}

// How much has come with the first byte of a character.
fn first(byte: u8) -> Option<Begun>
    ensures { result ≡ char_step Begun.Whole byte }
{
    match byte {
        0x00..=0x7f => Some(Begun::Whole),
        0x80..=0xc1 => None,
        0xc2..=0xdf => Some(Begun::One),
        0xe0 => Some(Begun::AfterE0),
        0xed => Some(Begun::AfterEd),
        0xe1..=0xef => Some(Begun::Two),
        0xf0 => Some(Begun::AfterF0),
        0xf1..=0xf3 => Some(Begun::Three),
        0xf4 => Some(Begun::AfterF4),
        _ => None,
    }
}

// How much has come with this byte, if it is one of these.
fn next(low: u8, high: u8, byte: u8, then: Begun) -> Option<Begun>
    ensures { result ≡ next_in low high byte then }
{
    if low <= byte && byte <= high {
        Some(then)
    } else {
        None
    }
}
