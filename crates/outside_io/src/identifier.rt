//! Identifiers of sixteen drawn bytes.
ghost use Rattle.std.specs.Prelude.{◌≡◌};
ghost use Rattle.outside_io.specs.Identifiers.{identifier};

use uuid::{Builder, Uuid};

/// The identifier of these sixteen bytes: a UUID of version 4 (RFC 9562). Byte 6 becomes `(b & 0x0f) | 0x40` and byte 8
/// `(b & 0x3f) | 0x80`, and all others stay. Contracts see it as its bytes.
pub fn make_identifier(bytes: [u8; 16]) -> Uuid
    ensures { result ≡ identifier bytes }
{
    Builder::from_random_bytes(bytes).into_uuid()
}
