//! The digest of a file's content.
ghost use Rattle.std.specs.Prelude.{◌≡◌, ◌==◌, true, IfOk, IfSome, is_some, string_bytes};
ghost use Rattle.entry_tree.specs.Digest.{IsDigest, is_digest_text};
ghost use Rattle.hex.specs.Hex.{encode_lower};
ghost use Rattle.line_words.specs.Lines.{AreBytes};
ghost use Rattle.sha2.specs.Sha256.{sha256};

use hex::FromHex;
use sha2::Sha256;
use std::alloc::{AllocError, Global};
use std::marker::Model;

/// A SHA-256 digest (FIPS 180-4), which names a file's content. Contracts see its 32 bytes.
#[derive(Clone, Copy, Debug)]
pub struct Digest {
    bytes: [u8; 32],
}

impl Model for Digest {
    ghost use Rattle.std.specs.Prelude.{ℕ, List};

    ghost Value = { List ℕ };

    ghost view = { λ d. d.bytes };

    ghost inverse = { λ bytes. record { bytes = bytes } };
}

impl Digest {
    /// The digest of these bytes. Cost: their number.
    pub fn of(bytes: &[u8]) -> Digest
        ensures { result ≡ sha256 bytes.now }
    {
        Digest {
            bytes: <Sha256 as sha2::Digest>::digest(bytes),
        }
    }

    /// The digest that is these 32 bytes.
    pub fn from_bytes(bytes: [u8; 32]) -> Digest
        ensures { result ≡ bytes }
    {
        Digest { bytes }
    }

    /// The digest as 64 lower-case hexadecimal digits. It takes no memory.
    pub fn digits(&self) -> [u8; 64]
        ensures { result ≡ encode_lower self.now }
    {
        let mut digits = [0; 64];
        let _ = hex::encode_to_slice(&self.bytes, &mut digits);
        digits
    }

    /// The digest as 64 lower-case hexadecimal digits, which `read` reads.
    pub fn write(&self, alloc: Global) -> Result<String, AllocError>
        ensures value { IfOk result (λ digits. string_bytes digits ≡ encode_lower self.now) }
        ensures read { IfOk result (λ digits. is_digest_text (string_bytes digits) ≡ true) }
    {
        digits_of(alloc, &self.bytes)
    }

    /// The digest that these 64 lower-case hexadecimal digits spell; none where the text is another.
    pub fn read(digits: &[u8]) -> Option<Digest>
        ensures value { IfSome result (λ digest. encode_lower digest ≡ digits.now) }
        ensures digest { IfSome result (λ digest. IsDigest digest × AreBytes digest) }
        ensures found { is_some result ≡ is_digest_text digits.now }
    {
        let Ok(bytes) = <[u8; 32] as FromHex>::from_hex(digits) else {
            return None;
        };
        let digest = Digest { bytes };
        if digest.digits().as_slice() == digits {
            Some(digest)
        } else {
            None
        }
    }

    /// The 32 bytes of the digest.
    pub fn as_bytes(&self) -> &[u8; 32]
        ensures value { result.now ≡ self.now }
        ensures digest { IsDigest self.now }
    {
        &self.bytes
    }
}

// The digits of 32 bytes.
fn digits_of(alloc: Global, bytes: &[u8]) -> Result<String, AllocError>
    requires { IsDigest bytes.now }
    ensures value { IfOk result (λ digits. string_bytes digits ≡ encode_lower bytes.now) }
    ensures read { IfOk result (λ digits. is_digest_text (string_bytes digits) ≡ true) }
{
    hex::encode(alloc, bytes)
}

impl PartialEq for Digest {
    ghost use Rattle.std.specs.Cmp.{partial_equiv_from_equiv};
    ghost use Rattle.std.specs.Cmp.Lexicographic.{nat_list_eq_equiv};
    ghost use lib.Pointwise.{pointwise};

    ghost eq = { pointwise ◌==◌ };

    ghost laws = { partial_equiv_from_equiv nat_list_eq_equiv };

    fn eq(&self, other: &Digest) -> bool {
        self.bytes == other.bytes
    }
}

impl Eq for Digest {
    ghost use Rattle.std.specs.Cmp.Lexicographic.{nat_list_eq_equiv};

    ghost laws = { nat_list_eq_equiv };
}
