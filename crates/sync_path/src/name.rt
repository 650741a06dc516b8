//! A component of a path.
ghost use Rattle.std.specs.Prelude.{◌≡◌, ◌⊎◌, ◌↔◌, ◌==◌, OnOk, IfOk, IfErr, Some, Err};
ghost use Rattle.std.specs.Cmp.Lexicographic.{slice_cmp};
ghost use Rattle.std.specs.List.{list_all};
ghost use Rattle.std.specs.Ordering.{nat_cmp};
ghost use Rattle.sync_path.specs.Name.{is_name, IsName, has_name_form, has_name_len, is_dots, is_name_byte};
ghost use Rattle.sync_path.specs.declared.path_error.PathError.TheVariants.{Bad, Memory};

use crate::limits::MAX_NAME_LEN;
use crate::path_error::{BadPath, PathError};
use std::alloc::{AllocError, Global};
use std::cmp::Ordering;
use std::marker::Model;

/// A component of a path: 1 to 255 bytes of UTF-8, without `/`, without a byte below 0x20, and neither `.` nor `..`.
///
/// Contracts see a name as its bytes. Names are ordered by their bytes.
#[derive(Debug, Drop)]
pub struct Name {
    text: String,
}

impl Model for Name {
    ghost use Rattle.std.specs.Prelude.{ℕ, List, string_bytes};
    ghost use Rattle.sync_path.specs.Name.{IsName};

    ghost Value = { List ℕ };

    ghost view = { λ n. string_bytes n.text };

    ghost invariant = { λ n. IsName (string_bytes n.text) };
}

impl Name {
    /// Reads a name, which is the whole text. A text that is none is bad at place 0.
    ///
    /// Cost: the length of the text, of which at most 255 bytes are looked at; a longer one is refused by its length.
    pub fn read(alloc: Global, text: &str) -> Result<Name, PathError>
        ensures value { IfOk result (λ name. name ≡ text.now) }
        ensures accepted { OnOk result (IsName text.now) }
        ensures refused { (result ≡ Err (Bad (record { place = 0 }))) ↔ (¬ IsName text.now) }
        ensures errors { IfErr result (λ e. (e ≡ Bad (record { place = 0 })) ⊎ ((e ≡ Memory) × IsName text.now)) }
    {
        if !is_name(text) {
            return Err(PathError::Bad(BadPath { place: 0 }));
        }
        match String::from_str(alloc, text) {
            Ok(text) => Ok(Name { text }),
            Err(_) => Err(PathError::Memory),
        }
    }

    // The name of this text, which is one.
    pub(crate) fn of(alloc: Global, text: &str) -> Result<Name, AllocError>
        requires { IsName text.now }
        ensures { IfOk result (λ name. name ≡ text.now) }
    {
        match String::from_str(alloc, text) {
            Ok(text) => Ok(Name { text }),
            Err(error) => Err(error),
        }
    }

    /// The text of the name.
    pub fn as_str(&self) -> &str
        ensures value { result.now ≡ self.now }
        ensures name { IsName self.now }
    {
        self.text.as_str()
    }

    /// Another name with the same text. Cost: the length of the text.
    pub fn copy(&self, alloc: Global) -> Result<Name, AllocError>
        ensures value { IfOk result (λ name. name ≡ self.now) }
    {
        match String::from_str(alloc, self.as_str()) {
            Ok(text) => Ok(Name { text }),
            Err(error) => Err(error),
        }
    }
}

// Whether the text is a name.
pub(crate) fn is_name(text: &str) -> bool
    ensures { result ≡ is_name text.now }
{
    has_name_form(text)
}

// Whether the text, which is UTF-8 by its type, has the length and the bytes of a name.
fn has_name_form(text: &str) -> bool
    ensures { result ≡ has_name_form text.now }
{
    let bytes = text.as_bytes();
    has_name_len(bytes) && !is_dots(text) && has_name_bytes(bytes)
}

// Whether a name may have as many bytes.
fn has_name_len(bytes: &[u8]) -> bool
    ensures { result ≡ has_name_len bytes.now }
{
    1 <= bytes.len() && bytes.len() <= MAX_NAME_LEN
}

// Whether the text is `.` or `..`.
fn is_dots(text: &str) -> bool
    ensures { result ≡ is_dots text.now }
{
    text == "." || text == ".."
}

// Whether each byte may stand in a name.
fn has_name_bytes(bytes: &[u8]) -> bool
    ensures { result ≡ list_all is_name_byte bytes.now }
{
    bytes.iter().all(|b| 0x20 <= *b && *b != b'/')
}

impl PartialEq for Name {
    ghost use Rattle.std.specs.Cmp.{partial_equiv_from_equiv};
    ghost use Rattle.std.specs.Cmp.Lexicographic.{nat_list_eq_equiv};
    ghost use lib.Pointwise.{pointwise};

    ghost eq = { pointwise ◌==◌ };

    ghost laws = { partial_equiv_from_equiv nat_list_eq_equiv };

    fn eq(&self, other: &Name) -> bool {
        self.as_str() == other.as_str()
    }
}

impl Eq for Name {
    ghost use Rattle.std.specs.Cmp.Lexicographic.{nat_list_eq_equiv};

    ghost laws = { nat_list_eq_equiv };
}

impl PartialOrd for Name {
    ghost use Rattle.std.specs.Cmp.Lexicographic.{texts_po};

    ghost partial_cmp = { λ x y. Some (slice_cmp nat_cmp x y) };

    ghost laws = { texts_po };

    fn partial_cmp(&self, other: &Name) -> Option<Ordering> {
        Some(self.cmp(other))
    }
}

impl Ord for Name {
    ghost use Rattle.std.specs.Cmp.Lexicographic.{nat_list_cmp_total, texts_ties};
    ghost use Rattle.std.proofs.Common.{refl};

    ghost cmp = { slice_cmp nat_cmp };

    ghost total = { nat_list_cmp_total };

    ghost matches_partial_cmp = { λ _ _. refl };

    ghost matches_eq = { texts_ties };

    fn cmp(&self, other: &Name) -> Ordering {
        self.as_str().cmp(other.as_str())
    }
}
