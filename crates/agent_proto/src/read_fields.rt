//! The fields of a message, read one behind the other.
ghost use Rattle.std.specs.Prelude.{◌≡◌, ◌==◌, ◌≤◌, ◌<◌, ◌^◌, ℕ, cond, Some, None, length, IfOk, IfSome};
ghost use Rattle.std.specs.Option.{option_copied};
ghost use Rattle.mux_frames.specs.Numbers.{value};
ghost use Rattle.entry_tree.specs.declared.entry.Entry.{Entry};
ghost use Rattle.entry_tree.specs.declared.entry.Entry.TheVariants.{File};
ghost use Rattle.agent_proto.specs.Reading.{Took, byte_in, front_in, number_in, sized_in, bit_of, bit_in, stamp_in, path_by, path_in, name_by, name_in, text_by, text_in, both, mapped, found_by, found_in, replaced_by, replaced_in, entry_in, tracked_in, file_in, done_in, rows_by, rows_in, piece_by, piece_in};

use entry_tree::{Digest, Entry, Stamp, Text, TextError};
use roots_api::{Content, FileEntry, Leaf, MAX_PIECE, Rows, Tracked};
use std::alloc::{AllocError, Global};
use std::marker::Model;
use sync_path::{Name, Path, PathError};

/// The bytes of a message that are left to read. Contracts see the list of them.
#[derive(Drop)]
pub(crate) struct Fields<'a> {
    left: &'a [u8],
}

impl<'a> Model for Fields<'a> {
    ghost use Rattle.std.specs.Prelude.{ℕ, List};

    ghost Value = { List ℕ };

    ghost view = { λ f. f.left.now };
}

impl<'a> Fields<'a> {
    /// All of these bytes.
    pub(crate) fn of(bytes: &'a [u8]) -> Fields<'a>
        ensures { result ≡ bytes.now }
    {
        Fields { left: bytes }
    }

    /// Whether no byte is left.
    pub(crate) fn is_done(&self) -> bool
        ensures { result ≡ (length self.now == 0) }
    {
        self.left.is_empty()
    }

    /// The next byte.
    pub(crate) fn byte(&mut self) -> Option<u8>
        ensures { Took byte_in self.old result self.new }
    {
        match self.left.split_first() {
            Some((byte, rest)) => {
                self.left = rest;
                Some(*byte)
            }
            None => None,
        }
    }

    // The next bytes, so many.
    fn front(&mut self, size: usize) -> Option<&'a [u8]>
        ensures value { Took (front_in size) self.old (option_copied result) self.new }
        ensures len { IfSome result (λ front. length front.now ≡ size) }
    {
        if self.left.len() < size {
            return None;
        }
        let (front, rest) = self.left.split_at(size);
        self.left = rest;
        Some(front)
    }

    // The next number, of so many bytes.
    fn number(&mut self, width: usize) -> Option<u128>
        requires { width ≤ 16 }
        ensures value { Took (number_in width) self.old result self.new }
        ensures range { IfSome result (λ number. number < 256 ^ width) }
    {
        match self.front(width) {
            Some(digits) => Some(number_of(digits)),
            None => None,
        }
    }

    /// The next number of four bytes.
    pub(crate) fn u32(&mut self) -> Option<u32>
        ensures { Took (number_in 4) self.old result self.new }
    {
        match self.number(4) {
            Some(number) => Some(number as u32),
            None => None,
        }
    }

    /// The next number of eight bytes.
    pub(crate) fn u64(&mut self) -> Option<u64>
        ensures { Took (number_in 8) self.old result self.new }
    {
        match self.number(8) {
            Some(number) => Some(number as u64),
            None => None,
        }
    }

    /// The next number of sixteen bytes.
    pub(crate) fn u128(&mut self) -> Option<u128>
        ensures { Took (number_in 16) self.old result self.new }
    {
        self.number(16)
    }

    // As many bytes as a number of two bytes says.
    fn short(&mut self) -> Option<&'a [u8]>
        ensures { Took (sized_in 2) self.old (option_copied result) self.new }
    {
        match self.number(2) {
            Some(size) => self.front(size as usize),
            None => None,
        }
    }

    // As many bytes as a number of four bytes says.
    fn long(&mut self) -> Option<&'a [u8]>
        ensures { Took (sized_in 4) self.old (option_copied result) self.new }
    {
        match self.number(4) {
            Some(size) => self.front(size as usize),
            None => None,
        }
    }

    /// The next bit.
    pub(crate) fn bit(&mut self) -> Option<bool>
        ensures { Took bit_in self.old result self.new }
    {
        match self.byte() {
            Some(byte) => bit_of(byte),
            None => None,
        }
    }

    /// The next stamp.
    pub(crate) fn stamp(&mut self) -> Option<Stamp>
        ensures { Took stamp_in self.old result self.new }
    {
        match self.number(16) {
            Some(number) => Some(Stamp(number)),
            None => None,
        }
    }

    /// The next digest.
    pub(crate) fn digest(&mut self) -> Option<Digest>
        ensures { Took (front_in 32) self.old result self.new }
    {
        match self.front(32) {
            Some(bytes) => Some(digest_of(bytes)),
            None => None,
        }
    }

    /// The next path.
    pub(crate) fn path(&mut self, alloc: Global) -> Result<Option<Path>, AllocError>
        ensures { IfOk result (λ path. Took path_in self.old path self.new) }
    {
        match self.short() {
            Some(text) => path_by(alloc, text),
            None => Ok(None),
        }
    }

    /// The next name.
    pub(crate) fn name(&mut self, alloc: Global) -> Result<Option<Name>, AllocError>
        ensures { IfOk result (λ name. Took name_in self.old name self.new) }
    {
        match self.short() {
            Some(text) => name_by(alloc, text),
            None => Ok(None),
        }
    }

    /// The next text of a link.
    pub(crate) fn text(&mut self, alloc: Global) -> Result<Option<Text>, AllocError>
        ensures { IfOk result (λ text. Took text_in self.old text self.new) }
    {
        match self.short() {
            Some(text) => text_by(alloc, text),
            None => Ok(None),
        }
    }

    /// The next bytes, as many as they say.
    pub(crate) fn bytes(&mut self, alloc: Global) -> Result<Option<Content>, AllocError>
        ensures { IfOk result (λ bytes. Took (sized_in 4) self.old bytes self.new) }
    {
        match self.long() {
            Some(bytes) => copied(alloc, bytes),
            None => Ok(None),
        }
    }

    /// The next bytes of a piece, at most 65,536.
    pub(crate) fn piece(&mut self, alloc: Global) -> Result<Option<Content>, AllocError>
        ensures { IfOk result (λ bytes. Took piece_in self.old bytes self.new) }
    {
        match self.long() {
            Some(bytes) => piece_by(alloc, bytes),
            None => Ok(None),
        }
    }

    /// What is said to stand at a path.
    pub(crate) fn found(&mut self, alloc: Global) -> Result<Option<Option<Entry>>, AllocError>
        ensures { IfOk result (λ found. Took found_in self.old found self.new) }
    {
        match self.byte() {
            Some(byte) => self.found_by(alloc, byte),
            None => Ok(None),
        }
    }

    // What stands behind the byte that says which entry it is.
    fn found_by(&mut self, alloc: Global, byte: u8) -> Result<Option<Option<Entry>>, AllocError>
        ensures { IfOk result (λ found. Took (found_by byte) self.old found self.new) }
    {
        match byte {
            0 => Ok(Some(None)),
            1 => Ok(Some(Some(Entry::Dir))),
            2 => Ok(self.file()),
            3 => self.link(alloc),
            4 => Ok(Some(Some(Entry::Other))),
            _ => Ok(None),
        }
    }

    // A file, behind its byte.
    fn file(&mut self) -> Option<Option<Entry>>
        ensures { Took (λ bytes. mapped (λ file. Some (Entry.File file.0 file.1))
            (both stamp_in bit_in bytes)) self.old result self.new }
    {
        let Some(stamp) = self.stamp() else {
            return None;
        };
        match self.bit() {
            Some(exec) => Some(Some(Entry::File(stamp, exec))),
            None => None,
        }
    }

    // A link, behind its byte.
    fn link(&mut self, alloc: Global) -> Result<Option<Option<Entry>>, AllocError>
        ensures { IfOk result (λ found. Took (λ bytes. mapped (λ text. Some (Entry.Link text))
            (text_in bytes)) self.old found self.new) }
    {
        match self.text(alloc) {
            Ok(Some(text)) => Ok(Some(Some(Entry::Link(text)))),
            Ok(None) => Ok(None),
            Err(error) => Err(error),
        }
    }

    // The next entry, which is there.
    fn entry(&mut self, alloc: Global) -> Result<Option<Entry>, AllocError>
        ensures { IfOk result (λ entry. Took entry_in self.old entry self.new) }
    {
        match self.found(alloc) {
            Ok(Some(Some(entry))) => Ok(Some(entry)),
            Ok(Some(None)) => Ok(None),
            Ok(None) => Ok(None),
            Err(error) => Err(error),
        }
    }

    /// What is expected where a file or a link is put.
    pub(crate) fn replaced(&mut self, alloc: Global) -> Result<Option<Option<Leaf>>, AllocError>
        ensures { IfOk result (λ expected. Took replaced_in self.old expected self.new) }
    {
        match self.found(alloc) {
            Ok(Some(found)) => Ok(replaced_by(found)),
            Ok(None) => Ok(None),
            Err(error) => Err(error),
        }
    }

    /// The next entry, a folder, a file or a link.
    pub(crate) fn tracked(&mut self, alloc: Global) -> Result<Option<Tracked>, AllocError>
        ensures { IfOk result (λ expected. Took tracked_in self.old expected self.new) }
    {
        match self.found(alloc) {
            Ok(Some(Some(entry))) => Ok(Tracked::of(entry)),
            Ok(Some(None)) => Ok(None),
            Ok(None) => Ok(None),
            Err(error) => Err(error),
        }
    }

    /// The next entry, a file.
    pub(crate) fn file_entry(&mut self, alloc: Global) -> Result<Option<FileEntry>, AllocError>
        ensures { IfOk result (λ expected. Took file_in self.old expected self.new) }
    {
        match self.found(alloc) {
            Ok(Some(Some(entry))) => Ok(FileEntry::of(&entry)),
            Ok(Some(None)) => Ok(None),
            Ok(None) => Ok(None),
            Err(error) => Err(error),
        }
    }

    /// A stamp that there may be.
    pub(crate) fn done(&mut self) -> Option<Option<Stamp>>
        ensures { Took done_in self.old result self.new }
    {
        match self.byte() {
            Some(0) => Some(None),
            Some(1) => match self.stamp() {
                Some(stamp) => Some(Some(stamp)),
                None => None,
            },
            _ => None,
        }
    }

    /// The rows of a listing.
    pub(crate) fn rows(&mut self, alloc: Global) -> Result<Option<Rows>, AllocError>
        ensures { IfOk result (λ rows. Took rows_in self.old rows self.new) }
    {
        match self.u32() {
            Some(count) => self.rows_by(alloc, count),
            None => Ok(None),
        }
    }

    // So many rows.
    fn rows_by(&mut self, alloc: Global, count: u32) -> Result<Option<Rows>, AllocError>
        ensures { IfOk result (λ rows. Took (rows_by count) self.old rows self.new) }
    {
        let mut rows = Rows::new(alloc);
        for _row in 0..count {
            let Some(name) = self.name(alloc)? else {
                return Ok(None);
            };
            let Some(entry) = self.entry(alloc)? else {
                return Ok(None);
            };
            rows.push(name, entry)?;
        }
        Ok(Some(rows))
    }
}

// The number that these bytes are, high byte first.
fn number_of(digits: &[u8]) -> u128
    requires { length digits.now ≤ 16 }
    ensures value { result ≡ value digits.now }
    ensures range { result < 256 ^ length digits.now }
{
    let mut number = 0u128;
    for digit in digits {
        number = number * 256 + *digit as u128;
    }
    number
}

// The digest that is these bytes.
fn digest_of(bytes: &[u8]) -> Digest
    requires { length bytes.now ≡ 32 }
    ensures { result ≡ bytes.now }
{
    let mut digest = [0; 32];
    digest.copy_from_slice(bytes);
    Digest::from_bytes(digest)
}

// The bit that the byte stands for.
fn bit_of(byte: u8) -> Option<bool>
    ensures { result ≡ bit_of byte }
{
    match byte {
        0 => Some(false),
        1 => Some(true),
        _ => None,
    }
}

// The path with this text, if there is one.
fn path_by(alloc: Global, text: &[u8]) -> Result<Option<Path>, AllocError>
    ensures { IfOk result (λ path. path ≡ path_by text.now) }
{
    match str::from_utf8(text) {
        Ok(text) => match Path::read(alloc, text) {
            Ok(path) => Ok(Some(path)),
            Err(PathError::Bad(_)) => Ok(None),
            Err(PathError::Memory) => Err(AllocError),
        },
        Err(_) => Ok(None),
    }
}

// The name with this text, if there is one.
fn name_by(alloc: Global, text: &[u8]) -> Result<Option<Name>, AllocError>
    ensures { IfOk result (λ name. name ≡ name_by text.now) }
{
    match str::from_utf8(text) {
        Ok(text) => match Name::read(alloc, text) {
            Ok(name) => Ok(Some(name)),
            Err(PathError::Bad(_)) => Ok(None),
            Err(PathError::Memory) => Err(AllocError),
        },
        Err(_) => Ok(None),
    }
}

// The text that is these bytes, if there is one.
fn text_by(alloc: Global, text: &[u8]) -> Result<Option<Text>, AllocError>
    ensures { IfOk result (λ t. t ≡ text_by text.now) }
{
    match str::from_utf8(text) {
        Ok(text) => match Text::read(alloc, text) {
            Ok(text) => Ok(Some(text)),
            Err(TextError::BadLength) => Ok(None),
            Err(TextError::Memory) => Err(AllocError),
        },
        Err(_) => Ok(None),
    }
}

// A copy of these bytes.
fn copied(alloc: Global, bytes: &[u8]) -> Result<Option<Content>, AllocError>
    ensures { IfOk result (λ content. content ≡ Some bytes.now) }
{
    match Content::of(alloc, bytes) {
        Ok(content) => Ok(Some(content)),
        Err(error) => Err(error),
    }
}

// A copy of these bytes, if a piece has no more.
fn piece_by(alloc: Global, bytes: &[u8]) -> Result<Option<Content>, AllocError>
    ensures { IfOk result (λ content. content ≡ piece_by bytes.now) }
{
    if bytes.len() <= MAX_PIECE {
        copied(alloc, bytes)
    } else {
        Ok(None)
    }
}

// What is expected, if it can be replaced.
fn replaced_by(found: Option<Entry>) -> Option<Option<Leaf>>
    ensures { result ≡ replaced_by found }
{
    match found {
        None => Some(None),
        Some(entry) => match Leaf::of(entry) {
            Some(leaf) => Some(Some(leaf)),
            None => None,
        },
    }
}
