//! Frames as they are read from a disk.
ghost use Rattle.std.specs.Prelude.{◌≡◌, ℕ, ◌+◌, ◌^◌, ◌<◌, ◌≤◌, List, [], length, take, drop, IfOk, IfErr, IfSome, IsSomeAnd, OnErr, IsErrOf, ◌≢◌, OnOk};
ghost use Rattle.std.specs.Int.{w64, from_be_bytes, to_be_bytes};
ghost use Rattle.fault_count.specs.Rose.{Rose};
ghost use Rattle.disk_model.specs.Disk.{OnTold, ReadsAt};
ghost use Rattle.frame_journal.specs.Reading.{payloads_of, EndsAs, IsWholeUpTo, IsHeadOf, IsFoundAt, EndsWithin};

use crate::error::OpenError;
use disk_model::{Disk, Failed};
use std::alloc::{AllocError, Global};

/// The byte of an open gate. Any other shuts it.
pub const OPEN: u8 = 1;

/// The byte that shuts a gate.
pub const SHUT: u8 = 0;

/// How many bytes a frame has before its payload: the gate and the length.
const HEAD_BYTES: usize = 9;

/// What stands behind the whole frames of a disk.
#[derive(Clone, Copy, Debug, PartialEq, Eq)]
pub enum Ending {
    /// A shut gate, or nothing, where the disk has at most one byte.
    Shut,
    /// An open gate, and no whole frame with one more byte behind it.
    Bad,
}

/// The payloads of a disk's whole frames, in order.
#[derive(Drop)]
pub struct Frames {
    pub payloads: Vec<Vec<u8>>,
    /// The place of the gate behind them.
    pub gate: u64,
    pub ending: Ending,
}

// What stands at a place.
#[derive(Drop)]
pub enum Found {
    Frame(Vec<u8>),
    Shut,
    Bad,
}

// The gate at a place, and the length behind an open one.
#[derive(Clone, Copy)]
pub enum Head {
    Shut,
    Short,
    Length(u64),
}

/// The whole frames of a disk, up to its first shut gate or bad frame, for who repairs it or only looks.
/// They are those before the number of a `BadFrame`. Nothing is changed. It costs the disk's bytes,
/// read once.
pub fn whole_frames<D: Disk>(alloc: Global, disk: &mut D) -> Result<Frames, OpenError>
    ensures read { IfOk result (λ read. OnTold (D.history disk.old) (λ now. IsWholeUpTo read.ending (payloads_of read.payloads.items) now.bytes)) }
    ensures same { D.history disk.new ≡ D.history disk.old }
    ensures no_bad { IfErr result (λ e. (n : ℕ) → e ≢ OpenError.BadFrame n) }
    ensures counts { D.faults disk.old ≤ D.faults disk.new }
    ensures quiet { OnOk result (D.faults disk.new ≡ D.faults disk.old) }
    ensures failed { IsErrOf result OpenError.DiskFault → Rose (D.faults disk.old) (D.faults disk.new) }
{
    let end = disk.length()?;
    if end <= 1 {
        return Ok(no_frames(alloc));
    }
    read_frames(alloc, disk, end)
}

/// No frames, and a gate at place 0.
pub fn no_frames(alloc: Global) -> Frames
    ensures payloads { payloads_of result.payloads.items ≡ [] }
    ensures gate { result.gate ≡ 0 }
    ensures ending { result.ending ≡ Ending.Shut }
{
    Frames {
        payloads: Vec::new(alloc),
        gate: 0,
        ending: Ending::Shut,
    }
}

/// The whole frames of a disk of `end` bytes.
pub fn read_frames<D: Disk>(alloc: Global, disk: &mut D, end: u64) -> Result<Frames, OpenError>
    requires some { 0 < end }
    requires long { OnTold (D.history disk.old) (λ now. (length now.bytes ≡ end) × (1 < end)) }
    requires bound { end < 2 ^ 63 }
    ensures read { IfOk result (λ read. OnTold (D.history disk.old) (λ now. EndsAs read.ending (payloads_of read.payloads.items) read.gate now.bytes)) }
    ensures within { IfOk result (λ read. read.gate < end) }
    ensures no_bad { IfErr result (λ e. (n : ℕ) → e ≢ OpenError.BadFrame n) }
    ensures same { D.history disk.new ≡ D.history disk.old }
    ensures counts { D.faults disk.old ≤ D.faults disk.new }
    ensures quiet { OnOk result (D.faults disk.new ≡ D.faults disk.old) }
    ensures failed { IsErrOf result OpenError.DiskFault → Rose (D.faults disk.old) (D.faults disk.new) }
{
    let mut payloads: Vec<Vec<u8>> = Vec::new(alloc);
    let mut place = 0;
    loop {
        match read_frame(alloc, disk, place, end)? {
            Found::Frame(payload) => {
                place += HEAD_BYTES as u64 + payload.len() as u64;
                payloads.push(payload)?;
            }
            Found::Shut => {
                return Ok(Frames {
                    payloads,
                    gate: place,
                    ending: Ending::Shut,
                });
            }
            Found::Bad => {
                return Ok(Frames {
                    payloads,
                    gate: place,
                    ending: Ending::Bad,
                });
            }
        }
    }
}

// What stands at a place of a disk of `end` bytes.
fn read_frame<D: Disk>(
    alloc: Global,
    disk: &mut D,
    place: u64,
    end: u64,
) -> Result<Found, OpenError>
    requires inside { place < end }
    requires told { OnTold (D.history disk.old) (λ now. length now.bytes ≡ end) }
    requires bound { end < 2 ^ 63 }
    ensures found { IfOk result (λ found. OnTold (D.history disk.old) (λ now. IsFoundAt found place now.bytes)) }
    ensures within { IfOk result (λ found. EndsWithin found place end) }
    ensures no_bad { IfErr result (λ e. (n : ℕ) → e ≢ OpenError.BadFrame n) }
    ensures same { D.history disk.new ≡ D.history disk.old }
    ensures counts { D.faults disk.old ≤ D.faults disk.new }
    ensures quiet { OnOk result (D.faults disk.new ≡ D.faults disk.old) }
    ensures failed { IsErrOf result OpenError.DiskFault → Rose (D.faults disk.old) (D.faults disk.new) }
{
    let count = match read_head(disk, place)? {
        Head::Shut => return Ok(Found::Shut),
        Head::Short => return Ok(Found::Bad),
        Head::Length(count) => count,
    };
    let left = end - place;
    if left <= HEAD_BYTES as u64 || count >= left - HEAD_BYTES as u64 {
        return Ok(Found::Bad);
    }
    match read_payload(alloc, disk, place + HEAD_BYTES as u64, count)? {
        Some(payload) => Ok(Found::Frame(payload)),
        None => Ok(Found::Bad),
    }
}

// So many bytes from a place on, where the disk has them.
fn read_payload<D: Disk>(
    alloc: Global,
    disk: &mut D,
    place: u64,
    count: u64,
) -> Result<Option<Vec<u8>>, OpenError>
    ensures length { IfOk result (λ read. IfSome read (λ payload. length payload.items ≡ count)) }
    ensures bytes { IfOk result (λ read. OnTold (D.history disk.old) (λ now. place + count ≤ length now.bytes
        → IsSomeAnd read (λ payload. payload.items ≡ take count (drop place now.bytes)))) }
    ensures no_bad { IfErr result (λ e. (n : ℕ) → e ≢ OpenError.BadFrame n) }
    ensures same { D.history disk.new ≡ D.history disk.old }
    ensures counts { D.faults disk.old ≤ D.faults disk.new }
    ensures quiet { OnOk result (D.faults disk.new ≡ D.faults disk.old) }
    ensures failed { IsErrOf result OpenError.DiskFault → Rose (D.faults disk.old) (D.faults disk.new) }
{
    let mut payload = zeros(alloc, count as usize)?;
    let got = read_into(disk, place, &mut payload)?;
    if got < payload.len() {
        return Ok(None);
    }
    Ok(Some(payload))
}

// Fills a vector.
fn read_into<D: Disk>(disk: &mut D, place: u64, into: &mut Vec<u8>) -> Result<usize, Failed>
    ensures bytes { IfOk result (λ n. OnTold (D.history disk.old) (λ now. ReadsAt now.bytes place into.old.items n into.new.items)) }
    ensures length { length into.new.items ≡ length into.old.items }
    ensures bound { IfOk result (λ n. n ≤ length into.old.items) }
    ensures same { D.history disk.new ≡ D.history disk.old }
    ensures counts { D.faults disk.old ≤ D.faults disk.new }
    ensures quiet { OnOk result (D.faults disk.new ≡ D.faults disk.old) }
    ensures failed { OnErr result (Rose (D.faults disk.old) (D.faults disk.new)) }
{
    disk.read(place, into)
}

// The head at a place.
fn read_head<D: Disk>(disk: &mut D, place: u64) -> Result<Head, Failed>
    requires { OnTold (D.history disk.old) (λ now. place < length now.bytes) }
    ensures head { IfOk result (λ head. OnTold (D.history disk.old) (λ now. IsHeadOf head (drop place now.bytes))) }
    ensures same { D.history disk.new ≡ D.history disk.old }
    ensures counts { D.faults disk.old ≤ D.faults disk.new }
    ensures quiet { OnOk result (D.faults disk.new ≡ D.faults disk.old) }
    ensures failed { IfErr result (λ _. Rose (D.faults disk.old) (D.faults disk.new)) }
{
    let mut head = [0u8; HEAD_BYTES];
    let got = disk.read(place, &mut head)?;
    Ok(head_of(&head[..got]))
}

// The head that these first bytes are.
fn head_of(head: &[u8]) -> Head
    ensures { (file : List ℕ) → 0 < length file → head.now ≡ take 9 file → IsHeadOf result file }
{
    if head.is_empty() {
        return Head::Short;
    }
    if head[0] != OPEN {
        return Head::Shut;
    }
    if head.len() < HEAD_BYTES {
        return Head::Short;
    }
    Head::Length(number_of(&head[1..HEAD_BYTES]))
}

// The number that eight bytes spell.
fn number_of(bytes: &[u8]) -> u64
    requires { length bytes.now ≡ 8 }
    ensures { to_be_bytes w64 result ≡ bytes.now }
{
    u64::from_be_bytes([
        bytes[0], bytes[1], bytes[2], bytes[3], bytes[4], bytes[5], bytes[6], bytes[7],
    ])
}

// So many zeros.
fn zeros(alloc: Global, count: usize) -> Result<Vec<u8>, AllocError>
    ensures { IfOk result (λ v. length v.items ≡ count) }
{
    vec![in alloc; 0; count]
}
