//! How a payload is read.
ghost use Rattle.std.specs.Prelude.{◌≡◌, ◌⊎◌, IfOk, Ok, Err};
ghost use Rattle.std.specs.List.{AllByRecursion};
ghost use Rattle.frame_text.specs.Heads.{IsHead};
ghost use Rattle.frame_text.specs.Payloads.{IsWithin, parts_from, ReadsBody, ReadsLines, ReadsPayload, Spells};
ghost use Rattle.frame_text.specs.declared.payload.Payload.{Payload};
ghost use Rattle.frame_text.specs.declared.payload.PayloadError.TheVariants.{Bad, Memory};

use crate::cutting::cut;
use crate::head::Head;
use crate::payload::{Payload, PayloadError, payload_by};
use crate::reading::{read_head, read_line};
use crate::version::Version;
use mode_rules::AncestorLine;
use sqlite_items::Items;
use std::alloc::{AllocError, Global};

/// Reads a payload of a session: exactly what a writer writes of it, and a payload `v1 agree`.
///
/// It is refused exactly where the bytes spell no payload. Whether the ancestor can take it up is another question: see the fold.
/// There may be no memory for any bytes. Cost: their number.
pub fn read_payload(alloc: Global, bytes: &[u8]) -> Result<Payload, PayloadError>
    ensures value { IfOk result (Spells bytes.now) }
    ensures refused { result ≡ Err Bad → (payload : Payload) → Spells bytes.now payload → ⊥ }
    ensures known { (payload : Payload) → Spells bytes.now payload → (result ≡ Ok payload) ⊎ (result ≡ Err Memory) }
{
    read(alloc, bytes)
}

// The same, in one clause.
fn read(alloc: Global, bytes: &[u8]) -> Result<Payload, PayloadError>
    ensures { ReadsPayload bytes.now result }
{
    let (line, next) = cut(bytes, 0);
    match read_head(alloc, line) {
        Ok(Some(head)) => read_body(alloc, head, bytes, next),
        Ok(None) => Err(PayloadError::Bad),
        Err(_) => Err(PayloadError::Memory),
    }
}

// Reads what stands behind the first line.
fn read_body(
    alloc: Global,
    head: Head,
    text: &[u8],
    next: Option<usize>,
) -> Result<Payload, PayloadError>
    requires head { IsHead head }
    requires within { IsWithin text.now next }
    ensures { ReadsBody head (parts_from text.now next) result }
{
    match read_lines(alloc, head.version(), text, next) {
        Ok(Some(lines)) => match payload_by(head, lines) {
            Some(payload) => Ok(payload),
            None => Err(PayloadError::Bad),
        },
        Ok(None) => Err(PayloadError::Bad),
        Err(_) => Err(PayloadError::Memory),
    }
}

// Reads all lines from a byte on.
fn read_lines(
    alloc: Global,
    version: Version,
    text: &[u8],
    from: Option<usize>,
) -> Result<Option<Items<AncestorLine>>, AllocError>
    requires { IsWithin text.now from }
    ensures { IfOk result (ReadsLines version (parts_from text.now from)) }
{
    let mut lines = Items::new(alloc);
    let mut next = from;
    while let Some(place) = next {
        let (line, behind) = cut(text, place);
        match read_line(alloc, version, line) {
            Ok(Some(line)) => lines.push(line)?,
            Ok(None) => return Ok(None),
            Err(error) => return Err(error),
        }
        next = behind;
    }
    Ok(Some(lines))
}
