//! Reads the parts of a pattern.
ghost use Rattle.ignore_glob.specs.Reading.{ReadsParts};

use crate::fault::Fault;
use crate::limits::MAX_PARTS;
use crate::piece::Part;
use crate::read_part::read_part;
use crate::text::cut_first;
use std::alloc::Global;

/// The parts of a text that is cut at each `/`.
pub(crate) fn read_parts(alloc: Global, text: &str) -> Result<Vec<Part>, Fault>
    ensures { ReadsParts text.now result }
{
    let mut parts = Vec::new(alloc);
    let mut left = text;
    loop {
        let (first, more) = cut_first(left);
        let place = text.len() - left.len();
        if parts.len() == MAX_PARTS {
            return Err(Fault::At(place));
        }
        match read_part(alloc, first) {
            Ok(part) => parts.push(part)?,
            Err(Fault::At(offset)) => return Err(Fault::At(place + offset)),
            Err(Fault::Memory) => return Err(Fault::Memory),
        }
        match more {
            Some(behind) => left = behind,
            None => return Ok(parts),
        }
    }
}
