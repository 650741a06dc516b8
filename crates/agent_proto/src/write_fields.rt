//! The fields of a message, one behind the other.
ghost use Rattle.std.specs.Prelude.{◌≡◌, ◌<◌, ◌++◌, ◌^◌, length, Some, OnOk};
ghost use Rattle.std.specs.List.{flat_map};
ghost use Rattle.agent_proto.specs.Fields.{number_field, bit_field, text_field, path_field, bytes_field, stamp_field, found_field, done_field, row_field, rows_field};

use entry_tree::{Entry, Stamp};
use roots_api::Rows;
use std::alloc::{AllocError, Global};
use sync_path::{Name, Path};

/// Adds a number of two bytes.
#[tactic(auto, unfolding(crate::specs::Fields::number_field))]
pub(crate) fn push_u16(out: &mut Vec<u8>, number: u16) -> Result<(), AllocError>
    ensures { OnOk result (out.new.items ≡ out.old.items ++ number_field 2 number) }
{
    out.extend_from_slice(&number.to_be_bytes())
}

/// Adds a number of four bytes.
#[tactic(auto, unfolding(crate::specs::Fields::number_field))]
pub(crate) fn push_u32(out: &mut Vec<u8>, number: u32) -> Result<(), AllocError>
    ensures { OnOk result (out.new.items ≡ out.old.items ++ number_field 4 number) }
{
    out.extend_from_slice(&number.to_be_bytes())
}

/// Adds a number of eight bytes.
#[tactic(auto, unfolding(crate::specs::Fields::number_field))]
pub(crate) fn push_u64(out: &mut Vec<u8>, number: u64) -> Result<(), AllocError>
    ensures { OnOk result (out.new.items ≡ out.old.items ++ number_field 8 number) }
{
    out.extend_from_slice(&number.to_be_bytes())
}

/// Adds a number of sixteen bytes.
#[tactic(auto, unfolding(crate::specs::Fields::number_field))]
pub(crate) fn push_u128(out: &mut Vec<u8>, number: u128) -> Result<(), AllocError>
    ensures { OnOk result (out.new.items ≡ out.old.items ++ number_field 16 number) }
{
    out.extend_from_slice(&number.to_be_bytes())
}

/// Adds a bit.
pub(crate) fn push_bit(out: &mut Vec<u8>, bit: bool) -> Result<(), AllocError>
    ensures { OnOk result (out.new.items ≡ out.old.items ++ bit_field bit) }
{
    if bit {
        out.push(1)?;
    } else {
        out.push(0)?;
    }
    Ok(())
}

/// Adds a name or a text.
pub(crate) fn push_text(out: &mut Vec<u8>, text: &[u8]) -> Result<(), AllocError>
    requires { length text.now < 2 ^ 16 }
    ensures { OnOk result (out.new.items ≡ out.old.items ++ text_field text.now) }
{
    push_u16(out, text.len() as u16)?;
    out.extend_from_slice(text)
}

/// Adds a path.
pub(crate) fn push_path(alloc: Global, out: &mut Vec<u8>, path: &Path) -> Result<(), AllocError>
    ensures { OnOk result (out.new.items ≡ out.old.items ++ path_field path.now) }
{
    let _ = path.names();
    let text = path.write(alloc)?;
    push_text(out, text.as_bytes())
}

// Adds the low four bytes of a count, which are all where a message isn't too long.
fn push_count(out: &mut Vec<u8>, count: usize) -> Result<(), AllocError>
    ensures { OnOk result (out.new.items ≡ out.old.items ++ number_field 4 count) }
{
    let low = (count % 0x1_0000_0000) as u32;
    push_u32(out, low)
}

/// Adds bytes.
pub(crate) fn push_bytes(out: &mut Vec<u8>, bytes: &[u8]) -> Result<(), AllocError>
    ensures { OnOk result (out.new.items ≡ out.old.items ++ bytes_field bytes.now) }
{
    push_count(out, bytes.len())?;
    out.extend_from_slice(bytes)
}

/// Adds a stamp.
pub(crate) fn push_stamp(out: &mut Vec<u8>, stamp: Stamp) -> Result<(), AllocError>
    ensures { OnOk result (out.new.items ≡ out.old.items ++ stamp_field stamp) }
{
    push_u128(out, stamp.0)
}

/// Adds an entry.
pub(crate) fn push_entry(out: &mut Vec<u8>, entry: &Entry) -> Result<(), AllocError>
    ensures { OnOk result (out.new.items ≡ out.old.items ++ found_field (Some entry.now)) }
{
    match entry {
        Entry::Dir => out.push(1)?,
        Entry::File(stamp, exec) => {
            out.push(2)?;
            push_stamp(out, *stamp)?;
            push_bit(out, *exec)?;
        }
        Entry::Link(text) => {
            out.push(3)?;
            push_text(out, text.as_str().as_bytes())?;
        }
        Entry::Other => out.push(4)?,
    }
    Ok(())
}

/// Adds what stands at a path, if anything.
pub(crate) fn push_found(out: &mut Vec<u8>, found: &Option<Entry>) -> Result<(), AllocError>
    ensures { OnOk result (out.new.items ≡ out.old.items ++ found_field found.now) }
{
    match found {
        None => {
            out.push(0)?;
            Ok(())
        }
        Some(entry) => push_entry(out, entry),
    }
}

/// Adds a stamp, if there is one.
pub(crate) fn push_done(out: &mut Vec<u8>, stamp: Option<Stamp>) -> Result<(), AllocError>
    ensures { OnOk result (out.new.items ≡ out.old.items ++ done_field stamp) }
{
    match stamp {
        None => {
            out.push(0)?;
            Ok(())
        }
        Some(stamp) => {
            out.push(1)?;
            push_stamp(out, stamp)
        }
    }
}

// Adds a row.
fn push_row(out: &mut Vec<u8>, name: &Name, entry: &Entry) -> Result<(), AllocError>
    ensures { OnOk result (out.new.items ≡ out.old.items ++ row_field (name.now, entry.now)) }
{
    push_text(out, name.as_str().as_bytes())?;
    push_entry(out, entry)
}

/// Adds a listing.
pub(crate) fn push_rows(out: &mut Vec<u8>, rows: &Rows) -> Result<(), AllocError>
    ensures { OnOk result (out.new.items ≡ out.old.items ++ rows_field rows.now) }
{
    push_count(out, rows.len())?;
    for (name, entry) in rows.as_slice() {
        push_row(out, name, entry)?;
    }
    Ok(())
}
