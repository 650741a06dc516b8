//! How the text of a path is read.
ghost use Rattle.std.specs.Prelude.{◌≡◌, ◌≤◌, ◌&&◌, length, IfOk, MatchOption, string_bytes};
ghost use Rattle.sync_path.specs.Buffer.{buffer_of};
ghost use Rattle.sync_path.specs.Name.{is_name};
ghost use Rattle.sync_path.specs.Path.{IsPath, has_room};
ghost use Rattle.sync_path.specs.PathText.{parts_of, IsBadPlace};

use crate::limits::{MAX_DEPTH, MAX_NAME_LEN, MAX_PATH_LEN};
use crate::name::is_name;
use std::alloc::{AllocError, Global};

/// Whether a name of so many bytes may stand behind so many names and begin at this place.
pub fn has_room(depth: usize, place: u32, len: usize) -> bool
    requires { len ≤ MAX_NAME_LEN }
    ensures { result ≡ has_room depth place len }
{
    depth < MAX_DEPTH && place as usize + len <= MAX_PATH_LEN as usize
}

// Whether a part may stand behind so many names and begin at this place.
fn may_follow(depth: usize, place: u32, part: &str) -> bool
    ensures { result ≡ (is_name part.now && has_room depth place (length part.now)) }
{
    is_name(part) && has_room(depth, place, part.len())
}

/// Where the first part begins that may not stand where it does, if there is one. It takes no memory.
pub fn bad_place(text: &str) -> Option<u32>
    ensures { MatchOption result (IsPath (parts_of text.now)) (IsBadPlace text.now) }
{
    if text.is_empty() {
        return None;
    }
    let mut depth = 0;
    let mut place = 0;
    for part in text.split('/') {
        if !may_follow(depth, place, part) {
            return Some(place);
        }
        depth += 1;
        place += part.len() as u32 + 1;
    }
    None
}

/// The buffer of the parts of a text.
pub fn buffer_of_text(alloc: Global, text: &str) -> Result<String, AllocError>
    requires { length text.now ≤ MAX_PATH_LEN }
    ensures { IfOk result (λ buffer. string_bytes buffer ≡ buffer_of (parts_of text.now)) }
{
    let mut buffer = String::new(alloc);
    if text.is_empty() {
        return Ok(buffer);
    }
    buffer.reserve_exact(text.len() + 1)?;
    for part in text.split('/') {
        buffer.push_str(part)?;
        buffer.push('\0')?;
    }
    Ok(buffer)
}
