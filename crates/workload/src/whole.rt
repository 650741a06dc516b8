//! The whole script.
ghost use Rattle.std.specs.Prelude.{◌≡◌, ◌≤◌, IfOk, string_bytes};
ghost use Rattle.workload.specs.Script.{script};

use crate::script::{push_both, push_pause, push_tree};
use std::alloc::{AllocError, Global};

/// The greatest number of files.
pub const MAX_FILES: u32 = 20_000;

/// More than the bytes of the lines that stand whatever the files.
const PLAIN_ROOM: usize = 512;

/// More than the bytes that the lines of a file and its share of its folder's have.
const ROOM_PER_FILE: usize = 72;

/// The script of the workload with so many files, from 1 to [`MAX_FILES`]: seven files a folder, whose contents are the numbers
/// from `salt` on, wrapped at 2^64. Each line ends with LF.
///
/// It is written in one pass into one text, whose room is taken first. Cost: its length, about 51 bytes a file.
pub fn make(alloc: Global, salt: u64, n: u32) -> Result<String, AllocError>
    requires some { 1 ≤ n }
    requires most { n ≤ MAX_FILES }
    ensures { IfOk result (λ text. string_bytes text ≡ script salt n) }
{
    let mut text = String::with_capacity(alloc, PLAIN_ROOM + ROOM_PER_FILE * n as usize)?;
    push_tree(&mut text, salt, n)?;
    text.push_str("sync create --name=w --ignore-vcs A B\nsync flush w\n")?;
    push_both(&mut text, salt, n)?;
    text.push_str("sync flush w\n")?;
    push_pause(&mut text, n)?;
    Ok(text)
}
