//! The pieces of lines: paths and contents.
ghost use Rattle.std.specs.Prelude.{◌≡◌, ◌+◌, ◌++◌, ◌∷◌, [], ◌<◌, ◌%◌, ◌^◌, OnOk, codes, decimal, string_bytes};
ghost use Rattle.workload.specs.Names.{content, file_path, folder_path, padded};

use itoa::Buffer;
use std::alloc::AllocError;

/// How many files a folder has.
pub(crate) const FOLDER_SIZE: u32 = 7;

// The digit of a number below ten.
fn digit(d: u32) -> char
    requires { d < 10 }
    ensures { result ≡ 48 + d }
{
    (b'0' + d as u8) as char
}

// Writes the last digit.
fn push_digit(text: &mut String, n: u32) -> Result<(), AllocError>
    ensures { OnOk result (string_bytes text.new ≡ string_bytes text.old ++ (48 + n % 10) ∷ []) }
{
    text.push(digit(n % 10))
}

// Writes a folder's path.
pub(crate) fn push_folder(text: &mut String, folder: u32) -> Result<(), AllocError>
    ensures { OnOk result (string_bytes text.new ≡ string_bytes text.old ++ folder_path folder) }
{
    text.push_str("d")?;
    push_digit(text, folder / 10 / 10 / 10)?;
    push_digit(text, folder / 10 / 10)?;
    push_digit(text, folder / 10)?;
    push_digit(text, folder)
}

// Writes a file's name.
fn push_name(text: &mut String, file: u32) -> Result<(), AllocError>
    ensures { OnOk result (string_bytes text.new ≡ string_bytes text.old ++ (codes "/f" ++ padded 5 file)) }
{
    text.push_str("/f")?;
    push_digit(text, file / 10 / 10 / 10 / 10)?;
    push_digit(text, file / 10 / 10 / 10)?;
    push_digit(text, file / 10 / 10)?;
    push_digit(text, file / 10)?;
    push_digit(text, file)
}

// Writes a file's path.
pub(crate) fn push_file(text: &mut String, file: u32) -> Result<(), AllocError>
    ensures { OnOk result (string_bytes text.new ≡ string_bytes text.old ++ file_path file) }
{
    push_folder(text, file / FOLDER_SIZE)?;
    push_name(text, file)
}

// Writes a number.
fn push_number(text: &mut String, n: u64) -> Result<(), AllocError>
    ensures { OnOk result (string_bytes text.new ≡ string_bytes text.old ++ decimal n) }
{
    let mut buffer = Buffer::new();
    text.push_str(buffer.format(n))
}

// Writes a file's content.
#[tactic(auto, unfolding(crate::specs::Names::content))]
pub(crate) fn push_content(text: &mut String, salt: u64, file: u32) -> Result<(), AllocError>
    ensures { OnOk result (string_bytes text.new ≡ string_bytes text.old ++ content salt file) }
{
    push_number(text, salt.wrapping_add(file as u64))
}
