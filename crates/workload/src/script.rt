//! The lines of the script, step by step.
ghost use Rattle.std.specs.Prelude.{◌≡◌, ◌≤◌, ◌++◌, ◌*◌, ◌+◌, [], OnOk, codes, string_bytes};
ghost use Rattle.workload.specs.Names.{file_path, folder_count};
ghost use Rattle.workload.specs.Script.{below, both_lines, dir_line, edit_lines, empty_line, file_lines, folder_lines, line, new_line, pause_lines, put_line, tree_lines};

use crate::pieces::{FOLDER_SIZE, push_content, push_file, push_folder};
use crate::whole::MAX_FILES;
use std::alloc::AllocError;

// How many folders so many files lie in.
fn folder_count(n: u32) -> u32
    requires { n ≤ MAX_FILES }
    ensures count { result ≡ folder_count n }
    ensures few { result ≤ n }
{
    (n + (FOLDER_SIZE - 1)) / FOLDER_SIZE
}

// Writes the line of a file's content, and what stands behind it, at a root.
fn put_file(
    text: &mut String,
    root: &str,
    salt: u64,
    file: u32,
    more: &str,
) -> Result<(), AllocError>
    ensures { OnOk result (string_bytes text.new ≡ string_bytes text.old ++ put_line root.now salt file more.now) }
{
    text.push_str("edit ")?;
    text.push_str(root)?;
    text.push_str(" put ")?;
    push_file(text, file)?;
    text.push_str(" =")?;
    push_content(text, salt, file)?;
    text.push_str(more)?;
    text.push_str("\n")
}

// Writes the line of a folder.
fn push_dir(text: &mut String, folder: u32) -> Result<(), AllocError>
    ensures { OnOk result (string_bytes text.new ≡ string_bytes text.old ++ dir_line folder) }
{
    text.push_str("edit A dir ")?;
    push_folder(text, folder)?;
    text.push_str("\n")
}

// Writes the lines of the files in a folder.
fn push_files(text: &mut String, salt: u64, n: u32, folder: u32) -> Result<(), AllocError>
    requires most { n ≤ MAX_FILES }
    requires within { FOLDER_SIZE * folder ≤ n }
    ensures { OnOk result (string_bytes text.new ≡ string_bytes text.old ++ file_lines salt n folder) }
{
    let first = FOLDER_SIZE * folder;
    for file in 0..FOLDER_SIZE.min(n - first) {
        put_file(text, "A", salt, first + file, "")?;
    }
    Ok(())
}

// Writes a folder's line, and those of the files in it.
fn push_folder_lines(text: &mut String, salt: u64, n: u32, folder: u32) -> Result<(), AllocError>
    requires most { n ≤ MAX_FILES }
    requires within { FOLDER_SIZE * folder ≤ n }
    ensures { OnOk result (string_bytes text.new ≡ string_bytes text.old ++ folder_lines salt n folder) }
{
    push_dir(text, folder)?;
    push_files(text, salt, n, folder)
}

/// Writes the tree: each folder with its files, and what the ignores of version control leave out.
pub(crate) fn push_tree(text: &mut String, salt: u64, n: u32) -> Result<(), AllocError>
    requires { n ≤ MAX_FILES }
    ensures { OnOk result (string_bytes text.new ≡ string_bytes text.old ++ tree_lines salt n) }
{
    for folder in 0..folder_count(n) {
        push_folder_lines(text, salt, n, folder)?;
    }
    text.push_str("edit A dir .git\nedit A put .git/HEAD =ref\n")
}

// Writes what editors do with a file between the two cycles.
fn push_edits(text: &mut String, salt: u64, file: u32) -> Result<(), AllocError>
    ensures { OnOk result (string_bytes text.new ≡ string_bytes text.old ++ edit_lines salt file) }
{
    match file % 10 {
        0 => delete_file(text, file),
        1 => put_file(text, "A", salt, file, "a"),
        2 => {
            put_file(text, "A", salt, file, "a")?;
            put_file(text, "B", salt, file, "b")
        }
        _ => Ok(()),
    }
}

// Writes the line by which an editor deletes a file on B.
fn delete_file(text: &mut String, file: u32) -> Result<(), AllocError>
    ensures { OnOk result (string_bytes text.new ≡ string_bytes text.old ++ line (codes "edit B del " ++ file_path file)) }
{
    text.push_str("edit B del ")?;
    push_file(text, file)?;
    text.push_str("\n")
}

// Writes the line of a new file in a folder on B.
fn push_new(text: &mut String, folder: u32) -> Result<(), AllocError>
    ensures { OnOk result (string_bytes text.new ≡ string_bytes text.old ++ new_line folder) }
{
    text.push_str("edit B put ")?;
    push_folder(text, folder)?;
    text.push_str("/n =n\n")
}

/// Writes what editors do on both sides between the two cycles.
pub(crate) fn push_both(text: &mut String, salt: u64, n: u32) -> Result<(), AllocError>
    requires { n ≤ MAX_FILES }
    ensures { OnOk result (string_bytes text.new ≡ string_bytes text.old ++ both_lines salt n) }
{
    push_all_edits(text, salt, n)?;
    for folder in 0..folder_count(n) {
        push_new(text, folder)?;
    }
    Ok(())
}

// Writes what editors do with each file.
fn push_all_edits(text: &mut String, salt: u64, n: u32) -> Result<(), AllocError>
    ensures { OnOk result (string_bytes text.new ≡ string_bytes text.old ++ below n (edit_lines salt)) }
{
    for file in 0..n {
        push_edits(text, salt, file)?;
    }
    Ok(())
}

// Writes the line of an empty file in a folder on A.
fn push_empty(text: &mut String, folder: u32) -> Result<(), AllocError>
    ensures { OnOk result (string_bytes text.new ≡ string_bytes text.old ++ empty_line folder) }
{
    text.push_str("edit A put ")?;
    push_folder(text, folder)?;
    text.push_str("/m =\n")
}

/// Writes the empty files, and the cycle that is paused and resumed.
pub(crate) fn push_pause(text: &mut String, n: u32) -> Result<(), AllocError>
    requires { n ≤ MAX_FILES }
    ensures { OnOk result (string_bytes text.new ≡ string_bytes text.old ++ pause_lines n) }
{
    for folder in 0..folder_count(n) {
        push_empty(text, folder)?;
    }
    text.push_str(
        "sync flush --skip-wait w\nuntil w change\nstep w 5\nsync pause w\nstep w 20\nsync resume w\nsync flush w\n",
    )
}
