//! A file of the system as a disk.
ghost use Rattle.std.specs.Prelude.{◌≡◌, ℕ, ◌+◌, ◌^◌, ◌<◌, ◌≤◌, [], length, IfOk, OnOk, OnErr, IsErr};
ghost use Rattle.fault_count.specs.Rose.{Rose};
ghost use Rattle.disk_model.specs.Disk.{calls_after};

use crate::disk::{Disk, Failed, MOST_BYTES};
use fault_count::count_fault;
use std::fs::{File, OpenOptions, TryLockError};
use std::io;
use std::os::unix::fs::FileExt;
use std::path::Path;
use std::rt::Files;

/// A file of the system. It tells no content. It counts its calls, and as faults those in which the
/// system answered an error. Each count stays at 2^64 - 1.
#[derive(Drop)]
pub struct FileDisk {
    file: File,
    faults: u64,
    calls: u64,
}

impl FileDisk {
    /// A disk over a file that is open for reading and writing.
    pub fn new(file: File) -> FileDisk
        ensures history { ⟦<FileDisk as Disk>⟧.history result ≡ [] }
        ensures faults { ⟦<FileDisk as Disk>⟧.faults result ≡ 0 }
        ensures calls { ⟦<FileDisk as Disk>⟧.calls result ≡ 0 }
    {
        FileDisk {
            file,
            faults: 0,
            calls: 0,
        }
    }

    /// A disk over the file at `path`, which is made where there is none. The folder that it stands
    /// in is synced, so that a crash keeps the file's name. The file is locked until the disk is
    /// dropped: one that is locked elsewhere is an error, `ErrorKind::WouldBlock`. The lock is
    /// advisory, as that of `flock`.
    pub fn open<R: Files<File = File>>(rt: &R, path: &str) -> io::Result<FileDisk>
        ensures history { IfOk result (λ disk. ⟦<FileDisk as Disk>⟧.history disk ≡ []) }
        ensures faults { IfOk result (λ disk. ⟦<FileDisk as Disk>⟧.faults disk ≡ 0) }
        ensures calls { IfOk result (λ disk. ⟦<FileDisk as Disk>⟧.calls disk ≡ 0) }
    {
        let file = OpenOptions::new()
            .read(true)
            .write(true)
            .create(true)
            .open(rt, path)?;
        lock(&file)?;
        sync_folder(rt, path)?;
        Ok(FileDisk::new(file))
    }

    // Counts the call, and an answer of the system that is an error.
    fn count<T>(&mut self, answer: io::Result<T>) -> Result<T, Failed>
        ensures ok { IfOk result (λ x. answer ≡ Ok x) }
        ensures err { OnErr result (IsErr answer) }
        ensures called { self.new.calls ≡ calls_after self.old.calls 1 }
        ensures counts { self.old.faults ≤ self.new.faults }
        ensures quiet { OnOk result (self.new.faults ≡ self.old.faults) }
        ensures failed { OnErr result (Rose self.old.faults self.new.faults) }
    {
        self.calls = self.calls.saturating_add(1);
        match answer {
            Ok(x) => Ok(x),
            Err(_) => {
                count_fault(&mut self.faults);
                Err(Failed)
            }
        }
    }
}

impl Disk for FileDisk {
    ghost history = { λ _. [] };

    ghost faults = { λ d. d.faults };

    ghost calls = { λ d. d.calls };

    fn length(&mut self) -> Result<u64, Failed> {
        let answer = file_length(&self.file);
        self.count(answer)
    }

    fn read(&mut self, place: u64, into: &mut [u8]) -> Result<usize, Failed> {
        let answer = read_full(&self.file, place, into);
        self.count(answer)
    }

    fn write_at(&mut self, place: u64, bytes: &[u8]) -> Result<(), Failed> {
        let answer = write_full(&self.file, place, bytes);
        self.count(answer)
    }

    fn cut(&mut self, length: u64) -> Result<(), Failed> {
        let answer = cut_file(&self.file, length);
        self.count(answer)
    }

    fn sync(&mut self) -> Result<(), Failed> {
        let answer = self.file.sync_all();
        self.count(answer)
    }
}

// Takes the lock of a file that nobody else has locked.
fn lock(file: &File) -> io::Result<()> {
    match file.try_lock() {
        Ok(()) => Ok(()),
        Err(TryLockError::WouldBlock) => Err(io::ErrorKind::WouldBlock.into()),
        Err(TryLockError::Error(error)) => Err(error),
    }
}

// Makes sure of the name of the file at `path`.
fn sync_folder<R: Files<File = File>>(rt: &R, path: &str) -> io::Result<()> {
    let folder = folder_of(path);
    File::open(rt, folder)?.sync_all()
}

fn folder_of(path: &str) -> &str {
    match Path::new(path).parent() {
        Some(folder) if !folder.as_str().is_empty() => folder.as_str(),
        _ => ".",
    }
}

fn too_long() -> io::Error {
    io::ErrorKind::InvalidInput.into()
}

fn file_length(file: &File) -> io::Result<u64>
    ensures { IfOk result (λ n. n < 2 ^ 63) }
{
    let length = file.metadata()?.len();
    if length > MOST_BYTES {
        return Err(too_long());
    }
    Ok(length)
}

// Fills `into` from the place on, as far as the file reaches.
fn read_full(file: &File, place: u64, into: &mut [u8]) -> io::Result<usize>
    ensures { IfOk result (λ n. n ≤ length into.old) }
{
    let mut got = 0;
    while got < into.len() {
        let at = place.checked_add(got as u64).ok_or(too_long())?;
        if at > MOST_BYTES {
            break;
        }
        let more = file.read_at(&mut into[got..], at)?;
        if more == 0 {
            break;
        }
        got += more;
    }
    Ok(got)
}

fn write_full(file: &File, place: u64, bytes: &[u8]) -> io::Result<()>
    ensures { OnOk result (place + length bytes.now < 2 ^ 63) }
{
    let count = bytes.len() as u64;
    if place > MOST_BYTES || count > MOST_BYTES - place {
        return Err(too_long());
    }
    file.write_all_at(bytes, place)
}

// Cuts a file that is longer.
fn cut_file(file: &File, length: u64) -> io::Result<()> {
    if length < file_length(file)? {
        file.set_len(length)?;
    }
    Ok(())
}
