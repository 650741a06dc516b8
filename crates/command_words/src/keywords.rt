//! The words that stand for modes, phases, halts, sides and switches. None of these functions takes memory.
ghost use Rattle.std.specs.Prelude.{◌≡◌};
ghost use Rattle.command_words.specs.Keywords.{halt_word, mode_by, mode_word, phase_by, phase_word, side_word, stream_side_by, stream_side_word, switch_by, switch_word};

use crate::stream_side::StreamSide;
use entry_tree::Side;
use mode_rules::{Halt, Mode, Phase};

/// The word of a mode, after Mutagen's names.
pub fn mode_word(mode: Mode) -> &'static str
    ensures { result.now ≡ mode_word mode }
{
    match mode {
        Mode::TwoWaySafe => "two-way-safe",
        Mode::TwoWayResolved => "two-way-resolved",
        Mode::OneWaySafe => "one-way-safe",
        Mode::OneWayReplica => "one-way-replica",
    }
}

/// The mode that a word stands for, if it stands for one.
pub fn mode_by(word: &[u8]) -> Option<Mode>
    ensures { result ≡ mode_by word.now }
{
    if word == b"two-way-safe".as_slice() {
        return Some(Mode::TwoWaySafe);
    }
    if word == b"two-way-resolved".as_slice() {
        return Some(Mode::TwoWayResolved);
    }
    if word == b"one-way-safe".as_slice() {
        return Some(Mode::OneWaySafe);
    }
    if word == b"one-way-replica".as_slice() {
        return Some(Mode::OneWayReplica);
    }
    None
}

/// The word of a phase.
pub fn phase_word(phase: Phase) -> &'static str
    ensures { result.now ≡ phase_word phase }
{
    match phase {
        Phase::Idle => "idle",
        Phase::Forget => "forget",
        Phase::ScanAlpha => "scan-alpha",
        Phase::ScanBeta => "scan-beta",
        Phase::Stage => "stage",
        Phase::Change => "change",
        Phase::Clear => "clear",
        Phase::Commit => "commit",
    }
}

/// The phase that a word stands for, if it stands for one.
pub fn phase_by(word: &[u8]) -> Option<Phase>
    ensures { result ≡ phase_by word.now }
{
    if word == b"idle".as_slice() {
        return Some(Phase::Idle);
    }
    if word == b"forget".as_slice() {
        return Some(Phase::Forget);
    }
    if word == b"scan-alpha".as_slice() {
        return Some(Phase::ScanAlpha);
    }
    if word == b"scan-beta".as_slice() {
        return Some(Phase::ScanBeta);
    }
    if word == b"stage".as_slice() {
        return Some(Phase::Stage);
    }
    if word == b"change".as_slice() {
        return Some(Phase::Change);
    }
    if word == b"clear".as_slice() {
        return Some(Phase::Clear);
    }
    if word == b"commit".as_slice() {
        return Some(Phase::Commit);
    }
    None
}

/// The word of a halt.
pub fn halt_word(halt: Halt) -> &'static str
    ensures { result.now ≡ halt_word halt }
{
    match halt {
        Halt::RootDeleted => "root-deleted",
        Halt::RootTypeChanged => "root-type-changed",
        Halt::RootEmptied => "root-emptied",
    }
}

/// The word of a side of a session.
pub fn side_word(side: Side) -> &'static str
    ensures { result.now ≡ side_word side }
{
    match side {
        Side::Alpha => "alpha",
        Side::Beta => "beta",
    }
}

/// The word of an end of a stream.
pub fn stream_side_word(side: StreamSide) -> &'static str
    ensures { result.now ≡ stream_side_word side }
{
    match side {
        StreamSide::Near => "near",
        StreamSide::Far => "far",
    }
}

/// The end of a stream that a word stands for, if it stands for one.
pub fn stream_side_by(word: &[u8]) -> Option<StreamSide>
    ensures { result ≡ stream_side_by word.now }
{
    if word == b"near".as_slice() {
        return Some(StreamSide::Near);
    }
    if word == b"far".as_slice() {
        return Some(StreamSide::Far);
    }
    None
}

/// The word of a switch: `on` or `off`.
pub fn switch_word(on: bool) -> &'static str
    ensures { result.now ≡ switch_word on }
{
    match on {
        true => "on",
        false => "off",
    }
}

/// Whether a word switches on or off, if it does either.
pub fn switch_by(word: &[u8]) -> Option<bool>
    ensures { result ≡ switch_by word.now }
{
    if word == b"on".as_slice() {
        return Some(true);
    }
    if word == b"off".as_slice() {
        return Some(false);
    }
    None
}
