//! The line in hand, and the bytes behind it.
ghost use Rattle.std.specs.Prelude.{◌≡◌, ℕ, ◌+◌, ◌<◌, ◌≤◌, ◌↔◌, ◌⊎◌, List, [], ◌++◌, Option, length, take, drop, slice_index, vec_len, MatchResult, MatchOption, IfOk, IfSome, OnOk, OnErr, IsErrOf, Contains, None};
ghost use Rattle.std.specs.Io.KnownBytes.{Consumes, IsAtEnd, Keeps};
ghost use Rattle.std.specs.Str.Lines.{strip_carriage_return};
ghost use Rattle.fault_count.specs.Rose.{Rose};
ghost use Rattle.outside_io.specs.Lines.{HasNoNewline, IsLine, TakesFirst, TakesNoLine};
ghost use Rattle.outside_io.specs.Taking.{rest_of_taking, CountsTaken, SkipsLine};
ghost use Rattle.finite_maps.specs.Told.{WhereTold};

use super::limits::{MOST_KEPT, MOST_LINE_BYTES, MOST_TAKEN};
use super::line::{Line, LineFault};
use super::read_buffer::ReadBuffer;
use super::source::Source;
use std::alloc::{AllocError, Global};
use std::marker::Model;
use std::mem;

const CARRIAGE_RETURN: u8 = 13;

/// The beginning of a line, without its end, and the bytes behind it that were read.
#[derive(Drop)]
pub struct Intake {
    line: Vec<u8>,
    buffer: ReadBuffer,
    taken: u64,
}

impl Model for Intake {
    ghost use Rattle.std.specs.Prelude.{ℕ, ◌≤◌, List, length};
    ghost use Rattle.outside_io.specs.Lines.{HasNoNewline};
    ghost use Rattle.outside_io.specs.declared.limits.TheConstants.{MOST_KEPT, MOST_TAKEN};
    ghost use Rattle.outside_io.specs.Taking.{Taking};

    ghost Value = { Taking };

    ghost view = { λ i. record { line = i.line.items; held = i.buffer.held; room = i.buffer.room; taken = i.taken } };

    ghost invariant = { λ i. HasNoNewline i.line.items × (length i.line.items ≤ MOST_KEPT) × (i.taken ≤ MOST_TAKEN) };
}

impl Intake {
    /// Nothing was taken yet. It takes no memory.
    pub fn new(alloc: Global) -> Intake
        ensures line { result.line ≡ [] }
        ensures held { result.held ≡ [] }
        ensures room { result.room ≡ 0 }
        ensures taken { result.taken ≡ 0 }
    {
        Intake {
            line: Vec::new(alloc),
            buffer: ReadBuffer::new(alloc),
            taken: 0,
        }
    }

    /// Takes memory for the buffer, where it has none yet.
    pub fn prepare(&mut self, alloc: Global) -> Result<(), AllocError>
        ensures ok { OnOk result (0 < self.new.room) }
        ensures line { self.new.line ≡ self.old.line }
        ensures held { self.new.held ≡ self.old.held }
        ensures taken { self.new.taken ≡ self.old.taken }
        ensures within { self.new.taken ≤ MOST_TAKEN }
        ensures unbroken { HasNoNewline self.new.line }
    {
        self.buffer.prepare(alloc)
    }

    /// The next line, its rest read from `source` as far as it isn't held.
    pub fn next<S: Source>(
        &mut self,
        alloc: Global,
        source: &mut S,
    ) -> Result<Option<Line>, LineFault>
        requires room { 0 < self.old.room }
        ensures line { IfOk result (λ answer. IfSome answer (λ line.
            WhereTold (rest_of_taking self.old (S.left source.old)) (rest_of_taking self.new (S.left source.new))
            (λ old new. TakesFirst (self.new.taken < MOST_TAKEN) old new line))) }
        ensures met { result ≡ Ok None → self.new.taken < MOST_TAKEN }
        ensures fault_before { IsErrOf result LineFault.ReadFault → self.new.taken < MOST_TAKEN }
        ensures end { result ≡ Ok None → (self.old.line ++ self.old.held ≡ []) × (self.new.held ≡ [])
            × IsAtEnd (S.left source.old) × IsAtEnd (S.left source.new) }
        ensures begun { OnOk result (self.new.line ≡ []) }
        ensures memory { IsErrOf result LineFault.Memory
            → Keeps (rest_of_taking self.old (S.left source.old)) (rest_of_taking self.new (S.left source.new)) }
        ensures no_line { IsErrOf result LineFault.ReadFault ⊎ IsErrOf result LineFault.SourceSpent
            → TakesNoLine (rest_of_taking self.old (S.left source.old)) (S.left source.new) × (self.new.held ≡ []) × HasNoNewline self.new.line }
        ensures spent { IsErrOf result LineFault.SourceSpent → self.new.taken ≡ MOST_TAKEN }
        ensures at_limit { self.old.taken ≡ MOST_TAKEN → HasNoNewline self.old.held
            → IsErrOf result LineFault.SourceSpent ⊎ IsErrOf result LineFault.Memory }
        ensures unasked { Contains self.old.held 10 → source.new ≡ source.old }
        ensures counted { CountsTaken (S.left source.old) self.old.taken (S.left source.new) self.new.taken }
        ensures goes_on { OnOk result (length self.new.held + self.old.taken ≤ length (self.old.line ++ self.old.held) + self.new.taken) }
        ensures shorter { IfOk result (λ answer. IfSome answer (λ line.
            length self.new.held + self.old.taken < length (self.old.line ++ self.old.held) + self.new.taken)) }
        ensures within { self.new.taken ≤ MOST_TAKEN }
        ensures counts { S.faults source.old ≤ S.faults source.new }
        ensures read_fault { IsErrOf result LineFault.ReadFault → Rose (S.faults source.old) (S.faults source.new) }
    {
        loop {
            if let Some(place) = self.buffer.newline() {
                let line = self.end_line(alloc, place)?;
                return Ok(Some(line));
            }
            if self.buffer.bytes().len() > MOST_KEPT - self.line.len() {
                self.skip_line(source)?;
                return Ok(Some(Line::TooLong));
            }
            self.hold()?;
            if self.refill(source)? == 0 {
                return Ok(self.last_line(alloc));
            }
        }
    }

    /// Ends the line in hand at the newline at `place` of the buffer, and takes it.
    fn end_line(&mut self, alloc: Global, place: usize) -> Result<Line, AllocError>
        requires within { place < length self.old.held }
        requires before { HasNoNewline (take place self.old.held) }
        ensures ok { IfOk result (λ line. IsLine (strip_carriage_return (self.old.line ++ take place self.old.held)) line) }
        ensures taken_off { OnOk result ((self.new.line ≡ []) × (self.new.held ≡ drop (place + 1) self.old.held)) }
        ensures err { OnErr result ((self.new.line ≡ self.old.line) × (self.new.held ≡ self.old.held)) }
        ensures room { self.new.room ≡ self.old.room }
        ensures taken { (self.new.taken ≡ self.old.taken) × (self.new.taken ≤ MOST_TAKEN) }
    {
        if place > MOST_KEPT - self.line.len() {
            self.line.clear();
            self.buffer.pass(place);
            return Ok(Line::TooLong);
        }
        self.line.extend_from_slice(&self.buffer.bytes()[..place])?;
        self.buffer.pass(place);
        if self.line.last() == Some(&CARRIAGE_RETURN) {
            let _ = self.line.pop();
        }
        Ok(self.take_line(alloc))
    }

    /// Takes the line in hand.
    fn take_line(&mut self, alloc: Global) -> Line
        ensures line { IsLine self.old.line result }
        ensures begun { self.new.line ≡ [] }
        ensures held { self.new.held ≡ self.old.held }
        ensures room { self.new.room ≡ self.old.room }
        ensures taken { (self.new.taken ≡ self.old.taken) × (self.new.taken ≤ MOST_TAKEN) }
    {
        let line = mem::replace(&mut self.line, Vec::new(alloc));
        if line.len() > MOST_LINE_BYTES {
            return Line::TooLong;
        }
        Line::Full(line)
    }

    /// At the end of the input, the line in hand, if there is one.
    fn last_line(&mut self, alloc: Global) -> Option<Line>
        ensures line { MatchOption result (self.old.line ≡ []) (λ line. (0 < length self.old.line) × IsLine self.old.line line) }
        ensures begun { self.new.line ≡ [] }
        ensures held { self.new.held ≡ self.old.held }
        ensures room { self.new.room ≡ self.old.room }
        ensures taken { (self.new.taken ≡ self.old.taken) × (self.new.taken ≤ MOST_TAKEN) }
    {
        if self.line.is_empty() {
            return None;
        }
        Some(self.take_line(alloc))
    }

    /// Adds the buffer's bytes to the line in hand.
    fn hold(&mut self) -> Result<(), AllocError>
        requires unbroken { HasNoNewline self.old.held }
        requires fits { length self.old.line + length self.old.held ≤ MOST_KEPT }
        ensures ok { OnOk result ((self.new.line ≡ self.old.line ++ self.old.held) × (self.new.held ≡ [])) }
        ensures err { OnErr result ((self.new.line ≡ self.old.line) × (self.new.held ≡ self.old.held)) }
        ensures room { self.new.room ≡ self.old.room }
        ensures taken { (self.new.taken ≡ self.old.taken) × (self.new.taken ≤ MOST_TAKEN) }
    {
        self.line.extend_from_slice(self.buffer.bytes())?;
        self.buffer.clear();
        Ok(())
    }

    /// Reads into the empty buffer, and answers how many bytes came.
    fn refill<S: Source>(&mut self, source: &mut S) -> Result<usize, LineFault>
        requires { 0 < self.old.room }
        ensures count { IfOk result (λ n. (n ≡ length self.new.held) × (self.new.taken ≡ self.old.taken + n)) }
        ensures bytes { MatchResult result
            (λ n. Consumes (S.left source.old) (S.left source.new) self.new.held
            × (n ≡ 0 → IsAtEnd (S.left source.new)))
            (λ _. Keeps (S.left source.old) (S.left source.new)) }
        ensures err { OnErr result ((self.new.held ≡ []) × (self.new.taken ≡ self.old.taken)) }
        ensures line { self.new.line ≡ self.old.line }
        ensures room { self.new.room ≡ self.old.room }
        ensures within { self.new.taken ≤ MOST_TAKEN }
        ensures counts { S.faults source.old ≤ S.faults source.new }
        ensures read_fault { IsErrOf result LineFault.ReadFault → Rose (S.faults source.old) (S.faults source.new) }
        ensures spent { IsErrOf result LineFault.SourceSpent ↔ (self.old.taken ≡ MOST_TAKEN) }
        ensures asked { OnOk result (self.old.taken < MOST_TAKEN) }
        ensures fault_before { IsErrOf result LineFault.ReadFault → self.new.taken < MOST_TAKEN }
        ensures counted { CountsTaken (S.left source.old) self.old.taken (S.left source.new) self.new.taken }
        ensures memory { ¬ IsErrOf result LineFault.Memory }
    {
        self.buffer.clear();
        let most = MOST_TAKEN - self.taken;
        if most == 0 {
            return Err(LineFault::SourceSpent);
        }
        match self.buffer.fill(source, most as usize) {
            Ok(count) => {
                self.taken += count as u64;
                Ok(count)
            }
            Err(_) => Err(LineFault::ReadFault),
        }
    }

    /// Drops the line in hand and the buffer's bytes, and passes over the rest of the line.
    fn skip_line<S: Source>(&mut self, source: &mut S) -> Result<(), LineFault>
        requires { 0 < self.old.room }
        ensures ok { OnOk result (SkipsLine (self.new.taken < MOST_TAKEN) (S.left source.old) self.new.held (S.left source.new)) }
        ensures fault_before { IsErrOf result LineFault.ReadFault → self.new.taken < MOST_TAKEN }
        ensures err { OnErr result (TakesNoLine (S.left source.old) (S.left source.new) × (self.new.held ≡ [])) }
        ensures line { self.new.line ≡ [] }
        ensures room { self.new.room ≡ self.old.room }
        ensures taken { length self.new.held + self.old.taken ≤ self.new.taken }
        ensures within { self.new.taken ≤ MOST_TAKEN }
        ensures counts { S.faults source.old ≤ S.faults source.new }
        ensures read_fault { IsErrOf result LineFault.ReadFault → Rose (S.faults source.old) (S.faults source.new) }
        ensures memory { ¬ IsErrOf result LineFault.Memory }
        ensures spent { IsErrOf result LineFault.SourceSpent → self.new.taken ≡ MOST_TAKEN }
        ensures at_limit { self.old.taken ≡ MOST_TAKEN → IsErrOf result LineFault.SourceSpent }
        ensures counted { CountsTaken (S.left source.old) self.old.taken (S.left source.new) self.new.taken }
    {
        self.line.clear();
        loop {
            if self.refill(source)? == 0 {
                return Ok(());
            }
            if let Some(place) = self.buffer.newline() {
                self.buffer.pass(place);
                return Ok(());
            }
        }
    }
}
