//! Lines from a source's bytes.
ghost use Rattle.std.specs.Prelude.{◌≡◌, ℕ, ◌+◌, ◌-◌, ◌<◌, ◌≤◌, ◌⊎◌, List, [], Option, length, Contains, IfOk, IfSome, IsErrOf, Some, None};
ghost use Rattle.std.specs.Io.KnownBytes.{IsAtEnd, Keeps};
ghost use Rattle.fault_count.specs.Rose.{Rose};
ghost use Rattle.outside_io.specs.Reading.{lasting};

use super::intake::Intake;
use super::limits::MOST_TAKEN;
use super::line::{Line, LineFault};
use super::source::Source;
use std::alloc::Global;
use std::marker::Model;

/// Makes lines of a source's bytes, in whatever pieces they come.
///
/// A line ends at a newline, and one carriage return before it is dropped; a last line needs no
/// newline. A line of more than `MOST_LINE_BYTES` bytes is `TooLong`, and is answered once its end
/// was met. Never more than `MOST_TAKEN` bytes are taken. A read fault and a spent source are
/// answered again from then on, without asking the source.
///
/// Each byte is copied at most three times, and looked at once for a newline, but that those of one
/// read are looked at again after want of memory. At most `MOST_LINE_BYTES` + 1 bytes of the line
/// in hand are kept, and one buffer of 16,384 bytes.
#[derive(Drop)]
pub struct LineReader {
    intake: Intake,
    stuck: Option<LineFault>,
}

impl Model for LineReader {
    ghost use Rattle.std.specs.Prelude.{ℕ, List, ◌++◌};
    ghost use Rattle.outside_io.specs.Reading.{ReaderState, IsReader};

    ghost Value = { ReaderState };

    ghost view = { λ r. record { held = r.intake.line ++ r.intake.held; taken = r.intake.taken; stuck = r.stuck } };

    ghost invariant = { λ r. IsReader (r.intake.line ++ r.intake.held) r.intake.taken r.stuck };
}

impl LineReader {
    ghost use Rattle.outside_io.specs.Lines.{HasNoNewline, TakesFirst, TakesNoLine};
    ghost use Rattle.outside_io.specs.Reading.{rest_of, stuck_after};
    ghost use Rattle.outside_io.specs.Taking.{CountsTaken};
    ghost use Rattle.finite_maps.specs.Told.{WhereTold};

    /// A reader that took nothing yet. It takes no memory.
    pub fn new(alloc: Global) -> LineReader
        ensures held { result.held ≡ [] }
        ensures taken { result.taken ≡ 0 }
        ensures stuck { result.stuck ≡ None }
    {
        LineReader {
            intake: Intake::new(alloc),
            stuck: None,
        }
    }

    /// The next line of what is held and what `source` gives, or `None` at the end of the input.
    /// The source is asked only where no whole line is held. It costs the line's length, and what
    /// was read behind it.
    pub fn next<S: Source>(
        &mut self,
        alloc: Global,
        source: &mut S,
    ) -> Result<Option<Line>, LineFault>
        // The first line of what was left was answered, and the others are left. One that no newline
        // ended comes only where the end was met, which is before 2^30 bytes were taken.
        ensures line { IfOk result (λ answer. IfSome answer (λ line.
            WhereTold (rest_of self.old (S.left source.old)) (rest_of self.new (S.left source.new))
            (λ old new. TakesFirst (self.new.taken < MOST_TAKEN) old new line))) }

        // There is no line only where nothing is left, and nothing is held.
        ensures end { result ≡ Ok None → (self.old.held ≡ []) × (self.new.held ≡ [])
            × IsAtEnd (S.left source.old) × IsAtEnd (S.left source.new) }
        ensures met { result ≡ Ok None → self.new.taken < MOST_TAKEN }

        // Want of memory loses nothing.
        ensures memory { IsErrOf result LineFault.Memory
            → Keeps (rest_of self.old (S.left source.old)) (rest_of self.new (S.left source.new)) }

        // A read fault has its cause: the source's count rose, unless the reader was stuck before.
        ensures read_fault { self.old.stuck ≡ None → IsErrOf result LineFault.ReadFault
            → Rose (S.faults source.old) (S.faults source.new) }
        ensures fault_before { self.old.stuck ≡ None → IsErrOf result LineFault.ReadFault → self.new.taken < MOST_TAKEN }
        ensures counts { S.faults source.old ≤ S.faults source.new }
        ensures stuck { self.new.stuck ≡ stuck_after result }

        // At a fault, what was held and what was read since hold no whole line.
        ensures no_line { IsErrOf result LineFault.ReadFault ⊎ IsErrOf result LineFault.SourceSpent
            → TakesNoLine (rest_of self.old (S.left source.old)) (S.left source.new) }

        // The source is spent only once 2^30 bytes were taken, and never more are. It is where no
        // whole line is held then; before that, memory may be wanting.
        ensures spent { IsErrOf result LineFault.SourceSpent → self.new.taken ≡ MOST_TAKEN }
        ensures within { self.new.taken ≤ MOST_TAKEN }
        ensures at_limit { self.old.stuck ≡ None → self.old.taken ≡ MOST_TAKEN → HasNoNewline self.old.held
            → IsErrOf result LineFault.SourceSpent ⊎ IsErrOf result LineFault.Memory }
        ensures counted { CountsTaken (S.left source.old) self.old.taken (S.left source.new) self.new.taken }

        // A stuck reader answers the same, and leaves the source and itself as they are.
        ensures again { IfSome self.old.stuck (λ fault.
            (result ≡ Err fault) × (source.new ≡ source.old) × (self.new ≡ self.old)) }

        // The source isn't asked where a whole line is held.
        ensures unasked { Contains self.old.held 10 → source.new ≡ source.old }

        // A line brings the end nearer.
        ensures goes_on { IfOk result (λ answer. IfSome answer (λ line.
            (MOST_TAKEN - self.new.taken) + length self.new.held < (MOST_TAKEN - self.old.taken) + length self.old.held)) }
    {
        if let Some(fault) = self.stuck {
            return Err(fault);
        }
        self.intake.prepare(alloc)?;
        let answer = self.intake.next(alloc, source);
        if let Err(fault) = answer {
            self.stuck = lasting_fault(fault);
        }
        answer
    }
}

// The fault that is answered from then on.
fn lasting_fault(fault: LineFault) -> Option<LineFault>
    ensures { result ≡ lasting fault }
{
    match fault {
        LineFault::ReadFault => Some(LineFault::ReadFault),
        LineFault::SourceSpent => Some(LineFault::SourceSpent),
        LineFault::Memory => None,
    }
}
