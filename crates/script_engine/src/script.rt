//! The run of a script: lines are read, done and answered one after another.
ghost use Rattle.std.specs.Prelude.{◌≡◌, ◌≢◌, ◌≤◌, ◌↔◌, false, map, string_bytes};
ghost use Rattle.fault_count.specs.Rose.{Rose};
ghost use Rattle.script_engine.specs.Run.{is_script, IsRun};

use crate::flat_roots::FlatRoots;
use crate::session::Session;
use crate::status::Status;
use crate::step::answer;
use outside_io::{LineFault, LineReader, Sink, Source, send};
use std::alloc::Global;

/// Runs the script that the source gives: reads a line, does it, and writes its reply in one piece
/// before the next line is read. The words are those of the command line, whose one form is
/// `script`; with any other words nothing is read or written.
///
/// A line costs its length, beside what it does: a `show` and a flush cost the bytes that the roots
/// hold.
pub fn run_script<S: Source, K: Sink>(
    alloc: Global,
    words: &[String],
    source: &mut S,
    sink: &mut K,
    roots: &mut FlatRoots,
) -> Status
    ensures usage { (result ≡ Status.Usage) ↔ (is_script (map string_bytes words.now) ≡ false) }
    ensures untouched { result ≡ Status.Usage →
        (source.new ≡ source.old) × (sink.new ≡ sink.old) × (roots.new ≡ roots.old) }

    // A fault is answered only where the object's count rose in this call.
    ensures read_fault { result ≡ Status.ReadFault → Rose (S.faults source.old) (S.faults source.new) }
    ensures write_fault { result ≡ Status.WriteFault → Rose (K.faults sink.old) (K.faults sink.new) }

    // However the run ends, what it read, wrote and left is the script's meaning, as far as it came.
    ensures run { IsRun result (S.left source.old) (S.left source.new)
        (K.written sink.old) (K.written sink.new) roots.old roots.new }
{
    if !is_script(words) {
        return Status::Usage;
    }
    run_lines(alloc, source, sink, roots)
}

// The words are exactly `script`.
fn is_script(words: &[String]) -> bool
    ensures { result ≡ is_script (map string_bytes words.now) }
{
    match words {
        [word] => word.as_str() == "script",
        _ => false,
    }
}

// Does the lines of the source.
fn run_lines<S: Source, K: Sink>(
    alloc: Global,
    source: &mut S,
    sink: &mut K,
    roots: &mut FlatRoots,
) -> Status
    ensures no_usage { result ≢ Status.Usage }
    ensures read_fault { result ≡ Status.ReadFault → Rose (S.faults source.old) (S.faults source.new) }
    ensures write_fault { result ≡ Status.WriteFault → Rose (K.faults sink.old) (K.faults sink.new) }
    ensures run { IsRun result (S.left source.old) (S.left source.new)
        (K.written sink.old) (K.written sink.new) roots.old roots.new }
{
    let mut reader = LineReader::new(alloc);
    let mut session: Option<Session> = None;
    'lines: loop {
        let line = match reader.next(alloc, source) {
            Ok(Some(line)) => line,
            Ok(None) => return Status::Ok,
            Err(LineFault::ReadFault) => return Status::ReadFault,
            Err(LineFault::SourceSpent) => return Status::SourceSpent,
            Err(LineFault::Memory) => return Status::NoMemory,
        };
        let Ok(reply) = answer(alloc, roots, &mut session, line) else {
            return Status::NoMemory;
        };
        let Ok(()) = send(sink, reply.as_bytes()) else {
            return Status::WriteFault;
        };
    }
}
