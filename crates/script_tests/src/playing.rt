//! Runs of scripts over roots, sources and sinks in memory.
use outside_io::{MemSink, Source, StdSource};
use script_engine::{FlatRoots, Status, run_script};
use std::alloc::Global;
use std::test::Fail;

/// What a run with these words writes that reads the source over these roots, and how it ends. The
/// writes with these numbers fail.
pub fn output_of<S: Source>(
    alloc: Global,
    words: &[&str],
    source: &mut S,
    failing: &[u64],
    roots: &mut FlatRoots,
) -> Result<(String, Status), Fail> {
    let mut list = Vec::new(alloc);
    for word in words {
        list.push(String::from_str(alloc, word)?)?;
    }
    let mut sink = MemSink::new(alloc, failing)?;
    let status = run_script(alloc, list.as_slice(), source, &mut sink, roots);
    let text = std::str::from_utf8(sink.bytes())?;
    Ok((String::from_str(alloc, text)?, status))
}

/// The same for `script` and these bytes, over new roots and with no fault.
pub fn replies_to(alloc: Global, script: &[u8]) -> Result<(String, Status), Fail> {
    let mut roots = FlatRoots::two(alloc);
    output_of(
        alloc,
        &["script"],
        &mut StdSource::new(script),
        &[],
        &mut roots,
    )
}

/// Plays a transcript over these roots: what it is to write, and what it writes.
pub fn played(
    alloc: Global,
    transcript: &str,
    roots: &mut FlatRoots,
) -> Result<(String, String), Fail> {
    let mut script = String::new(alloc);
    let mut wanted = String::new(alloc);
    for line in transcript.lines() {
        let (text, line) = match line.strip_prefix("> ") {
            Some(line) => (&mut script, line),
            None => (&mut wanted, line),
        };
        text.push_str(line)?;
        text.push_str("\n")?;
    }
    let mut source = StdSource::new(script.as_bytes());
    let (text, _) = output_of(alloc, &["script"], &mut source, &[], roots)?;
    Ok((wanted, text))
}
