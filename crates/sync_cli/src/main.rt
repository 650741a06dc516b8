//! `mutagend`, the program.
//!
//! `main` makes the real source, sink and roots, and calls `run_script`, which does everything else.
//! The exit status is the number of the run's status.
#![tactic(auto)]

use outside_io::{StdSink, StdSource};
use script_engine::{FlatRoots, Status, run_script};
use std::process::ExitCode;
use std::rt::Env;
use std::{env, io};

const USAGE: &str = "usage: mutagend script";

fn main(rt: HostRuntime) -> ExitCode {
    let mut source = StdSource::new(rt.reader());
    let mut sink = StdSink::new(io::writer(&rt));
    let mut roots = FlatRoots::two(rt.alloc());
    let status = match words(&rt) {
        Ok(words) => run_script(
            rt.alloc(),
            words.as_slice(),
            &mut source,
            &mut sink,
            &mut roots,
        ),
        Err(error) => status_without_words(&error),
    };
    if status == Status::Usage {
        let _ = eprintln!(rt; "{USAGE}");
    }
    ExitCode::from(status.number())
}

// The words of the command line behind the program's name.
fn words(rt: &(impl Env + AllocGlobal)) -> io::Result<Vec<String>> {
    let mut words = Vec::new(rt.alloc());
    for word in env::args(rt)?.skip(1) {
        words.push(word)?;
    }
    Ok(words)
}

// How a run ends whose words could not be read: words that aren't text are wrong ones.
fn status_without_words(error: &io::Error) -> Status {
    match error.kind() {
        io::ErrorKind::OutOfMemory => Status::NoMemory,
        _ => Status::Usage,
    }
}
