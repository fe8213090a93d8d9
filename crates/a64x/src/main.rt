//! `a64x`: what Arm A64 words are, by Arm's architecture as JSON. Makes the outside and calls `run`.
#![tactic(auto)]

use mrs_io::{FileShelf, StderrSink, StdinSource, StdoutSink};
use mrs_query::{Status, run};
use std::env;
use std::io::{self, ErrorKind};
use std::process::ExitCode;

/// The words of the command line behind the program's name.
fn command_words(rt: &HostRuntime) -> io::Result<Vec<String>> {
    let mut words = Vec::new(rt.alloc());
    for word in env::args(rt)?.skip(1) {
        words.push(word)?;
    }
    Ok(words)
}

fn main(rt: HostRuntime) -> ExitCode {
    let words = match command_words(&rt) {
        Ok(words) => words,
        Err(error) if error.kind() == ErrorKind::OutOfMemory => {
            return ExitCode::from(Status::NoMemory.exit_number());
        }
        // Words that are not UTF-8 are refused as a missing command is.
        Err(_) => Vec::new(rt.alloc()),
    };
    let status = run(
        &rt,
        rt.alloc(),
        &words,
        &mut FileShelf::new(&rt),
        &mut StdinSource::new(&rt),
        &mut StdoutSink::new(&rt),
        &mut StderrSink::new(&rt),
    );
    ExitCode::from(status.exit_number())
}
