//! The program: the words that it was started with, the files of the disk, and standard output.
#![tactic(auto)]

use std::process::ExitCode;
use std::{env, io};
use sx_app::{examine, status};
use sx_edge::{DiskStore, StreamSink};

/// The exit status where memory ran out before the words were read, as `status` has it for an examination.
const OUT_OF_MEMORY: u8 = 11;

/// The exit status where the words can't be read, as where one isn't UTF-8. No examination ends with it.
const NO_WORDS: u8 = 14;

/// Examines what the words after the program's name ask for, and ends with the status of that.
fn main(rt: HostRuntime) -> ExitCode {
    let words = match words(&rt) {
        Ok(words) => words,
        Err(refused) => return ExitCode::from(status_without_words(&refused)),
    };
    let mut store = DiskStore::new(rt);
    let mut out = StreamSink::new(io::writer(&rt));
    let outcome = examine(rt.alloc(), &words, &mut store, &mut out);
    ExitCode::from(status(&outcome))
}

// The words after the program's name.
fn words(rt: &HostRuntime) -> io::Result<Vec<String>> {
    let mut all = env::args(rt)?;
    let _program = all.next();
    Ok(all.collect(rt.alloc())?)
}

// The exit status where the runtime refuses the words.
fn status_without_words(refused: &io::Error) -> u8 {
    match refused.kind() {
        io::ErrorKind::OutOfMemory => OUT_OF_MEMORY,
        _ => NO_WORDS,
    }
}
