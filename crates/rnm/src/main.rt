//! The program `rnm`: the words after its name, the files of the system and standard output, handed to the top call.
#![tactic(auto)]

use outside::{FileShelf, OutSink};
use rnm_engine::Status;
use std::env;
use std::io::{self, ErrorKind};
use std::process::ExitCode;
use std::rt::Env;

/// The words after the program's name. A word that isn't UTF-8 is an error, and so is want of memory.
fn words_of(rt: &(impl Env + AllocGlobal)) -> io::Result<Vec<String>> {
    Ok(env::args(rt)?.skip(1).collect(rt.alloc())?)
}

fn main(rt: HostRuntime) -> ExitCode {
    let words = match words_of(&rt) {
        Ok(words) => words,
        Err(error) if error.kind() == ErrorKind::OutOfMemory => {
            return ExitCode::from(Status::NoMemory.number());
        }
        // No words are no job.
        Err(_) => Vec::new(rt.alloc()),
    };
    let mut shelf = FileShelf::make(&rt);
    let mut sink = OutSink::make(&rt);
    let status = rnm_engine::rnm(rt.alloc(), words.as_slice(), &mut shelf, &mut sink);
    ExitCode::from(status.number())
}
