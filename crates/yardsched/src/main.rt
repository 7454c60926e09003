//! The program: its words go to `run`, over the real files and standard output, and it ends with the status.
#![tactic(auto)]

use scheduler_run::{Status, run};
use std::alloc::{AllocError, Global};
use std::process::ExitCode;
use std::rt::Env;
use std::{env, io};
use yard_io::{OpenGate, RealDesk};

/// The status where the system does not give the words.
const NO_WORDS: Status = Status(4);

/// The status where memory for the words is refused.
const NO_MEMORY: Status = Status(6);

/// The words after the program's name. No list of words that are not all text is a command, so such a list stands as
/// the empty one. Else the status with which the program ends.
fn words_of<R: Env + AllocGlobal>(rt: &R) -> Result<Vec<String>, Status> {
    match env::args(rt) {
        Ok(args) => match args.skip(1).collect(rt.alloc()) {
            Ok(words) => Ok(words),
            Err(_) => Err(NO_MEMORY),
        },
        Err(error) if error.kind() == io::ErrorKind::OutOfMemory => Err(NO_MEMORY),
        Err(error) if error.kind() == io::ErrorKind::InvalidData => Ok(Vec::new(rt.alloc())),
        Err(_) => Err(NO_WORDS),
    }
}

/// The words as `run` takes them.
fn borrowed(alloc: Global, words: &[String]) -> Result<Vec<&str>, AllocError> {
    let mut all = Vec::new(alloc);
    for word in words {
        all.push(word.as_str())?;
    }
    Ok(all)
}

fn main(rt: HostRuntime) -> ExitCode {
    let status = match words_of(&rt) {
        Err(status) => status,
        Ok(words) => match borrowed(rt.alloc(), words.as_slice()) {
            Err(_) => NO_MEMORY,
            Ok(words) => {
                let mut desk = RealDesk::new(&rt);
                run(&rt, rt.alloc(), words.as_slice(), &mut desk, &OpenGate)
            }
        },
    };
    ExitCode::from(status.0)
}
