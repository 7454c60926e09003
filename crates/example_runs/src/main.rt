//! Runs commands over the files beside it, as the program runs its words, and says what each gave.
//!
//! Each word that it is given is a command: words with spaces between them. It says the command behind `> `, then what
//! the run says, then the line `status N`. Its stored run goes through the yards of `examples/`.
#![tactic(auto)]

use scheduler_run::run;
use std::process::ExitCode;
use std::rt::{Env, Files};
use std::thread::Threads;
use std::{env, io};
use yard_io::{OpenGate, RealDesk, Trouble, say_all};

/// Runs one command, and says it and its status before and after what the run says.
fn show<R: Threads + Sync + Files + Print + AllocGlobal>(
    rt: &R,
    command: &str,
) -> Result<(), Trouble> {
    let words: Vec<&str> = command.split_whitespace().collect(rt.alloc())?;
    let mut desk = RealDesk::new(rt);
    say_all(
        &mut desk,
        format!(in rt.alloc(); "> {command}\n")?.as_bytes(),
    )?;
    let status = run(rt, rt.alloc(), words.as_slice(), &mut desk, &OpenGate);
    say_all(
        &mut desk,
        format!(in rt.alloc(); "status {}\n", status.0)?.as_bytes(),
    )
}

/// Runs the commands in turn, up to the first that could not be shown.
fn show_all<R: Env + Threads + Sync + Files + Print + AllocGlobal>(rt: &R) -> Result<(), Trouble> {
    match env::args(rt) {
        Ok(commands) => {
            for command in commands.skip(1) {
                show(rt, command.as_str())?;
            }
            Ok(())
        }
        Err(error) if error.kind() == io::ErrorKind::OutOfMemory => Err(Trouble::Memory),
        Err(_) => Err(Trouble::Failed),
    }
}

fn main(rt: HostRuntime) -> ExitCode {
    match show_all(&rt) {
        Ok(()) => ExitCode::from(0),
        Err(_) => ExitCode::from(1),
    }
}
