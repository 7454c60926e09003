//! The top call: what the words ask for, done over a desk.
//!
//! `run` reads the files that the words name through the desk, makes the whole answer in memory, and only then says it.
//! What is to be said, and with which status, is `Answers` of `specs/Answers.antt`.
#![tactic(auto)]

mod check_command;
mod command;
mod gen_command;
mod load_command;
mod plan_command;
mod reply;
mod status;
mod top_call;
mod yard_text;

pub use status::Status;
pub use top_call::{run, run_quietly};
