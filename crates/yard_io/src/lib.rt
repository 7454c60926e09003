//! The outside: files by name and the said bytes, behind one trait.
//!
//! A desk keeps files, each a list of bytes under a name, and the bytes that were said; a contract may cite what the
//! desk tells of both. It keeps two counts of faults, of reading and of writing, and answers `Failed` only where the
//! count of its kind rose in that call. `QuietDesk` keeps all in memory and never fails; `MemoryDesk` does so
//! too, and its calls fail where they are listed; `RealDesk` stands on the system's files and standard output and tells
//! nothing of their content. Lengths and places are bytes.
#![tactic(auto)]

mod calls;
mod desk;
mod faults;
mod gate;
mod memory;
mod quiet;
mod reading;
mod real;
mod saying;
mod trouble;
mod writing;

pub use calls::DeskCall;
pub use desk::Desk;
pub use gate::{Gate, OpenGate};
pub use memory::MemoryDesk;
pub use quiet::QuietDesk;
pub use reading::{read_bytes, read_file};
pub use real::RealDesk;
pub use saying::say_all;
pub use trouble::Trouble;
pub use writing::write_file;
