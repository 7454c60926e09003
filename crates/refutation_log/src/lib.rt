//! The log of refutations: records in a list, each the reason why no better plan is in a box, and the log's text.
//!
//! Records are numbered from 0 in the order of the log, and a record cites earlier ones by their numbers.
#![tactic(auto)]

mod capsule;
mod cites;
mod fault;
mod laws;
mod lines;
mod lists;
mod log;
mod reading;
mod record;
mod writing;

pub use capsule::Capsule;
pub use cites::Cites;
pub use fault::LogFault;
pub use laws::accepted_is_best;
pub use log::Log;
pub use reading::read_log;
pub use record::Record;
pub use writing::write_log;
