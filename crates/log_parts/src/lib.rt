//! Parts of logs: the derivation of one record, cut out of a log, which is the record with every record that it cites,
//! followed down; and a log that is taken into another one, each box once.
#![tactic(auto)]

mod cut;
mod known;
mod picked;
mod united;

pub use cut::derivation;
pub use known::Known;
pub use united::unite;
