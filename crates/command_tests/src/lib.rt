//! Tests of the commands, over desks in memory and over real files.
//!
//! No program uses this crate.
#![tactic(auto)]

#[cfg(test)]
mod calling;
#[cfg(test)]
mod checks;
#[cfg(test)]
mod commands;
#[cfg(test)]
mod crews;
#[cfg(test)]
mod early;
#[cfg(test)]
mod failing;
#[cfg(test)]
mod failing_check;
#[cfg(test)]
mod hostile;
#[cfg(test)]
mod loads;
#[cfg(test)]
mod logs;
#[cfg(test)]
mod outside;
#[cfg(test)]
mod regions;
#[cfg(test)]
mod twelve_blocks;
#[cfg(test)]
mod unread;
#[cfg(test)]
mod watched;
#[cfg(test)]
mod yards;
