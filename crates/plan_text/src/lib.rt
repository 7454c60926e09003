//! Plans as text.
//!
//! The text of a plan is its head, a line for each block in file order, and the line `total T`; the text of no plan is
//! the line `no plan`. Each line ends with a line feed, and one space stands between words. Where some block of the yard
//! has a cost for early days, the head is `plan 2` and each block's line tells them; else the head is `plan 1`.
//!
//! A text is read line after line, and refused with its first fault, which names the line, counted from 1.
#![tactic(auto)]

mod fault;
mod figures;
mod form;
mod heads;
mod names;
mod print;
mod reading;
mod rows;
mod told;

pub use fault::PlanFault;
pub use print::print_plan;
pub use reading::read_plan;
