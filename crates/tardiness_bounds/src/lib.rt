//! Lower bounds of the total cost of the plans of a box: the base, the fit and the energy; and the fit of a list of exact
//! literals that grows and shrinks, the frontier of a search.
//!
//! A bound is a number, or Never where the box holds no feasible plan. No bound is above the total of a feasible plan in
//! the box (`docs/SEARCH.md`).
#![tactic(auto)]

mod apart;
mod base_of;
mod beside;
mod best;
mod block;
mod bound;
mod clear;
mod energy_of;
mod fit_of;
mod free_codes;
mod frontier;
mod gap;
mod ground;
mod lattice;
mod left;
mod near;
mod obstacles;
mod rest;
mod rows;
mod scratch;
mod side;
mod slot;
mod stand;
mod standing;
mod stretches;
mod tables;
mod walk;
mod window;
mod witness;

pub use base_of::base;
pub use beside::{Beside, Hindrance};
pub use best::best_window;
pub use bound::Bound;
pub use energy_of::energy;
pub use fit_of::{fit, fit_among};
pub use free_codes::FreeCodes;
pub use frontier::Frontier;
pub use tables::YardTables;
