//! Plans: one code for each block, their clashes, their order and the best one; plans as numbers, and boxes of plans.
#![tactic(auto)]

mod blocks;
mod clashes;
mod counts;
mod job;
mod laws;
mod literal;
mod meetings;
mod order;
mod path_number;
mod plan;
mod plan_box;
mod region;

pub use blocks::block_count;
pub use clashes::{clash, corner, first_clash, may_clash};
pub use job::{Job, halves};
pub use laws::{
    base_is_sound, energy_is_sound, fit_is_sound, job_has_one_part, keys_are_small,
    keys_follow_order, paths_follow_codes, region_box_holds_region, reports_give_best,
};
pub use literal::Literal;
pub use meetings::{first_met, may_meet_piece, meets, meets_piece};
pub use order::{before, total};
pub use path_number::{key, path};
pub use plan::{Plan, best_exists, best_is_one};
pub use plan_box::PlanBox;
pub use region::{Prefix, Region, region_of};
