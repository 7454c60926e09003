//! The report on a job.
use plan_rule::{Job, Plan};

/// What a search found in a job's region: the best plan, the bar as it was seen last, and the number of the record whose
/// result contains the region.
#[derive(Drop)]
pub struct Report {
    pub job: Job,
    pub best: Option<Plan>,
    pub seen: u64,
    pub refutation: u64,
}
