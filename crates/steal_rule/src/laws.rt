//! What the rule of a deque says of the pushed jobs, as calls that do nothing and whose contracts are the laws.
ghost use Rattle.steal_rule.specs.Laws.{IdleOwnersLeaveNone, JobsAreTakenOnce};

/// At any moment, whatever the owner and its thieves have done and in whatever order: each cell was emptied at most
/// once. However jobs are weighed, those that were taken and those that lie in the cells weigh what the owner has
/// pushed.
pub fn jobs_are_taken_once()
    ensures { JobsAreTakenOnce }
{}

/// At any moment: where the owner is idle, which is so from a `pop` that answers None until the next push, no pushed job
/// is left in a cell.
pub fn idle_owners_leave_none()
    ensures { IdleOwnersLeaveNone }
{}
