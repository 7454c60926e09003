//! The jobs that a worker takes from its own deque and from others.
ghost use Rattle.std.specs.Prelude.{slice_index_or, ◌≡◌, ◌+◌, ◌-◌, ◌<◌, ◌≤◌, ◌⊎◌, ℕ, map, length, true, All, IfNone, IfSome};
ghost use Rattle.plan_rule.specs.declared.job.Job.{Job};
ghost use Rattle.plan_rule.specs.Jobs.{IsJob};
ghost use Rattle.steal_rule.specs.Deques.{Reaching};
ghost use Rattle.branch_workers.specs.Work.{robbed, weight_of_job, steals_of, place_of, IsSameOwner, KeepsPace, IsNext, IsIdle};

use plan_rule::Job;
use steal_rule::{Owner, Reach, Stolen};

/// Tries each deque once, and answers a job that one of them gave; `left` is how many steals may still be made.
fn try_each(reaches: &mut [Reach], left: &mut u32) -> Option<Job>
    ensures same { map place_of reaches.new ≡ map place_of reaches.old }
    ensures robbed { (h : Job → ℕ) → robbed h reaches.new ≡ robbed h reaches.old + weight_of_job h result }
    ensures steals { steals_of reaches.new + left.new ≡ steals_of reaches.old + left.old }
    ensures each { (k : ℕ) (d : Reaching) → k < length reaches.old → (slice_index_or reaches.new k d).steals ≤ (slice_index_or reaches.old k d).steals + 1 }
    ensures none { IfNone result ((left.new ≡ 0) ⊎ All (λ r. (r.empty ≡ true) × (0 < r.steals)) reaches.new) }
    ensures some { IfSome result (λ job. IsJob job × (left.new < left.old)) }
{
    for i in 0..reaches.len() {
        if *left == 0 {
            return None;
        }
        *left -= 1;
        if let Stolen::Got(job) = reaches[i].steal() {
            return Some(job);
        }
    }
    None
}

/// The next job: one of the worker's own, or else one that is stolen.
pub(crate) fn next_job(owner: &mut Owner, reaches: &mut [Reach], left: &mut u32) -> Option<Job>
    requires pace { KeepsPace 0 reaches.old }
    ensures next { IsNext owner.old owner.new reaches.old reaches.new left.old left.new result }
    ensures none { IfNone result (IsIdle owner.new reaches.new left.new) }
    ensures some { IfSome result (λ job. IsJob job × (64 - length owner.new.popped + left.new < 64 - length owner.old.popped + left.old)) }
{
    match owner.pop() {
        Some(job) => Some(job),
        None => try_each(reaches, left),
    }
}

/// Takes what is left of the deque.
pub(crate) fn drain(owner: &mut Owner)
    ensures owner { IsSameOwner owner.old owner.new × (owner.new.pushed ≡ owner.old.pushed) }
    ensures idle { owner.new.idle ≡ true }
{
    while let Some(_) = owner.pop() {}
}
