//! Jobs: intervals of path numbers.
ghost use Rattle.std.specs.Prelude.{◌≡◌};
ghost use Rattle.plan_rule.specs.Jobs.{IsJob, IsJobOf, AreHalves, word};

/// The plans whose path numbers agree with `front` in the first `length` bits. The length is at most 32, and the bits
/// of the front past it are 0.
#[derive(Clone, Copy, PartialEq, Eq, Debug)]
pub struct Job {
    pub front: u32,
    pub length: u8,
}

impl Job {
    /// The job of all path numbers.
    pub fn root() -> Job
        ensures value { result ≡ record { front = 0; length = 0 } }
        ensures job { IsJob result }
    {
        Job {
            front: 0,
            length: 0,
        }
    }

    /// The job as one number, `front * 64 + length`.
    pub fn word(self) -> u64
        ensures { result ≡ word self }
    {
        u64::from(self.front) * 64 + u64::from(self.length)
    }

    /// The job of a number; none where the number is no job.
    pub fn of_word(word: u64) -> Option<Job>
        ensures { IsJobOf word result }
    {
        let front = word / 64;
        let length = word % 64;
        if length > 32 || front > u64::from(u32::MAX) {
            return None;
        }
        if front % 2u64.pow(32 - length as u32) != 0 {
            return None;
        }
        Some(Job {
            front: front as u32,
            length: length as u8,
        })
    }
}

/// The two halves of a job, the lower first; none where its length is 32.
pub fn halves(job: Job) -> Option<(Job, Job)>
    requires { IsJob job }
    ensures { AreHalves job result }
{
    if job.length == 32 {
        return None;
    }
    let length = job.length + 1;
    let lower = Job {
        front: job.front,
        length,
    };
    let upper = Job {
        front: job.front + 2u32.pow(32 - u32::from(length)),
        length,
    };
    Some((lower, upper))
}
