//! A deque at work, on one thread and on four.
use plan_rule::{Job, halves};
use std::alloc::AllocError;
use std::test::Fail;
use std::thread::{Threads, join_mut};
use steal_rule::{Owner, Reach, Stolen, Tally, deque, done};

/// How many jobs the threads take.
const JOBS: u32 = 60;

/// The word of the job with this place among those of length 6.
fn word_at(place: u32) -> u64 {
    u64::from(place) * 4_294_967_296 + 6
}

#[test]
fn halves_of_the_root_come_out_once(rt: HostRuntime) -> Result<(), Fail> {
    let Ok((mut owner, mut reach)) = deque(rt.alloc(), 3) else {
        panic!(rt; "no memory");
    };
    let Some((lower, upper)) = halves(Job::root()) else {
        panic!(rt; "the root has halves");
    };
    assert_eq!(rt; (owner.owner(), reach.owner(), reach.parts()), (3, 3, 16));
    assert_eq!(rt; owner.room(), 64);
    owner.push(lower);
    owner.push(upper);
    assert_eq!(rt; owner.room(), 62);
    let popped = owner.pop();
    assert_eq!(rt;
        popped,
        Some(Job {
            front: 0,
            length: 1
        })
    );
    let stolen = reach.steal();
    assert_eq!(rt;
        stolen,
        Stolen::Got(Job {
            front: 2_147_483_648,
            length: 1
        })
    );
    let stolen = reach.steal();
    assert_eq!(rt; stolen, Stolen::Empty);
    let None = owner.pop() else {
        panic!(rt; "a job is left");
    };
    let mut reaches = Vec::new(rt.alloc());
    reaches.push(reach)?;
    let tally = Tally {
        pushed: 2,
        popped: 1,
        stolen: 1,
    };
    assert_eq!(rt; done(owner, reaches), tally);
    Ok(())
}

/// An owner, and the jobs that it got.
#[derive(Drop)]
struct Boss {
    owner: Owner,
    got: Vec<Job>,
}

impl Boss {
    /// Pushes sixty jobs and pops after every second one; then pops until none is left.
    fn work(&mut self) -> Result<(), AllocError> {
        for place in 0..JOBS {
            if let Some(job) = Job::of_word(word_at(place))
                && self.owner.room() > 0
            {
                self.owner.push(job);
            }
            if place % 2 == 1
                && let Some(job) = self.owner.pop()
            {
                self.got.push(job)?;
            }
        }
        for _ in 0..JOBS {
            let Some(job) = self.owner.pop() else {
                break;
            };
            self.got.push(job)?;
        }
        Ok(())
    }
}

/// A reach, and the jobs that it got.
#[derive(Drop)]
struct Thief {
    reach: Reach,
    got: Vec<Job>,
}

impl Thief {
    /// Steals a thousand times, whatever it finds.
    fn work(&mut self) -> Result<(), AllocError> {
        for _ in 0..1_000 {
            if let Stolen::Got(job) = self.reach.steal() {
                self.got.push(job)?;
            }
        }
        Ok(())
    }
}

/// The boss and a thief at the same time; whether memory sufficed.
fn boss_and_thief<R: Threads + Sync>(rt: &R, boss: &mut Boss, thief: &mut Thief) -> bool {
    let (boss, thief) = join_mut(rt, &mut || boss.work(), &mut || thief.work());
    boss.is_ok() && thief.is_ok()
}

/// Two thieves at the same time; whether memory sufficed.
fn two_thieves<R: Threads + Sync>(rt: &R, first: &mut Thief, second: &mut Thief) -> bool {
    let (first, second) = join_mut(rt, &mut || first.work(), &mut || second.work());
    first.is_ok() && second.is_ok()
}

/// All four at the same time; whether memory sufficed.
fn all_four<R: Threads + Sync>(
    rt: &R,
    boss: &mut Boss,
    first: &mut Thief,
    second: &mut Thief,
    third: &mut Thief,
) -> bool {
    let (front, back) = join_mut(
        rt,
        &mut || boss_and_thief(rt, boss, first),
        &mut || two_thieves(rt, second, third),
    );
    front && back
}

#[test]
fn sixty_jobs_come_out_once_on_four_threads(rt: HostRuntime) -> Result<(), Fail> {
    let alloc = rt.alloc();
    let Ok((owner, mut reach)) = deque(alloc, 0) else {
        panic!(rt; "no memory");
    };
    let Ok(second) = reach.split(alloc) else {
        panic!(rt; "no memory");
    };
    let Ok(third) = reach.split(alloc) else {
        panic!(rt; "no memory");
    };
    assert_eq!(rt; (reach.parts(), second.parts(), third.parts()), (14, 1, 1));
    let mut boss = Boss {
        owner,
        got: Vec::new(alloc),
    };
    let mut first = Thief {
        reach,
        got: Vec::new(alloc),
    };
    let mut second = Thief {
        reach: second,
        got: Vec::new(alloc),
    };
    let mut third = Thief {
        reach: third,
        got: Vec::new(alloc),
    };
    let enough = all_four(&rt, &mut boss, &mut first, &mut second, &mut third);
    assert!(rt; enough, "no memory");
    let mut words = Vec::new(alloc);
    for got in [&boss.got, &first.got, &second.got, &third.got] {
        for job in got {
            words.push(job.word())?;
        }
    }
    words.sort()?;
    assert_eq!(rt; words.len(), 60);
    for (place, word) in (0..JOBS).zip(words.iter()) {
        assert_eq!(rt; *word, word_at(place), "at {place}");
    }
    Ok(())
}
