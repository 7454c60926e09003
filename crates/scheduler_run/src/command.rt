//! The commands, as the words give them.
ghost use Rattle.std.specs.Prelude.{◌≡◌, ◌<◌, ◌≤◌, ◌^◌, [], ◌∷◌, IfSome, option_map, map};
ghost use Rattle.scheduler_run.specs.Words.{asked, asked_by, number_in, drawn_by, plan_asked, gen_asked, load_asked, IsInRange};

use text_parts::number_of;

/// The greatest seed.
const LAST_SEED: u64 = 2_147_483_647;

/// What the words ask for.
#[derive(Clone, Copy)]
pub(crate) enum Command<'a> {
    /// The best plan of a yard, and a log of it.
    Plan {
        yard: &'a str,
        log: &'a str,
        workers: u32,
        split: u8,
    },
    /// Whether the log shows that the plan is the best of the yard.
    Check {
        yard: &'a str,
        plan: &'a str,
        log: &'a str,
    },
    /// The yard that is drawn from a seed, with so many blocks.
    Gen {
        seed: u32,
        blocks: u8,
    },
    /// The summary of the best plan of that yard, by so many workers.
    Load {
        seed: u32,
        blocks: u8,
        workers: u32,
    },
}

/// The number that the word is in decimal digits, without a sign or a leading zero; None where it is none, or is not
/// within the limits.
fn number_within(least: u64, most: u64, word: &str) -> Option<u64>
    requires { most < 10 ^ 18 }
    ensures value { result ≡ number_in least most word.now }
    ensures least { IfSome result (λ n. least ≤ n) }
    ensures most { IfSome result (λ n. n ≤ most) }
{
    let number = number_of(most, word.as_bytes())?;
    if least <= number { Some(number) } else { None }
}

/// The number of workers.
fn number_of_workers(word: &str) -> Option<u32>
    ensures value { result ≡ number_in 1 16 word.now }
    ensures range { IfSome result (λ n. (1 ≤ n) × (n ≤ 16)) }
{
    let workers = number_within(1, 16, word)?;
    Some(workers as u32)
}

/// The command of two files, a number of workers and a split. A log may not stand in the yard's own file.
fn plan_of<'a>(yard: &'a str, log: &'a str, workers: &str, split: &str) -> Option<Command<'a>>
    ensures asked { option_map asked_by result ≡ plan_asked yard.now log.now workers.now split.now }
    ensures range { IfSome result IsInRange }
{
    if yard == log {
        return None;
    }
    let workers = number_of_workers(workers)?;
    let split = number_within(0, 20, split)? as u8;
    Some(Command::Plan {
        yard,
        log,
        workers,
        split,
    })
}

/// The seed and the number of blocks of a drawn yard.
fn drawn_by(seed: &str, blocks: &str) -> Option<(u32, u8)>
    ensures value { result ≡ drawn_by seed.now blocks.now }
    ensures seed { IfSome result (λ by. by.0 < 2 ^ 31) }
    ensures blocks { IfSome result (λ by. (1 ≤ by.1) × (by.1 ≤ 32)) }
{
    let seed = number_within(0, LAST_SEED, seed)? as u32;
    let blocks = number_within(1, 32, blocks)? as u8;
    Some((seed, blocks))
}

/// The command of a seed and a number of blocks.
fn gen_of<'a>(seed: &str, blocks: &str) -> Option<Command<'a>>
    ensures asked { option_map asked_by result ≡ gen_asked seed.now blocks.now }
    ensures range { IfSome result IsInRange }
{
    let (seed, blocks) = drawn_by(seed, blocks)?;
    Some(Command::Gen { seed, blocks })
}

/// The command of a seed, a number of blocks and a number of workers.
fn load_of<'a>(seed: &str, blocks: &str, workers: &str) -> Option<Command<'a>>
    ensures asked { option_map asked_by result ≡ load_asked seed.now blocks.now workers.now }
    ensures range { IfSome result IsInRange }
{
    let (seed, blocks) = drawn_by(seed, blocks)?;
    let workers = number_of_workers(workers)?;
    Some(Command::Load {
        seed,
        blocks,
        workers,
    })
}

/// What four words ask for.
fn command_of_four<'a>(
    command: &str,
    first: &'a str,
    second: &'a str,
    third: &'a str,
) -> Option<Command<'a>>
    ensures asked { option_map asked_by result ≡ asked (command.now ∷ first.now ∷ second.now ∷ third.now ∷ []) }
    ensures range { IfSome result IsInRange }
{
    if command == "check" {
        Some(Command::Check {
            yard: first,
            plan: second,
            log: third,
        })
    } else if command == "load" {
        load_of(first, second, third)
    } else {
        None
    }
}

/// What the words ask for; None where they are no command.
pub(crate) fn command_of<'a>(words: &[&'a str]) -> Option<Command<'a>>
    ensures asked { option_map asked_by result ≡ asked (map (λ w. w.now) words.now) }
    ensures range { IfSome result IsInRange }
{
    match words {
        [command, yard, log, workers, split] if *command == "plan" => {
            plan_of(yard, log, workers, split)
        }
        [command, first, second, third] => command_of_four(command, first, second, third),
        [command, seed, blocks] if *command == "gen" => gen_of(seed, blocks),
        _ => None,
    }
}
