//! The words of the command line.

ghost use Rattle.std.specs.Prelude.{◌≤◌, IfSome};

use std::env;

// What is timed.
#[derive(Clone, Copy)]
pub(crate) enum Work {
    // The highest plane is cut.
    Cut,
    // The next plane is cut and taken.
    Take,
    // The same, and a filter follows.
    Follow,
    // The planes are cut and taken, and then the numbers of all rows are read over and over and summed.
    Sum,
}

// What is timed, over how many rows and how often.
#[derive(Clone, Copy)]
pub(crate) struct Job {
    pub(crate) work: Work,
    pub(crate) rows: usize,
    pub(crate) rounds: u8,
}

fn read_work(word: &str) -> Option<Work> {
    match word {
        "cut" => Some(Work::Cut),
        "take" => Some(Work::Take),
        "follow" => Some(Work::Follow),
        "sum" => Some(Work::Sum),
        _ => None,
    }
}

// The work, at most 2^24 rows and 1 to 32 rounds.
pub(crate) fn read_words(rt: &HostRuntime) -> Option<Job>
    ensures few { IfSome result (λ job. job.rows ≤ 16777216) }
    ensures rounds { IfSome result (λ job. (1 ≤ job.rounds) × (job.rounds ≤ 32)) }
{
    let mut words = env::args(rt).ok()?.skip(1);
    let work = read_work(words.next()?.as_str())?;
    let rows = words.next()?.parse::<usize>().ok()?;
    let rounds = words.next()?.parse::<u8>().ok()?;
    if rows > 1 << 24 || rounds == 0 || rounds > 32 {
        return None;
    }
    Some(Job { work, rows, rounds })
}
