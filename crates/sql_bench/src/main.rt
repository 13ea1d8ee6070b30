//! The program `sql_bench`: reads an SQL text so often as its first word says, for `bench/sql.sh`, which times it.
#![tactic(auto)]

ghost use Rattle.std.specs.Prelude.{◌≤◌};
ghost use Rattle.sql_text.specs.Tree.{Query};
ghost use Rattle.sql_text.specs.Answer.{IsText};

use sql_text::parse;
use std::alloc::Global;
use std::env;
use std::process::ExitCode;

// How many of these times the text is read as a query.
fn read_often(alloc: Global, text: &str, times: u32) -> u32
    ensures most { result ≤ times }
    ensures queries { 1 ≤ result → (q : Query) × IsText text.now q }
{
    let mut read = 0;
    for _ in 0..times {
        if parse(alloc, text).is_ok() {
            read += 1;
        }
    }
    read
}

// The count and the text that are the words of the command line.
fn read_words(rt: &HostRuntime) -> Option<(u32, String)> {
    let mut words = env::args(rt).ok()?.skip(1);
    let times = words.next()?.parse::<u32>().ok()?;
    Some((times, words.next()?))
}

fn main(rt: HostRuntime) -> ExitCode {
    let Some((times, text)) = read_words(&rt) else {
        return ExitCode::from(2);
    };
    let read = read_often(rt.alloc(), text.as_str(), times);
    match println!(rt; "{read} of {times}") {
        Ok(()) => ExitCode::SUCCESS,
        Err(_) => ExitCode::from(1),
    }
}
