//! The program `tests_cases`: runs the cases of the files that its words name, whole runs of `daq` over devices in memory, and tells
//! which of them end otherwise than they say.
#![tactic(auto)]

mod entry;
mod fault;
mod grid;
mod judge;
mod names;
mod reader;
mod scene;
mod shelf;
mod turns;
mod wanted;

use fault::CaseFault;
use judge::Tally;
use names::Names;
use reader::Reader;
use std::alloc::Global;
use std::process::ExitCode;
use std::{env, fs, io};

// Runs the cases of a text.
fn judge_text(alloc: Global, text: &str, names: &mut Names) -> Result<Tally, CaseFault> {
    let mut tally = Tally::new(alloc);
    let mut reader = Reader::new(alloc);
    for line in text.lines() {
        if let Some(case) = reader.read_line(line, names)? {
            tally.judge(&case, names)?;
        }
    }
    if let Some(case) = reader.end(names)? {
        tally.judge(&case, names)?;
    }
    Ok(tally)
}

// Runs the cases of a file and prints which differ, and how many there are. Answers whether none differs.
fn judge_file(rt: &HostRuntime, file: &str, names: &mut Names) -> io::Result<bool> {
    let text = fs::read_to_string(rt, file)?;
    match judge_text(rt.alloc(), text.as_str(), names) {
        Ok(tally) => {
            for other in tally.others.iter() {
                println!(rt; "{file}:{other}")?;
            }
            let runs = tally.runs;
            let others = tally.others.len();
            println!(rt; "{file}: {runs} cases, {others} differ")?;
            Ok(others == 0)
        }
        Err(CaseFault { line, why }) => {
            println!(rt; "{file}:{line}: {why}")?;
            Ok(false)
        }
    }
}

// The same of all files that the words name.
fn judge_files(rt: &HostRuntime) -> io::Result<bool> {
    let mut names = Names::new(rt.alloc());
    let mut is_so = true;
    for file in env::args(rt)?.skip(1) {
        if !judge_file(rt, file.as_str(), &mut names)? {
            is_so = false;
        }
    }
    Ok(is_so)
}

fn main(rt: HostRuntime) -> ExitCode {
    match judge_files(&rt) {
        Ok(true) => ExitCode::SUCCESS,
        Ok(false) => ExitCode::from(1),
        Err(_) => ExitCode::from(2),
    }
}
