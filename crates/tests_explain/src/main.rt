//! The program `tests_explain`: tells what a person is told of each refusal on its input, for whoever compares it with what is wanted.
//! A line `w` is a word of the command line, `l` the line of the refusal, `s` the schema of the table, `i` a line of the CSV or the script,
//! `v`, `p` and `r` a call that failed, the path and the reason; `.` ends a case.
#![tactic(auto)]

use explain::{Scene, Trouble, explain};
use std::alloc::{AllocError, Global};
use std::io;
use std::process::ExitCode;

// What is known of a refusal so far.
#[derive(Drop)]
struct Case {
    words: Vec<String>,
    line: String,
    schema: String,
    input: String,
    verb: String,
    path: String,
    reason: String,
}

impl Case {
    fn new(alloc: Global) -> Case {
        Case {
            words: Vec::new(alloc),
            line: String::new(alloc),
            schema: String::new(alloc),
            input: String::new(alloc),
            verb: String::new(alloc),
            path: String::new(alloc),
            reason: String::new(alloc),
        }
    }

    // Takes a line of the input.
    fn take(&mut self, alloc: Global, key: &str, text: &str) -> Result<(), AllocError> {
        match key {
            "w" => Ok(self.words.push(String::from_str(alloc, text)?)?),
            "l" => self.line.push_str(text),
            "s" => self.schema.push_str(text),
            "i" => {
                self.input.push_str(text)?;
                self.input.push_str("\n")
            }
            "v" => self.verb.push_str(text),
            "p" => self.path.push_str(text),
            "r" => self.reason.push_str(text),
            _ => Ok(()),
        }
    }

    // The line of the refusal, and what is told below it.
    fn told(&self, alloc: Global) -> Result<String, AllocError> {
        let mut words = Vec::new(alloc);
        for word in self.words.iter() {
            words.push(word.as_str())?;
        }
        let trouble = Trouble {
            verb: self.verb.as_str(),
            path: self.path.as_str(),
            reason: self.reason.as_str(),
        };
        let scene = Scene {
            words: words.as_slice(),
            line: self.line.as_str(),
            trouble: if self.verb.is_empty() {
                None
            } else {
                Some(trouble)
            },
            schema: self.schema.as_str(),
            input: self.input.as_bytes(),
        };
        let below = explain(alloc, &scene)?;
        format!(in alloc; "{}\n{}", self.line.as_str(), below.as_str())
    }
}

// What is told of all cases of a text.
fn told_of(alloc: Global, text: &str) -> Result<String, AllocError> {
    let mut out = String::new(alloc);
    let mut case = Case::new(alloc);
    for line in text.lines() {
        if line == "." {
            out.push_str(case.told(alloc)?.as_str())?;
            case = Case::new(alloc);
        } else {
            let (key, rest) = line.split_once(' ').unwrap_or((line, ""));
            case.take(alloc, key, rest)?;
        }
    }
    Ok(out)
}

// Reads the input and prints what is told.
fn tell(rt: &HostRuntime) -> io::Result<()> {
    let text = io::read_to_string(rt.alloc(), rt.stdin())?;
    let told = told_of(rt.alloc(), text.as_str())?;
    print!(rt; "{}", told.as_str())
}

fn main(rt: HostRuntime) -> ExitCode {
    match tell(&rt) {
        Ok(()) => ExitCode::SUCCESS,
        Err(_) => ExitCode::from(1),
    }
}
