//! Runs a case as often as it says.

use crate::entry::{Case, Entry, first_word, is_one_of};
use crate::fault::CaseFault;
use crate::names::Names;
use crate::scene::{Left, Scene};
use crate::turns::first_other_turn;
use crate::wanted::first_other;
use std::alloc::Global;

/// How many runs there were, and what differed in some of them.
#[derive(Drop)]
pub struct Tally {
    pub alloc: Global,
    pub runs: u64,
    pub others: Vec<String>,
}

const KEYS: [&str; 23] = [
    "words", "ask", "load", "word", "input", "side", "planes", "put", "cut", "ends", "piece",
    "room", "fails", "status", "out", "err", "made", "places", "keep", "each", "row", "rows",
    "turns",
];

// Refuses keys that are none, and alternatives of what has none.
fn check_keys(case: &Case) -> Result<(), CaseFault> {
    for entry in case.entries.iter() {
        let key = entry.key.as_str();
        if !is_one_of(key, &KEYS) {
            return Err(CaseFault::at(entry.line, "no such key"));
        }
        if entry.is_other && !is_one_of(key, &["words", "ask", "load", "planes"]) {
            return Err(CaseFault::at(entry.line, "no alternatives"));
        }
    }
    Ok(())
}

// Names what the run left on `made`, where the case says so.
fn keep_made(case: &Case, left: &Left, names: &mut Names) -> Result<(), CaseFault> {
    if let Some(entry) = case.last("keep") {
        names.keep(entry.rest.as_str(), &left.made, "")?;
    }
    Ok(())
}

impl Tally {
    /// No runs.
    pub fn new(alloc: Global) -> Tally {
        Tally {
            alloc,
            runs: 0,
            others: Vec::new(alloc),
        }
    }

    // Runs the scene of a case, with the text of its row.
    fn judge_scene(
        &mut self,
        case: &Case,
        row: &str,
        scene: &Scene,
        names: &mut Names,
    ) -> Result<(), CaseFault> {
        self.runs = self.runs.saturating_add(1);
        let left = scene.run(None)?;
        keep_made(case, &left, names)?;
        let mut other = first_other(self.alloc, case, &left)?;
        if other.is_none() && case.last("turns").is_some() {
            other = first_other_turn(self.alloc, case, scene)?;
        }
        if let Some(other) = other {
            let line = case.line;
            let title = case.title.as_str();
            let text = format!(in self.alloc; "{line}: {title}: `{row}`: {other}")?;
            self.others.push(text)?;
        }
        Ok(())
    }

    // Runs the case with each of its alternatives.
    fn judge_row(&mut self, case: &Case, row: &str, names: &mut Names) -> Result<(), CaseFault> {
        let begins = case.alternatives(self.alloc, &["words", "ask", "load"])?;
        let files = case.alternatives(self.alloc, &["planes"])?;
        if begins.is_empty() {
            return Err(CaseFault::at(case.line, "no words"));
        }
        for begin in begins.iter() {
            if files.is_empty() {
                let scene = Scene::of(self.alloc, case, begin, None, names)?;
                self.judge_scene(case, row, &scene, names)?;
            }
            for file in files.iter() {
                let scene = Scene::of(self.alloc, case, begin, Some(file), names)?;
                self.judge_scene(case, row, &scene, names)?;
            }
        }
        Ok(())
    }

    // Runs the case for each number of a range, `3` or `0..31`.
    fn judge_range(
        &mut self,
        case: &Case,
        each: &Entry,
        range: &str,
        names: &mut Names,
    ) -> Result<(), CaseFault> {
        let (from, to) = range.split_once("..").unwrap_or((range, range));
        let from = each.number(from)?;
        let to = each.number(to)?;
        for number in from..=to {
            let row = format!(in self.alloc; "{number}")?;
            let case = case.of_row(self.alloc, row.as_str(), None)?;
            self.judge_row(&case, row.as_str(), names)?;
        }
        Ok(())
    }

    // Runs the case for one of its rows.
    fn judge_line(&mut self, case: &Case, row: &Entry, names: &mut Names) -> Result<(), CaseFault> {
        let mut wanted = row.copied()?;
        let (key, rest) = match case.last("rows") {
            Some(rows) => first_word(rows.rest.as_str()),
            None => ("err", ""),
        };
        wanted.key = String::from_str(self.alloc, key)?;
        wanted.rest = String::from_str(self.alloc, rest)?;
        let text = row.rest.as_str();
        let case = case.of_row(self.alloc, text, Some(wanted))?;
        self.judge_row(&case, text, names)
    }

    /// Runs a case.
    pub fn judge(&mut self, case: &Case, names: &mut Names) -> Result<(), CaseFault> {
        check_keys(case)?;
        let mut has_rows = false;
        if let Some(each) = case.last("each") {
            for range in each.rest.split_whitespace() {
                self.judge_range(case, each, range, names)?;
            }
            has_rows = true;
        }
        for entry in case.entries.iter() {
            if entry.key.as_str() == "row" {
                self.judge_line(case, entry, names)?;
                has_rows = true;
            }
        }
        if !has_rows {
            self.judge_row(case, "", names)?;
        }
        Ok(())
    }
}
