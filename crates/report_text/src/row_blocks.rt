//! A block of first rows, read line by line.

ghost use Rattle.std.specs.Prelude.{◌≡◌, ◌≤◌, IfOk, MatchBool, MatchOption, OnOk, length, true};
ghost use Rattle.report_text.specs.declared.rows.RowLine.{RowLine};
ghost use Rattle.report_text.specs.declared.rows.TopLine.{TopLine};
ghost use Rattle.report_text.specs.RowBlocks.{IsNextRow, IsNextTop, IsSkip, IsWhole, LacksPossible, RowsTold, TakesRows};
ghost use Rattle.report_text.specs.RowBlocks.{certain_rows, comes_before, first_line, is_behind, last_row, no_rows, possible_rows};
ghost use Rattle.report_text.specs.RowBlocks.{is_lacking, tag_bytes, told_rows, with_row};

use crate::rows::{RowLine, RowName, TopLine, read_row, read_top, written_skip, written_top};
use daq_table::{Text, TextBuf};
use std::alloc::{AllocError, Global};
use std::cmp::Ordering;
use std::marker::Model;

/// What the line before the rows says: how many there are, or, of so many that are asked for, that none is judged, and none listed.
#[derive(Clone, Copy, Debug, PartialEq, Eq)]
pub enum RowsTop {
    Counts(TopLine),
    Skipped(u64),
}

impl RowsTop {
    /// The line before the rows.
    pub fn written(self) -> TextBuf
        ensures text { result ≡ first_line self }
        ensures short { length result ≤ 330 }
    {
        match self {
            RowsTop::Counts(top) => written_top(top),
            RowsTop::Skipped(limit) => written_skip(limit),
        }
    }
}

/// A block of first rows, as far as it was read: what the line before the rows says, once that was read, and the rows.
#[derive(Drop)]
pub struct RowsBlock {
    top: Option<RowsTop>,
    rows: Vec<RowLine>,
    certain: usize,
}

impl Model for RowsBlock {
    ghost use Rattle.std.specs.Prelude.{◌≡◌};
    ghost use Rattle.report_text.specs.RowBlocks.{RowsTold, certain_rows};

    ghost Value = { RowsTold };

    ghost view = { λ b. record { top = b.top; rows = b.rows.items } };

    ghost invariant = { λ b. b.certain ≡ certain_rows b.rows.items };
}

// The bytes of a tag. A row of one table has none.
fn tag_bytes(tag: &Option<Text>) -> &[u8]
    ensures { result.now ≡ tag_bytes tag.now }
{
    match tag {
        Some(tag) => tag.as_slice(),
        None => &[],
    }
}

// Whether the one comes before the other: by tags, and of one tag by numbers.
fn comes_before(a: &RowName, b: &RowName) -> bool
    ensures { result ≡ comes_before a.now b.now }
{
    match tag_bytes(&a.tag).cmp(tag_bytes(&b.tag)) {
        Ordering::Less => true,
        Ordering::Equal => a.number < b.number,
        Ordering::Greater => false,
    }
}

// Whether the row comes behind the last of these.
fn is_behind(rows: &[RowLine], name: &RowName) -> bool
    ensures { result ≡ is_behind (last_row rows.now) name.now }
{
    if rows.is_empty() {
        return true;
    }
    comes_before(&rows[rows.len() - 1].name, name)
}

// How many of these rows are certain.
fn certain_rows(rows: &[RowLine]) -> usize
    ensures { result ≡ certain_rows rows.now }
{
    rows.iter().filter(|row| row.certain).count()
}

impl RowsBlock {
    /// The block before its first line.
    pub fn new(alloc: Global) -> RowsBlock
        ensures { result ≡ no_rows }
    {
        RowsBlock {
            top: None,
            rows: Vec::new(alloc),
            certain: 0,
        }
    }

    /// The block with this before its rows, and these rows.
    pub fn from_lines(top: RowsTop, rows: Vec<RowLine>) -> RowsBlock
        ensures { result ≡ told_rows top rows.items }
    {
        let certain = certain_rows(&rows);
        RowsBlock {
            top: Some(top),
            rows,
            certain,
        }
    }

    /// What the line before the rows says, once it was read.
    pub fn top(&self) -> Option<RowsTop>
        ensures { result ≡ self.now.top }
    {
        self.top
    }

    /// The rows that were read.
    pub fn rows(&self) -> &[RowLine]
        ensures { result.now ≡ self.now.rows }
    {
        &self.rows
    }

    // The numbers of rows, if the line is the first and tells them.
    fn next_top(&self, limit: u64, line: &[u8]) -> Option<TopLine>
        ensures { MatchOption result ((top : TopLine) → IsNextTop limit self.now line.now top → ⊥) (IsNextTop limit self.now line.now) }
    {
        if self.top.is_some() {
            return None;
        }
        let top = read_top(line)?;
        if top.limit == limit { Some(top) } else { None }
    }

    // Whether the line is the first, and tells that none of so many rows is judged.
    fn is_skip(&self, limit: u64, line: &[u8]) -> bool
        ensures yes { IsSkip limit self.now line.now → result ≡ true }
        ensures only { result ≡ true → IsSkip limit self.now line.now }
    {
        self.top.is_none() && written_skip(limit).bytes() == line
    }

    // How many rows are possible.
    #[tactic(auto, using(crate::proofs::RowCounts::possible_is))]
    fn possible(&self) -> usize
        ensures { result ≡ possible_rows self.now.rows }
    {
        self.rows.len() - self.certain
    }

    // Whether the number of such rows is not reached yet.
    fn is_lacking(&self, certain: bool) -> bool
        ensures { result ≡ is_lacking self.now.top self.now.rows certain }
    {
        match &self.top {
            Some(RowsTop::Counts(top)) if certain => (self.certain as u64) < top.certain,
            Some(RowsTop::Counts(top)) => (self.possible() as u64) < top.possible,
            Some(RowsTop::Skipped(_)) | None => false,
        }
    }

    // The next row, if the line tells one that comes behind all others, and is one of as many as there are.
    fn next_row(&self, alloc: Global, line: &[u8]) -> Result<Option<RowLine>, AllocError>
        ensures { IfOk result (λ read. MatchOption read
            ((row : RowLine) → IsNextRow self.now line.now row → ⊥)
            (IsNextRow self.now line.now)) }
    {
        match read_row(alloc, line)? {
            Some(row) if self.is_lacking(row.certain) && is_behind(&self.rows, &row.name) => {
                Ok(Some(row))
            }
            _ => Ok(None),
        }
    }

    // Puts a row behind the others.
    fn put(&mut self, row: RowLine) -> Result<(), AllocError>
        ensures { OnOk result (self.new ≡ with_row self.old row) }
    {
        let certain = row.certain;
        self.rows.push(row)?;
        if certain {
            self.certain += 1;
        }
        Ok(())
    }

    /// Takes the next line of the block, of a query that asks for so many rows. A line that no such block has at this place is refused, and
    /// changes nothing.
    pub fn take(&mut self, alloc: Global, limit: u64, line: &[u8]) -> Result<bool, AllocError>
        ensures { IfOk result (λ taken. MatchBool taken (TakesRows limit self.old line.now self.new)
            ((self.new ≡ self.old) × ((next : RowsTold) → TakesRows limit self.old line.now next → ⊥))) }
    {
        if let Some(top) = self.next_top(limit, line) {
            self.top = Some(RowsTop::Counts(top));
            return Ok(true);
        }
        if self.is_skip(limit, line) {
            self.top = Some(RowsTop::Skipped(limit));
            return Ok(true);
        }
        match self.next_row(alloc, line)? {
            Some(row) => {
                self.put(row)?;
                Ok(true)
            }
            None => Ok(false),
        }
    }

    /// Whether it has as many rows as were told, or none is judged.
    pub fn is_whole(&self) -> bool
        ensures yes { IsWhole self.now → result ≡ true }
        ensures only { result ≡ true → IsWhole self.now }
    {
        match &self.top {
            Some(RowsTop::Counts(top)) => {
                self.certain as u64 == top.certain && self.possible() as u64 == top.possible
            }
            Some(RowsTop::Skipped(_)) => true,
            None => false,
        }
    }

    /// Whether it has all certain rows, and none of the possible ones, of which there are some: they were not listed.
    pub fn lacks_possible(&self) -> bool
        ensures yes { LacksPossible self.now → result ≡ true }
        ensures only { result ≡ true → LacksPossible self.now }
    {
        match &self.top {
            Some(RowsTop::Counts(top)) => {
                self.certain as u64 == top.certain && top.possible > 0 && self.possible() == 0
            }
            Some(RowsTop::Skipped(_)) | None => false,
        }
    }
}
