//! Reads a text of cases, line by line.

use crate::entry::{Case, Entry, first_word, is_one_of};
use crate::fault::CaseFault;
use crate::grid::keep_grid;
use crate::names::Names;
use std::alloc::Global;
use std::mem;

/// What is read so far of a text: how many lines, and what began last with its entries.
#[derive(Drop)]
pub struct Reader {
    alloc: Global,
    line: usize,
    section: Vec<Entry>,
}

// Appends the bytes in hex, the words of a text up to a comment.
fn push_hex(entry: &mut Entry, line: usize, text: &str) -> Result<(), CaseFault> {
    let (front, _) = text.split_once('#').unwrap_or((text, ""));
    for word in front.split_whitespace() {
        match u8::from_str_radix(word, 16) {
            Ok(byte) => entry.bytes.push(byte)?,
            Err(_) => return Err(CaseFault::at(line, "no byte in hex")),
        }
    }
    Ok(())
}

// Appends bytes in hex so often as the first word says.
fn push_often(entry: &mut Entry, line: usize, text: &str) -> Result<(), CaseFault> {
    let (times, hex) = first_word(text);
    let Ok(times) = times.parse::<usize>() else {
        return Err(CaseFault::at(line, "no number"));
    };
    for _ in 0..times {
        push_hex(entry, line, hex)?;
    }
    Ok(())
}

// The part of the bytes that is named by `FROM..TO`; all, where nothing is.
fn part_of<'a>(bytes: &'a [u8], part: &str) -> Option<&'a [u8]> {
    if part.is_empty() {
        return Some(bytes);
    }
    let (from, to) = part.split_once("..")?;
    let from = from.parse::<usize>().ok()?;
    let to = to.parse::<usize>().ok()?;
    bytes.get(from..to)
}

// Appends bytes that have a name, or a part of them.
fn push_named(entry: &mut Entry, line: usize, text: &str, names: &Names) -> Result<(), CaseFault> {
    let (name, part) = first_word(text);
    let Some(named) = names.find(name) else {
        return Err(CaseFault::at(line, "no such name"));
    };
    let Some(bytes) = part_of(&named.bytes, part) else {
        return Err(CaseFault::at(line, "no such part"));
    };
    entry.bytes.extend_from_slice(bytes)?;
    Ok(())
}

// Appends a line to the bytes.
fn push_line(entry: &mut Entry, text: &str) -> Result<(), CaseFault> {
    entry.bytes.extend_from_slice(text.as_bytes())?;
    entry.bytes.push(b'\n')?;
    Ok(())
}

// Appends what a line of bytes says.
fn push_bytes(entry: &mut Entry, line: usize, text: &str, names: &Names) -> Result<(), CaseFault> {
    if let Some(text) = text.strip_prefix('|') {
        push_line(entry, text)
    } else if let Some(text) = text.strip_prefix('%') {
        entry.is_open = true;
        push_line(entry, text)
    } else if let Some(text) = text.strip_prefix(':') {
        Ok(entry.bytes.extend_from_slice(text.as_bytes())?)
    } else if let Some(text) = text.strip_prefix('$') {
        push_hex(entry, line, text)
    } else if let Some(text) = text.strip_prefix('*') {
        push_often(entry, line, text)
    } else if let Some(text) = text.strip_prefix('@') {
        push_named(entry, line, text, names)
    } else {
        Err(CaseFault::at(line, "no such mark"))
    }
}

// The entry that a line begins.
fn entry_of(alloc: Global, line: usize, text: &str) -> Result<Entry, CaseFault> {
    let is_other = text.starts_with("or ");
    let (key, rest) = first_word(text.strip_prefix("or ").unwrap_or(text));
    Ok(Entry {
        line,
        key: String::from_str(alloc, key)?,
        rest: String::from_str(alloc, rest)?,
        bytes: Vec::new(alloc),
        is_open: false,
        is_other,
    })
}

// The case of these entries, of which those of the base that it is like come first.
fn case_of(alloc: Global, section: Vec<Entry>, names: &Names) -> Result<Case, CaseFault> {
    let mut case = Case {
        line: 0,
        title: String::new(alloc),
        entries: Vec::new(alloc),
    };
    for entry in section {
        match entry.key.as_str() {
            "case" | "base" => {
                case.line = entry.line;
                case.title = entry.rest.clone()?;
            }
            "like" => {
                let Some(base) = names.base(entry.rest.as_str()) else {
                    return Err(CaseFault::at(entry.line, "no such base"));
                };
                for older in base.entries.iter() {
                    case.entries.push(older.copied()?)?;
                }
            }
            _ => case.entries.push(entry)?,
        }
    }
    Ok(case)
}

impl Reader {
    /// Nothing is read.
    pub fn new(alloc: Global) -> Reader {
        Reader {
            alloc,
            line: 0,
            section: Vec::new(alloc),
        }
    }

    /// Reads a line, and gives the case that it ends, if any.
    pub fn read_line(&mut self, text: &str, names: &mut Names) -> Result<Option<Case>, CaseFault> {
        self.line = self.line.saturating_add(1);
        let line = self.line;
        if text.is_empty() || text.starts_with('#') {
            return Ok(None);
        }
        if !text.starts_with(|c: char| c.is_ascii_lowercase()) {
            let Some(entry) = self.section.last_mut() else {
                return Err(CaseFault::at(line, "bytes of nothing"));
            };
            push_bytes(entry, line, text, names)?;
            return Ok(None);
        }
        let entry = entry_of(self.alloc, line, text)?;
        let ended = if is_one_of(
            entry.key.as_str(),
            &["bytes", "table", "grid", "base", "case"],
        ) {
            self.end(names)?
        } else {
            None
        };
        self.section.push(entry)?;
        Ok(ended)
    }

    /// Ends what began last, and gives the case that it is, if it is one.
    pub fn end(&mut self, names: &mut Names) -> Result<Option<Case>, CaseFault> {
        let section = mem::replace(&mut self.section, Vec::new(self.alloc));
        let Some(first) = section.first() else {
            return Ok(None);
        };
        if let Some(second) = section.get(1)
            && !is_one_of(first.key.as_str(), &["case", "base"])
        {
            return Err(CaseFault::at(second.line, "no case"));
        }
        let (name, schema) = first_word(first.rest.as_str());
        match first.key.as_str() {
            "case" => Ok(Some(case_of(self.alloc, section, names)?)),
            "base" => {
                let base = case_of(self.alloc, section, names)?;
                names.keep_base(base)?;
                Ok(None)
            }
            "grid" => {
                keep_grid(self.alloc, first, names)?;
                Ok(None)
            }
            "bytes" | "table" => {
                names.keep(name, &first.bytes, schema)?;
                Ok(None)
            }
            _ => Err(CaseFault::at(first.line, "no case")),
        }
    }
}
