//! The entries of a case.

use crate::fault::CaseFault;
use std::alloc::{AllocError, Global};
use std::str::from_utf8;

/// A key, the rest of its line, and the bytes below it.
#[derive(Drop)]
pub struct Entry {
    pub line: usize,
    pub key: String,
    pub rest: String,
    pub bytes: Vec<u8>,
    /// Whether the bytes hold a place for the text of a row.
    pub is_open: bool,
    /// Whether it is one more of what the entry before it is.
    pub is_other: bool,
}

/// A case: its entries, without those that begin it.
#[derive(Drop)]
pub struct Case {
    pub line: usize,
    pub title: String,
    pub entries: Vec<Entry>,
}

/// Parts a text at its first blank. Behind no blank there is nothing.
pub fn first_word(text: &str) -> (&str, &str) {
    text.split_once(' ').unwrap_or((text, ""))
}

/// Whether a word is one of these.
pub fn is_one_of(word: &str, words: &[&str]) -> bool {
    for other in words {
        if *other == word {
            return true;
        }
    }
    false
}

// The text with this one in each place that is open.
fn filled(alloc: Global, text: &str, row: &str) -> Result<String, AllocError> {
    let mut whole = String::new(alloc);
    let mut is_first = true;
    for part in text.split("{}") {
        if !is_first {
            whole.push_str(row)?;
        }
        whole.push_str(part)?;
        is_first = false;
    }
    Ok(whole)
}

impl Entry {
    /// The same entry once more.
    pub fn copied(&self) -> Result<Entry, AllocError> {
        Ok(Entry {
            line: self.line,
            key: self.key.clone()?,
            rest: self.rest.clone()?,
            bytes: self.bytes.clone()?,
            is_open: self.is_open,
            is_other: self.is_other,
        })
    }

    /// The entry with the text of a row in its open places.
    pub fn of_row(&self, alloc: Global, row: &str) -> Result<Entry, CaseFault> {
        let mut entry = self.copied()?;
        entry.rest = filled(alloc, self.rest.as_str(), row)?;
        if self.is_open {
            let Ok(text) = from_utf8(&self.bytes) else {
                return Err(CaseFault::at(self.line, "no text"));
            };
            entry.bytes = filled(alloc, text, row)?.into_bytes();
        }
        Ok(entry)
    }

    /// The bytes as a text.
    pub fn text(&self) -> Result<&str, CaseFault> {
        match from_utf8(&self.bytes) {
            Ok(text) => Ok(text),
            Err(_) => Err(CaseFault::at(self.line, "no text")),
        }
    }

    /// The number that a word of this entry is.
    pub fn number(&self, word: &str) -> Result<usize, CaseFault> {
        match word.parse::<usize>() {
            Ok(number) => Ok(number),
            Err(_) => Err(CaseFault::at(self.line, "no number")),
        }
    }

    /// The byte that a word of this entry is, in hex.
    pub fn byte(&self, word: &str) -> Result<u8, CaseFault> {
        match u8::from_str_radix(word, 16) {
            Ok(byte) => Ok(byte),
            Err(_) => Err(CaseFault::at(self.line, "no byte in hex")),
        }
    }
}

impl Case {
    /// The last entry of that key.
    pub fn last(&self, key: &str) -> Option<&Entry> {
        let mut last = None;
        for entry in self.entries.iter() {
            if entry.key.as_str() == key {
                last = Some(entry);
            }
        }
        last
    }

    /// The last entry of that key for a device, and what stands behind the device.
    pub fn setting(&self, key: &str, device: &str) -> Option<(&Entry, &str)> {
        let mut last = None;
        for entry in self.entries.iter() {
            let (first, rest) = first_word(entry.rest.as_str());
            if entry.key.as_str() == key && first == device {
                last = Some((entry, rest));
            }
        }
        last
    }

    /// The last entry of one of these keys, with its alternatives.
    pub fn alternatives(&self, alloc: Global, keys: &[&str]) -> Result<Vec<&Entry>, AllocError> {
        let mut found = Vec::new(alloc);
        for entry in self.entries.iter() {
            if is_one_of(entry.key.as_str(), keys) {
                if !entry.is_other {
                    found.clear();
                }
                found.push(entry)?;
            }
        }
        Ok(found)
    }

    /// The case of one row: without rows, with the row's text in the open places, and with this entry behind the others.
    pub fn of_row(
        &self,
        alloc: Global,
        row: &str,
        wanted: Option<Entry>,
    ) -> Result<Case, CaseFault> {
        let mut entries = Vec::new(alloc);
        for entry in self.entries.iter() {
            if !is_one_of(entry.key.as_str(), &["row", "rows", "each"]) {
                entries.push(entry.of_row(alloc, row)?)?;
            }
        }
        if let Some(entry) = wanted {
            entries.push(entry)?;
        }
        Ok(Case {
            line: self.line,
            title: self.title.clone()?,
            entries,
        })
    }
}
