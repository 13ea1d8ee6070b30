//! A list of texts of which each is kept once.

ghost use Rattle.std.specs.Prelude.{◌≡◌, ◌↔◌, ◌<◌, ◌++◌, ◌∷◌, [], All, length};
ghost use Rattle.std.specs.Prelude.{map, pos, slice_get, slice_index_or, vec_items, IfOk, IsTrue, OnErr, Some};
ghost use Rattle.std.specs.Cmp.Lexicographic.{slice_cmp};
ghost use Rattle.std.specs.List.Sorted.{IsStrictlySortedBy};
ghost use Rattle.std.specs.Ordering.{nat_cmp};
ghost use Rattle.daq_table.specs.Dictionaries.{distinct, rank_of};
ghost use Rattle.csv_load.specs.Columns.{IsShortText};
ghost use Rattle.csv_load.specs.Numbered.{Numbers};
ghost use Rattle.daq_table.specs.Raised.{lowered};

use crate::ranks::{ranks_of, sorted_names};
use daq_table::{Dictionary, Text};
use indexmap::IndexSet;
use std::alloc::{AllocError, Global};
use std::collections::BTreeSet;
use std::marker::Model;
use std::str::from_utf8;

/// A list of texts of UTF-8 and at most 255 bytes. Those that differ are kept in the order in which they came, and of each
/// text of the list its number among them.
#[derive(Drop)]
pub(crate) struct Texts {
    kept: IndexSet<Vec<u8>>,
    numbers: Vec<u64>,
    // at each text's place the number of one that stood there lately
    hints: [usize; 256],
}

impl Model for Texts {
    ghost use Rattle.std.specs.Prelude.{List, ℕ, map, vec_items};
    ghost use Rattle.csv_load.specs.Numbered.{AreNumbered, texts_at};

    ghost Value = { List (List ℕ) };

    ghost view = { λ t. texts_at (map vec_items t.kept.keys) t.numbers.items };

    ghost invariant = { λ t. AreNumbered (map vec_items t.kept.keys) t.numbers.items };
}

// Whether the bytes are a text of a dictionary.
fn is_short_text(bytes: &[u8]) -> bool
    ensures { IsTrue result ↔ IsShortText bytes.now }
{
    bytes.len() <= 255 && from_utf8(bytes).is_ok()
}

// Whether that number of those that are kept is the text's.
fn is_at(kept: &IndexSet<Vec<u8>>, number: usize, text: &[u8]) -> bool
    ensures { IsTrue result → slice_get (map vec_items kept.now.keys) number ≡ Some text.now }
{
    match kept.get_index(number) {
        Some(known) => known.as_slice() == text,
        None => false,
    }
}

// The place of a text among the hints: few texts of a column share one where they are few.
fn hint_place(text: &[u8]) -> usize
    ensures { result < 256 }
{
    if text.is_empty() {
        return 0;
    }
    let first = text[0] as usize;
    let last = text[text.len() - 1] as usize;
    (first + 2 * last + 16 * (text.len() % 256)) % 256
}

// The number of the text among those that are kept, which it joins where it is new. None where it is no text of a
// dictionary: those that are kept are.
fn number_sought(
    alloc: Global,
    kept: &mut IndexSet<Vec<u8>>,
    text: &[u8],
) -> Result<Option<usize>, AllocError>
    requires { All IsShortText (map vec_items kept.old.keys) }
    ensures ok { IfOk result (λ number. Numbers (map vec_items kept.old.keys) (map vec_items kept.new.keys) text.now number) }
    ensures err { OnErr result (kept.new.keys ≡ kept.old.keys) }
{
    if let Some(number) = kept.get_index_of(text) {
        return Ok(Some(number));
    }
    if !is_short_text(text) {
        return Ok(None);
    }
    let (number, _) = kept.insert_full(Vec::from_slice(alloc, text)?)?;
    Ok(Some(number))
}

// The same by the hint at the text's place, where it is right.
fn number_of(
    alloc: Global,
    kept: &mut IndexSet<Vec<u8>>,
    hints: &mut [usize; 256],
    text: &[u8],
) -> Result<Option<usize>, AllocError>
    requires { All IsShortText (map vec_items kept.old.keys) }
    ensures ok { IfOk result (λ number. Numbers (map vec_items kept.old.keys) (map vec_items kept.new.keys) text.now number) }
    ensures err { OnErr result (kept.new.keys ≡ kept.old.keys) }
{
    let place = hint_place(text);
    let hint = hints[place];
    if is_at(kept, hint, text) {
        return Ok(Some(hint));
    }
    let number = number_sought(alloc, kept, text)?;
    if let Some(found) = number {
        hints[place] = found;
    }
    Ok(number)
}

// Puts in the place of each number what stands there in the list.
fn become_ranks(numbers: &mut [u64], ranks: &[u64])
    requires { All (λ n. n < length ranks.now) numbers.old }
    ensures { numbers.new ≡ map (λ n. slice_index_or ranks.now n 0) numbers.old }
{
    for number in numbers.iter_mut() {
        *number = ranks[*number as usize];
    }
}

impl Texts {
    /// No texts.
    pub(crate) fn new(alloc: Global) -> Texts
        ensures { result ≡ [] }
    {
        Texts {
            kept: IndexSet::new(alloc),
            numbers: Vec::new(alloc),
            hints: [0; 256],
        }
    }

    /// Adds the bytes, if they are a text of UTF-8 and at most 255 bytes, and answers whether they are.
    pub(crate) fn push(&mut self, alloc: Global, text: &[u8]) -> Result<bool, AllocError>
        ensures short { IfOk result (λ added. IsTrue added ↔ IsShortText text.now) }
        ensures added { IfOk result (λ added. IsTrue added → self.new ≡ self.old ++ text.now ∷ []) }
    {
        self.numbers.reserve(1)?;
        let Some(number) = number_of(alloc, &mut self.kept, &mut self.hints, text)? else {
            return Ok(false);
        };
        self.numbers.push_reserved(number as u64);
        Ok(true)
    }

    /// How many of the texts differ.
    pub(crate) fn count(&self) -> usize
        ensures { result ≡ length (distinct self.now) }
    {
        self.kept.len()
    }

    /// The texts, each once and in order.
    pub(crate) fn dictionary(&self, alloc: Global) -> Result<Dictionary, AllocError>
        ensures same { IfOk result (λ names. names ≡ distinct self.now) }
        ensures sorted { IfOk result (λ names. IsStrictlySortedBy (slice_cmp nat_cmp) names) }
    {
        let mut sorted = BTreeSet::new(alloc);
        for text in self.kept.as_slice() {
            sorted.insert(Vec::from_slice(alloc, text)?)?;
        }
        sorted_names(alloc, &sorted)
    }

    /// The ranks of the texts in their dictionary, raised.
    pub(crate) fn into_ranks(self, alloc: Global, names: &[Text]) -> Result<Vec<u64>, AllocError>
        requires names { names.now ≡ distinct self }
        requires sorted { IsStrictlySortedBy (slice_cmp nat_cmp) names.now }
        ensures { IfOk result (λ ranks. map lowered ranks.items ≡ map (λ text. pos (rank_of names.now text)) self) }
    {
        let Texts {
            kept,
            mut numbers,
            ..
        } = self;
        let ranks = ranks_of(alloc, kept.as_slice(), names)?;
        become_ranks(&mut numbers, &ranks);
        Ok(numbers)
    }
}
