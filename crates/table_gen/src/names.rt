//! The dictionary of column g, and the ranks of its texts.

ghost use Rattle.std.specs.Prelude.{◌≡◌, ◌<◌, ◌≤◌, All, IfOk, OnOk, pos, length, map, vec_items};
ghost use Rattle.std.specs.BTreeSet.{insert_key};
ghost use Rattle.std.specs.Cmp.Lexicographic.{slice_cmp};
ghost use Rattle.std.specs.List.Sorted.{IsStrictlySortedBy};
ghost use Rattle.std.specs.Ordering.{nat_cmp};
ghost use Rattle.daq_table.specs.Dictionaries.{distinct, rank_of};
ghost use Rattle.table_gen.specs.Draws.{text_of};

use daq_table::{Dictionary, Text};
use std::alloc::{AllocError, Global};
use std::collections::BTreeSet;

// The text of that number.
fn name_of(code: u8) -> [u8; 3]
    requires { code < 16 }
    ensures { result ≡ text_of code }
{
    [b'g', b'0' + code / 10, b'0' + code % 10]
}

// Adds the text of that number.
fn add_name(alloc: Global, names: &mut BTreeSet<Vec<u8>>, code: u8) -> Result<(), AllocError>
    requires { code < 16 }
    ensures { OnOk result (map vec_items names.new.keys ≡ insert_key (slice_cmp nat_cmp) (map vec_items names.old.keys) (text_of code)) }
{
    names.insert(Vec::from_slice(alloc, &name_of(code))?)?;
    Ok(())
}

// The texts of these numbers, each once.
fn distinct_names(alloc: Global, codes: &[u8]) -> Result<BTreeSet<Vec<u8>>, AllocError>
    requires { All (λ code. code < 16) codes.now }
    ensures { IfOk result (λ names. map vec_items names.keys ≡ distinct (map text_of codes.now)) }
{
    let mut names = BTreeSet::new(alloc);
    let mut seen = [false; 16];
    for code in codes {
        if !seen[*code as usize] {
            add_name(alloc, &mut names, *code)?;
            seen[*code as usize] = true;
        }
    }
    Ok(names)
}

/// The dictionary of the texts of these numbers.
pub(crate) fn dictionary(alloc: Global, codes: &[u8]) -> Result<Dictionary, AllocError>
    requires { All (λ code. code < 16) codes.now }
    ensures same { IfOk result (λ names. names ≡ distinct (map text_of codes.now)) }
    ensures sorted { IfOk result (λ names. IsStrictlySortedBy (slice_cmp nat_cmp) names) }
{
    let distinct = distinct_names(alloc, codes)?;
    let mut names = Vec::new(alloc);
    for name in distinct.iter() {
        names.push(Text::new(Vec::from_slice(alloc, name)?))?;
    }
    Ok(Dictionary::new(names))
}

// The place of the text of that number, and how many names there are where it is not among them.
fn place_of(names: &[Text], code: u8) -> usize
    requires { code < 16 }
    ensures place { result ≡ rank_of names.now (text_of code) }
    ensures within { result ≤ length names.now }
{
    let text = name_of(code);
    for (place, name) in names.iter().enumerate() {
        if text.as_slice() == name.as_slice() {
            return place;
        }
    }
    names.len()
}

// The same as a number of the column.
fn rank(names: &[Text], code: u8) -> i64
    requires { code < 16 }
    ensures { result ≡ pos (rank_of names.now (text_of code)) }
{
    place_of(names, code) as i64
}

/// The ranks of the texts of these numbers.
pub(crate) fn ranks(alloc: Global, codes: &[u8], names: &[Text]) -> Result<Vec<i64>, AllocError>
    requires { All (λ code. code < 16) codes.now }
    ensures { IfOk result (λ ranks. ranks.items ≡ map (λ code. pos (rank_of names.now (text_of code))) codes.now) }
{
    let mut table = [0; 16];
    for code in 0..16 {
        table[code as usize] = rank(names, code);
    }
    let mut ranks = Vec::with_capacity(alloc, codes.len())?;
    for code in codes {
        ranks.push(table[*code as usize])?;
    }
    Ok(ranks)
}
