//! Names in order, and the ranks of texts among them.

ghost use Rattle.std.specs.Prelude.{◌≡◌, ◌<◌, pos, length, map, vec_items, All, IfOk, IsTrue};
ghost use Rattle.std.specs.Cmp.Lexicographic.{slice_cmp};
ghost use Rattle.std.specs.List.{list_any};
ghost use Rattle.std.specs.List.Sorted.{IsStrictlySortedBy};
ghost use Rattle.std.specs.Ordering.{nat_cmp};
ghost use Rattle.std.specs.Str.{bytes_eq};
ghost use Rattle.daq_table.specs.Dictionaries.{rank_of};
ghost use Rattle.daq_table.specs.Raised.{lowered};

use daq_table::{Dictionary, Text, raise};
use std::alloc::{AllocError, Global};
use std::collections::BTreeSet;

/// The names, in order.
pub(crate) fn sorted_names(
    alloc: Global,
    names: &BTreeSet<Vec<u8>>,
) -> Result<Dictionary, AllocError>
    ensures same { IfOk result (λ n. n ≡ map vec_items names.now.keys) }
    ensures sorted { IfOk result (λ n. IsStrictlySortedBy (slice_cmp nat_cmp) n) }
{
    let mut texts = Vec::new(alloc);
    for name in names.iter() {
        texts.push(Text::new(Vec::from_slice(alloc, name)?))?;
    }
    Ok(Dictionary::new(texts))
}

// The place of the text among the names.
fn rank(names: &[Text], text: &[u8]) -> usize
    requires sorted { IsStrictlySortedBy (slice_cmp nat_cmp) names.now }
    requires known { IsTrue (list_any (bytes_eq text.now) names.now) }
    ensures rank { result ≡ rank_of names.now text.now }
    ensures within { result < length names.now }
{
    match names.binary_search_by(|name| name.as_slice().cmp(text)) {
        Ok(rank) => rank,
        Err(_) => unreachable!(),
    }
}

/// The ranks of texts that are all among the names, raised.
pub(crate) fn ranks_of(
    alloc: Global,
    texts: &[Vec<u8>],
    names: &[Text],
) -> Result<Vec<u64>, AllocError>
    requires sorted { IsStrictlySortedBy (slice_cmp nat_cmp) names.now }
    requires known { All (λ text. IsTrue (list_any (bytes_eq text) names.now)) (map vec_items texts.now) }
    ensures { IfOk result (λ ranks. map lowered ranks.items ≡ map (λ text. pos (rank_of names.now text)) (map vec_items texts.now)) }
{
    let mut ranks = Vec::with_capacity(alloc, texts.len())?;
    for text in texts {
        ranks.push(raise(rank(names, text) as i64))?;
    }
    Ok(ranks)
}
