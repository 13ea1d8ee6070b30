//! Texts in quotes, and the words of a text that stand outside of them.

ghost use Rattle.std.specs.Prelude.{◌≡◌, ◌<◌, ◌≤◌, ◌++◌, ℕ, List, Some, None, IfOk, IfSome, OnOk, drop, false, length};
ghost use Rattle.daq_table.specs.ValueTexts.{quoted_text};
ghost use Rattle.report_text.specs.Parted.{IsParted};
ghost use Rattle.report_text.specs.Quotes.{IsWord, LacksOutside, begins_outside, last_outside, place_outside, turned, undoubled};

use crate::layouts::behind;
use daq_table::Text;
use std::alloc::{AllocError, Global};

const QUOTE: u8 = b'\'';

// Whether what stands behind the byte stands in quotes.
fn turned(byte: u8, quoted: bool) -> bool
    ensures { result ≡ turned byte quoted }
{
    if byte == QUOTE { !quoted } else { quoted }
}

// Whether the text, which may stand in quotes, begins with the word outside of them.
fn begins_outside(word: &[u8], quoted: bool, text: &[u8]) -> bool
    ensures { result ≡ begins_outside word.now quoted text.now }
{
    !quoted && text.starts_with(word)
}

// The place of the first such word outside of quotes, or the length where there is none.
fn place_outside(text: &[u8], word: &[u8]) -> usize
    ensures place { result ≡ place_outside word.now false text.now }
    ensures within { result ≤ length text.now }
{
    let mut quoted = false;
    for place in 0..text.len() {
        if begins_outside(word, quoted, &text[place..]) {
            return place;
        }
        quoted = turned(text[place], quoted);
    }
    text.len()
}

// What stands before the first such word outside of quotes, and behind it.
pub(crate) fn around_outside<'a>(text: &'a [u8], word: &[u8]) -> Option<(&'a [u8], &'a [u8])>
    requires { 0 < length word.now }
    ensures parted { (front rest : List ℕ) → LacksOutside word.now false front → front ++ (word.now ++ rest) ≡ text.now
        → IsParted front rest result }
    ensures whole { LacksOutside word.now false text.now → result ≡ None }
    ensures shorter { IfSome result (λ around. length around.1.now < length text.now) }
{
    let place = place_outside(text, word);
    let rest = behind(&text[place..], word)?;
    Some((&text[..place], rest))
}

// The place of the last such word behind which each quote is ended.
fn last_outside(text: &[u8], word: &[u8]) -> Option<usize>
    ensures place { result ≡ last_outside word.now text.now }
    ensures within { IfSome result (λ place. place < length text.now) }
{
    let mut quoted = false;
    let mut place = text.len();
    while place > 0 {
        place -= 1;
        quoted = turned(text[place], quoted);
        if begins_outside(word, quoted, &text[place..]) {
            return Some(place);
        }
    }
    None
}

// What stands before the last such word behind which each quote is ended, and behind it.
pub(crate) fn around_last<'a>(text: &'a [u8], word: &[u8]) -> Option<(&'a [u8], &'a [u8])>
    requires { IsWord word.now }
    ensures parted { (front rest : List ℕ) → LacksOutside word.now false (drop 1 word.now ++ rest) → front ++ (word.now ++ rest) ≡ text.now
        → IsParted front rest result }
    ensures whole { LacksOutside word.now false text.now → result ≡ None }
{
    let place = last_outside(text, word)?;
    let rest = behind(&text[place..], word)?;
    Some((&text[..place], rest))
}

// The text without each second quote.
fn undoubled(alloc: Global, text: &[u8]) -> Result<Vec<u8>, AllocError>
    ensures { IfOk result (λ single. single.items ≡ undoubled false text.now) }
{
    let mut single = Vec::new(alloc);
    let mut second = false;
    for byte in text {
        if *byte == QUOTE {
            if second {
                second = false;
            } else {
                single.push(*byte)?;
                second = true;
            }
        } else {
            single.push(*byte)?;
        }
    }
    Ok(single)
}

// The text that stands there in quotes. It may read it where a report would write it in another way.
pub(crate) fn unquoted(alloc: Global, text: &[u8]) -> Result<Option<Text>, AllocError>
    ensures { IfOk result (λ read. (name : List ℕ) → quoted_text name ≡ text.now → read ≡ Some name) }
{
    match behind(text, b"'") {
        None => Ok(None),
        Some([]) => Ok(None),
        Some(inner) => Ok(Some(Text::new(undoubled(alloc, &inner[..inner.len() - 1])?))),
    }
}

// Appends the name in quotes.
pub(crate) fn append_quoted(name: &[u8], text: &mut Vec<u8>) -> Result<(), AllocError>
    ensures { OnOk result (text.new.items ≡ text.old.items ++ quoted_text name.now) }
{
    text.push(QUOTE)?;
    for byte in name {
        if *byte == QUOTE {
            text.push(QUOTE)?;
        }
        text.push(*byte)?;
    }
    text.push(QUOTE)?;
    Ok(())
}
