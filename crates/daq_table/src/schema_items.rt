//! The items of a schema, read from their text.

ghost use Rattle.std.specs.Prelude.{◌≡◌, ◌==◌, ◌≤◌, drop, length, IfOk, IfErr};
ghost use Rattle.std.specs.List.{before_first, list_all};
ghost use Rattle.daq_table.specs.SchemaFaults.{Refuses};
ghost use Rattle.daq_table.specs.Schemas.{AreItemsOf, column_worded, is_dec_word, is_name_byte, is_nullable_word};
ghost use Rattle.daq_table.specs.Schemas.{is_schema_name, item_of, item_worded, kind_of, kind_word, skip_named};

use crate::head::Kind;
use crate::names::Name;
use crate::parts::around_first;
use crate::schema_column::SchemaColumn;
use crate::schema_fault::SchemaFault;
use crate::schema_item::SchemaItem;
use std::alloc::{AllocError, Global};

// Whether a byte may stand in a name.
fn is_letter(byte: u8) -> bool
    ensures { result ≡ is_name_byte byte }
{
    byte >= 0x20 && byte <= 0x7E && byte != b',' && byte != b':' && byte != b'"'
}

// Whether each byte may stand in a name.
fn are_letters(bytes: &[u8]) -> bool
    ensures { result ≡ list_all is_name_byte bytes.now }
{
    bytes.iter().all(|byte| is_letter(*byte))
}

/// Whether the bytes are the name of a column, as a schema gives it.
pub fn is_column_name(bytes: &[u8]) -> bool
    ensures { result ≡ is_schema_name bytes.now }
{
    bytes.len() >= 1 && bytes.len() <= 64 && are_letters(bytes)
}

// Whether the word is `dec` and one digit.
fn is_dec(word: &[u8]) -> bool
    ensures { result ≡ is_dec_word word.now }
{
    word.len() == 4 && word.starts_with(b"dec") && word[3].is_ascii_digit()
}

// The kind that a word names.
fn read_kind(word: &[u8]) -> Option<Kind>
    ensures { result ≡ kind_of word.now }
{
    if word == b"int".as_slice() {
        Some(Kind::Int)
    } else if word == b"date".as_slice() {
        Some(Kind::Date)
    } else if word == b"text".as_slice() {
        Some(Kind::Text)
    } else if is_dec(word) {
        Some(Kind::Dec(word[3] - b'0'))
    } else {
        None
    }
}

// The word of the kind, and whether a `?` behind it says that the column is nullable.
fn parted_word(word: &[u8]) -> (&[u8], bool)
    ensures kind { result.0.now ≡ kind_word word.now }
    ensures nullable { result.1 ≡ is_nullable_word word.now }
{
    if word.ends_with(b"?") {
        (&word[..word.len() - 1], true)
    } else {
        (word, false)
    }
}

// The column that a name and the word behind it declare, if they have the form.
fn read_column(alloc: Global, name: &[u8], word: &[u8]) -> Result<Option<SchemaColumn>, AllocError>
    ensures { IfOk result (λ column. column ≡ column_worded name.now word.now) }
{
    let (word, nullable) = parted_word(word);
    match read_kind(word) {
        Some(kind) => {
            if !is_column_name(name) {
                return Ok(None);
            }
            let name = Name::new(Vec::from_slice(alloc, name)?);
            Ok(Some(SchemaColumn {
                name,
                kind,
                nullable,
            }))
        }
        None => Ok(None),
    }
}

// The skipped field of that name, if it is one.
fn read_skip(alloc: Global, name: &[u8]) -> Result<Option<SchemaItem>, AllocError>
    ensures { IfOk result (λ item. item ≡ skip_named name.now) }
{
    if !is_column_name(name) {
        return Ok(None);
    }
    let name = Name::new(Vec::from_slice(alloc, name)?);
    Ok(Some(SchemaItem::Skip(name)))
}

// What a name and the word behind it declare, if they have the form.
fn read_worded(alloc: Global, name: &[u8], word: &[u8]) -> Result<Option<SchemaItem>, AllocError>
    ensures { IfOk result (λ item. item ≡ item_worded name.now word.now) }
{
    if word == b"skip".as_slice() {
        return read_skip(alloc, name);
    }
    match read_column(alloc, name, word)? {
        Some(column) => Ok(Some(SchemaItem::Column(column))),
        None => Ok(None),
    }
}

// What an item declares, if it has the form of one.
fn read_item(alloc: Global, item: &[u8]) -> Result<Option<SchemaItem>, AllocError>
    ensures { IfOk result (λ read. read ≡ item_of item.now) }
{
    let (name, word) = around_first(item, b':');
    read_worded(alloc, name, word)
}

// The item that stands at that place.
fn item_at(text: &[u8], at: usize) -> &[u8]
    requires { at ≤ length text.now }
    ensures { result.now ≡ before_first (λ c. c == 44) (drop at text.now) }
{
    let (item, _) = around_first(&text[at..], b',');
    item
}

// What the items of a text declare, or the first that has not the form of one.
pub(crate) fn read_items(alloc: Global, text: &[u8]) -> Result<Vec<SchemaItem>, SchemaFault>
    ensures ok { IfOk result (λ items. AreItemsOf text.now items.items) }
    ensures err { IfErr result (Refuses text.now) }
{
    let mut items = Vec::new(alloc);
    let mut at = 0;
    'items: loop {
        let item = item_at(text, at);
        match read_item(alloc, item)? {
            Some(read) => items.push(read)?,
            None => return Err(SchemaFault::BadItem { at }),
        }
        if at + item.len() == text.len() {
            return Ok(items);
        }
        at += item.len() + 1;
    }
}
